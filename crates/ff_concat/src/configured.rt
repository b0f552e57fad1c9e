//! `concat` by its arguments and the heads of its inputs.
ghost use Rattle.std.specs.Prelude.{◌≡◌, ◌≤◌, ◌*◌, ◌||◌, ◌∷◌, [], IfOk, IfErr, cond, length, true, false};
ghost use Rattle.ff_frame.specs.declared.config.ConfigError.TheVariants.{NoMemory};
ghost use Rattle.ff_filter.specs.Options.{is_video, is_sound};
ghost use Rattle.ff_concat.specs.Arguments.{streams_of};
ghost use Rattle.ff_concat.specs.ConcatOptions.{are_of_kinds as are_of_kinds_asked, AreAlike, AreJoined, start_view, start_heads};
ghost use Rattle.ff_concat.specs.laws.Tracks.{concat_view};

use crate::asked::start;
use crate::concat::Concat;
use crate::settings::Asked;
use crate::starting::{of_one, of_two};
use ff_filter::{Filter, read_args};
use ff_frame::{ConfigError, StreamHead};
use ff_lang::Arg;
use std::alloc::{AllocError, Global};

// Whether a head is of video, or of audio.
fn is_of_kind(head: &StreamHead, video: bool) -> bool
    ensures { result ≡ cond video (is_video head.now) (is_sound head.now) }
{
    match *head {
        StreamHead::Audio { .. } => !video,
        StreamHead::Video { .. } => video,
    }
}

// Whether the heads are of the kinds that are asked for.
fn are_of_kinds(asked: &Asked, heads: &[StreamHead]) -> bool
    ensures { result ≡ are_of_kinds_asked asked.now heads.now }
{
    let both = asked.video && asked.audio;
    let mut video = asked.video;
    'heads: for p in 0..heads.len() {
        if !is_of_kind(&heads[p], video) {
            return false;
        }
        if both {
            video = !video;
        }
    }
    true
}

// Whether two heads differ.
fn differ(first: &StreamHead, second: &StreamHead) -> bool
    ensures same { result ≡ false → first.now ≡ second.now }
    ensures differ { result ≡ true → first.now ≡ second.now → ⊥ }
{
    *first != *second
}

// Whether each head is that of the same stream in the segment before.
fn are_alike(heads: &[StreamHead], width: usize) -> bool
    ensures same { result ≡ true → AreAlike width heads.now }
    ensures differ { result ≡ false → AreAlike width heads.now → ⊥ }
{
    'heads: for p in width..heads.len() {
        if differ(&heads[p], &heads[p - width]) {
            return false;
        }
    }
    true
}

// The only head of a segment.
fn one_head(alloc: Global, head: &StreamHead) -> Result<Vec<StreamHead>, AllocError>
    ensures { IfOk result (λ v. v.items ≡ head.now ∷ []) }
{
    let mut heads = Vec::with_capacity(alloc, 1)?;
    heads.push_reserved(*head);
    Ok(heads)
}

// Both heads of a segment.
fn two_heads(
    alloc: Global,
    first: &StreamHead,
    second: &StreamHead,
) -> Result<Vec<StreamHead>, AllocError>
    ensures { IfOk result (λ v. v.items ≡ first.now ∷ second.now ∷ []) }
{
    let mut heads = Vec::with_capacity(alloc, 2)?;
    heads.push_reserved(*first);
    heads.push_reserved(*second);
    Ok(heads)
}

// Segments of one stream, and its head. `NoMemory` where there was none.
fn one_stream(
    alloc: Global,
    head: &StreamHead,
    segments: usize,
) -> Result<(Concat, Vec<StreamHead>), ConfigError>
    ensures view { IfOk result (λ r. concat_view r.0 ≡ start_view (head.now ∷ [], segments)) }
    ensures heads { IfOk result (λ r. r.1.items ≡ head.now ∷ []) }
    ensures err { IfErr result (λ e. e ≡ NoMemory) }
{
    match of_one(alloc, head, segments) {
        Err(_) => Err(ConfigError::NoMemory),
        Ok(machine) => match one_head(alloc, head) {
            Err(_) => Err(ConfigError::NoMemory),
            Ok(heads) => Ok((machine, heads)),
        },
    }
}

// Segments of two streams, and their heads. `NoMemory` where there was none.
fn two_streams(
    alloc: Global,
    first: &StreamHead,
    second: &StreamHead,
    segments: usize,
) -> Result<(Concat, Vec<StreamHead>), ConfigError>
    requires { segments ≤ 16 }
    ensures view { IfOk result (λ r. concat_view r.0 ≡ start_view (first.now ∷ second.now ∷ [], segments)) }
    ensures heads { IfOk result (λ r. r.1.items ≡ first.now ∷ second.now ∷ []) }
    ensures err { IfErr result (λ e. e ≡ NoMemory) }
{
    match of_two(alloc, first, second, segments) {
        Err(_) => Err(ConfigError::NoMemory),
        Ok(machine) => match two_heads(alloc, first, second) {
            Err(_) => Err(ConfigError::NoMemory),
            Ok(heads) => Ok((machine, heads)),
        },
    }
}

impl Concat {
    ghost use Rattle.ff_filter.specs.Options.{IsRefused};
    ghost use Rattle.ff_filter.specs.laws.spread.Many.{AreMade};
    ghost use Rattle.ff_concat.specs.ConcatOptions.{IsConcat};

    // The machine of segments of these heads.
    fn of_heads(
        alloc: Global,
        heads: &[StreamHead],
        asked: &Asked,
    ) -> Result<(Concat, Vec<StreamHead>), ConfigError>
        requires count { length heads.now ≡ asked.now.segments * streams_of asked.now }
        requires some { 2 ≤ asked.now.segments }
        requires few { asked.now.segments ≤ 16 }
        requires kinds { (asked.now.video || asked.now.audio) ≡ true }
        ensures made { IfOk result (λ r. AreMade (AreJoined asked.now heads.now) start_view start_heads (concat_view r.0) r.1.items) }
        ensures refused { IfErr result (IsRefused (AreJoined asked.now heads.now)) }
    {
        let width = asked.streams();
        if !are_alike(heads, width) {
            return Err(ConfigError::Mismatch);
        }
        if width == 2 {
            two_streams(alloc, &heads[0], &heads[1], asked.segments)
        } else {
            one_stream(alloc, &heads[0], asked.segments)
        }
    }

    /// The filter by its arguments and the heads of its inputs. Beside it stand the heads of its outputs, which are those
    /// of the first segment. The options are `n`, how many segments there are, and `v` and `a`, whether each has video and
    /// audio. `n` is 2 to 16, and 2 where it isn't given. Of `v` and `a` each is 0 or 1 and one is 1; v is 1 and a is 0
    /// where they aren't given. There are at most 16 inputs. It refuses in this order: `Pads`, `Kind`, `UnknownOption` and
    /// `BadOption` by argument, `Mismatch` where the heads of a stream differ between segments.
    pub fn configure(
        alloc: Global,
        args: &[Arg],
        heads: &[StreamHead],
    ) -> Result<(Concat, Vec<StreamHead>), ConfigError>
        ensures made { IfOk result (λ r. AreMade (IsConcat args.now heads.now) start_view start_heads
            (⟦<Concat as Filter>⟧.view r.0) r.1.items) }
        ensures refused { IfErr result (IsRefused (IsConcat args.now heads.now)) }
    {
        let asked = Asked::by(args);
        if heads.len() != asked.inputs() {
            return Err(ConfigError::Pads);
        }
        if !are_of_kinds(&asked, heads) {
            return Err(ConfigError::Kind);
        }
        match read_args(start(args), args) {
            Err(error) => Err(error),
            Ok(_settings) => Concat::of_heads(alloc, heads, &asked),
        }
    }
}
