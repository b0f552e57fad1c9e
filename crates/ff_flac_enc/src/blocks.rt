//! Audio frames gathered into blocks of 4,096 sample frames.
ghost use Rattle.std.specs.Prelude.{◌≡◌, ◌+◌, ◌^◌, ◌≤◌, ◌+ℤ◌, ◌<ℤ◌, ℕ, List, [], ◌∷◌, ◌++◌, Some, None, true, false, length, IfOk, IfErr, OnOk, OnErr, slice_get, pos};
ghost use Rattle.ff_frame.specs.declared.audio.AFrame.{AFrame};
ghost use Rattle.ff_frame.specs.Audio.{IsAudio};
ghost use Rattle.ff_frame.specs.Frame.{audio_frame};
ghost use Rattle.ff_flac_enc.specs.Gathered.{Holds, Holds-prop, IsDue, full_size, format_of};

use crate::format::Format;
use crate::waiting::Waiting;
use ff_frame::{AFrame, Samples};
use ff_stream::{Item, Refused};
use std::alloc::{AllocError, Global};

/// The samples of frames in blocks of 4,096 sample frames, the last one the rest. What is fed is copied once when it comes and
/// once into its block.
#[derive(Drop)]
pub struct Blocks {
    alloc: Global,
    /// That of the frames fed, once there is one.
    format: Option<Format>,
    /// When the next block starts, once a frame was fed.
    pts: i64,
    /// The samples that belong to no block given yet.
    waiting: Waiting,
    ended: bool,
    ghost sound: { Holds format waiting } by { Holds-prop format waiting },
}

// When the next block starts: a frame that is the first sets the time.
fn start(format: Option<Format>, pts: i64, first: i64) -> i64
    ensures none { format ≡ None → result ≡ first }
    ensures some { (f : Format) → format ≡ Some f → result ≡ pts }
{
    match format {
        None => first,
        Some(_) => pts,
    }
}

// One block later.
fn later(pts: i64) -> i64
    ensures { ((pts +ℤ pos 4096) <ℤ pos (2 ^ 63)) → result ≡ pts +ℤ pos 4096 }
{
    pts.wrapping_add(4096)
}

// How many of the samples that wait are the next block; none where it isn't complete and the input goes on.
fn size_due(ended: bool, full: usize, waiting: usize) -> usize
    ensures is { IsDue ended full waiting result }
    ensures there { result ≤ waiting }
{
    if full <= waiting {
        return full;
    }
    if ended {
        return waiting;
    }
    0
}

fn block(alloc: Global, format: Format, pts: i64, samples: &[i32]) -> Result<AFrame, AllocError>
    ensures { IfOk result (λ b. b ≡ audio_frame pts format.rate format.bits format.channels samples.now) }
{
    let samples = samples.to_vec(alloc)?;
    Ok(AFrame {
        pts,
        rate: format.rate,
        bits: format.bits,
        channels: format.channels,
        samples: Samples::new(samples),
    })
}

impl Blocks {
    ghost use Rattle.ff_flac_enc.specs.Gathered.{EndInTime, blocks_due};
    ghost use Rattle.ff_flac_enc.specs.laws.Cuts.{Cuts, IsLike, has_ended, format_in};

    /// Fed nothing, it has given no block.
    pub fn new(alloc: Global) -> Blocks
        ensures cuts { Cuts result [] 0 }
        ensures goes_on { has_ended result ≡ false }
        ensures format { format_in result ≡ None }
    {
        Blocks {
            alloc,
            format: None,
            pts: 0,
            waiting: Waiting::new(alloc),
            ended: false,
        }
    }

    /// Takes a further frame. The input must not have ended, and the frame has the rate, bits and channels of those before it.
    /// For want of memory the frame comes back.
    pub fn feed(&mut self, frame: AFrame) -> Result<(), Refused>
        requires goes_on { has_ended self.old ≡ false }
        requires sound { IsAudio frame.bits frame.channels frame.samples }
        requires alike { IsLike (format_in self.old) frame }
        ensures ok { OnOk result ((fed : List AFrame) (n : ℕ) → Cuts self.old fed n → EndInTime (fed ++ frame ∷ []) → Cuts self.new (fed ++ frame ∷ []) n) }
        ensures err { OnErr result (self.new ≡ self.old) }
        ensures back { IfErr result (λ refused. refused.item ≡ Item.Audio frame) }
        ensures ended { has_ended self.new ≡ false }
        ensures format { OnOk result (format_in self.new ≡ Some (format_of frame)) }
    {
        if self.waiting.push(frame.samples.as_slice()).is_err() {
            return Err(Refused {
                item: Item::Audio(frame),
            });
        }
        self.pts = start(self.format, self.pts, frame.pts);
        self.format = Some(Format::of(&frame));
        Ok(())
    }

    /// The input ended: nothing more is fed.
    pub fn end(&mut self)
        requires { has_ended self.old ≡ false }
        ensures cuts { (fed : List AFrame) (n : ℕ) → Cuts self.old fed n → Cuts self.new fed n }
        ensures ended { has_ended self.new ≡ true }
        ensures format { format_in self.new ≡ format_in self.old }
    {
        self.ended = true;
    }

    /// The next block. A block has 4,096 sample frames, the last one the rest. It starts as many ticks after the
    /// first frame fed as there are sample frames before it. None where no block is complete and the input goes on,
    /// or all were given.
    pub fn pull(&mut self) -> Result<Option<AFrame>, AllocError>
        ensures gives { (fed : List AFrame) (n : ℕ) → Cuts self.old fed n → (b : AFrame) → result ≡ Ok (Some b)
            → Cuts self.new fed (n + 1) × (slice_get (blocks_due (has_ended self.old) fed) n ≡ Some b) }
        // None exactly where all blocks that are due were given.
        ensures none { (fed : List AFrame) (n : ℕ) → Cuts self.old fed n → result ≡ Ok None → length (blocks_due (has_ended self.old) fed) ≡ n }
        ensures wanted { (fed : List AFrame) (n : ℕ) → Cuts self.old fed n → length (blocks_due (has_ended self.old) fed) ≡ n → result ≡ Ok None }
        ensures still { result ≡ Ok None → self.new ≡ self.old }
        ensures err { OnErr result (self.new ≡ self.old) }
        ensures ended { has_ended self.new ≡ has_ended self.old }
        ensures format { format_in self.new ≡ format_in self.old }
        ensures like { (b : AFrame) → result ≡ Ok (Some b) → format_in self.old ≡ Some (format_of b) }
        ensures sound { (b : AFrame) → result ≡ Ok (Some b) → IsAudio b.bits b.channels b.samples }
        ensures few { (b : AFrame) → result ≡ Ok (Some b) → length b.samples ≤ full_size b.channels }
    {
        let Some(format) = self.format else {
            return Ok(None);
        };
        let full = 4096 * usize::from(format.channels);
        let count = size_due(self.ended, full, self.waiting.len());
        if count == 0 {
            return Ok(None);
        }
        let next = block(self.alloc, format, self.pts, self.waiting.front(count))?;
        self.waiting.skip(count);
        self.pts = later(self.pts);
        Ok(Some(next))
    }
}
