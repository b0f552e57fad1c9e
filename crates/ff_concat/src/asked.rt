//! What the arguments of `concat` ask for.
ghost use Rattle.std.specs.Prelude.{◌≡◌, ◌≤◌, ◌||◌, true, false, IfSome};
ghost use Rattle.ff_filter.specs.Options.{option_of as option_at, gives};
ghost use Rattle.ff_concat.specs.Arguments.{concat_manual, concat_start, from_number, video_alone as alone, asked_of as asked_in};
ghost use Rattle.ff_concat.specs.Arguments.{said as said_of, times_from, ends_with_n as ends_with, asked as asked_all, asked_by as asked_for, streams_of};
ghost use Rattle.ff_concat.specs.Pads.{inputs_of, takes_audio as audio_at};

use crate::arguments::{streams, too_many};
use crate::settings::{Asked, ConcatSettings};
use ff_filter::{option_of, ranged};
use ff_lang::Arg;

// Whether an argument gives the option of this number.
fn is_given(arg: &Arg, keyed: bool, place: usize, option: usize) -> bool
    ensures { result ≡ gives option (option_at concat_manual keyed place arg.now.key) }
{
    match option_of::<ConcatSettings>(arg, keyed, place) {
        None => false,
        Some(given) => given == option,
    }
}

// Whether an argument gives an option from this number on.
fn is_given_from(arg: &Arg, keyed: bool, place: usize, least: usize) -> bool
    ensures { result ≡ from_number least (option_at concat_manual keyed place arg.now.key) }
{
    match option_of::<ConcatSettings>(arg, keyed, place) {
        None => false,
        Some(given) => least <= given,
    }
}

// What the last argument says that gives an option, or none such; `otherwise` where none gives it.
fn said(args: &[Arg], option: usize, least: u64, most: u64, otherwise: u64) -> Option<u64>
    requires least { least ≤ otherwise }
    requires most { otherwise ≤ most }
    ensures value { result ≡ said_of option least most otherwise args.now }
    ensures within { IfSome result (λ n. (least ≤ n) × (n ≤ most)) }
{
    let mut number = Some(otherwise);
    let mut keyed = false;
    'each: for place in 0..args.len() {
        let arg = &args[place];
        if is_given(arg, keyed, place, option) {
            number = ranged(arg.value.as_str(), least, most);
        }
        keyed = keyed | arg.key.is_some();
    }
    number
}

// How many arguments give an option from this number on.
fn times_given(args: &[Arg], least: usize) -> usize
    ensures { result ≡ times_from least false 0 args.now }
{
    let mut times: usize = 0;
    let mut keyed = false;
    'each: for place in 0..args.len() {
        let arg = &args[place];
        if is_given_from(arg, keyed, place, least) {
            times += 1;
        }
        keyed = keyed | arg.key.is_some();
    }
    times
}

// Whether `n` is the last option that the arguments give.
fn ends_with_n(args: &[Arg]) -> bool
    ensures { result ≡ ends_with false false 0 args.now }
{
    let mut last = false;
    let mut keyed = false;
    'each: for place in 0..args.len() {
        let arg = &args[place];
        if is_given_from(arg, keyed, place, 0) {
            last = is_given(arg, keyed, place, 0);
        }
        keyed = keyed | arg.key.is_some();
    }
    last
}

// Video alone, in so many segments.
fn video_alone(segments: usize) -> Asked
    ensures { result ≡ alone segments }
{
    Asked {
        segments,
        video: true,
        audio: false,
    }
}

// What is asked for by the numbers that are said last. `last` says whether `n` is given behind the others.
fn asked_by(n: Option<u64>, v: Option<u64>, a: Option<u64>, last: bool) -> Asked
    requires { IfSome n (λ k. (2 ≤ k) × (k ≤ 16)) }
    ensures is { result ≡ asked_for n v a last }
    ensures some { 2 ≤ result.segments }
    ensures few { result.segments ≤ 16 }
    ensures kinds { (result.video || result.audio) ≡ true }
{
    let segments = match n {
        None => 2,
        Some(number) => number as usize,
    };
    match v {
        None => video_alone(segments),
        Some(v) => match a {
            None => video_alone(segments),
            Some(a) => of_kinds(segments, v == 1, a == 1, last),
        },
    }
}

// What is asked for where each number is one that its option takes.
fn of_kinds(segments: usize, video: bool, audio: bool, last: bool) -> Asked
    requires some { 2 ≤ segments }
    requires few { segments ≤ 16 }
    ensures is { result ≡ asked_in segments video audio last }
    ensures some { 2 ≤ result.segments }
    ensures few { result.segments ≤ 16 }
    ensures kinds { (result.video || result.audio) ≡ true }
{
    if !(video || audio) {
        return video_alone(segments);
    }
    if !too_many(segments, video, audio) {
        return Asked {
            segments,
            video,
            audio,
        };
    }
    if last {
        Asked {
            segments: 2,
            video,
            audio,
        }
    } else {
        video_alone(segments)
    }
}

/// The settings before the first argument was read.
pub(crate) fn start(args: &[Arg]) -> ConcatSettings
    ensures { result ≡ concat_start args.now }
{
    ConcatSettings {
        segments: 2,
        video: true,
        audio: false,
        kinds_left: times_given(args, 1),
        left: times_given(args, 0),
    }
}

impl Asked {
    /// What the arguments ask for, whatever they are refused for. For a number of segments that is refused stands 2, and
    /// for the kinds, where one of them is refused, video alone.
    pub fn by(args: &[Arg]) -> Asked
        ensures is { result ≡ asked_all args.now }
        ensures some { 2 ≤ result.segments }
        ensures few { result.segments ≤ 16 }
        ensures kinds { (result.video || result.audio) ≡ true }
    {
        let n = said(args, 0, 2, 16, 2);
        let v = said(args, 1, 0, 1, 1);
        let a = said(args, 2, 0, 1, 0);
        asked_by(n, v, a, ends_with_n(args))
    }

    /// How many streams a segment has.
    pub fn streams(&self) -> usize
        ensures is { result ≡ streams_of self.now }
        ensures few { result ≤ 2 }
    {
        streams(self.video, self.audio)
    }

    /// How many inputs are asked for.
    pub fn inputs(&self) -> usize
        requires { self.now.segments ≤ 16 }
        ensures { result ≡ inputs_of self.now }
    {
        self.segments * self.streams()
    }

    /// Whether the pad of this number, of the inputs or of the outputs, takes audio.
    pub fn takes_audio(&self, pad: usize) -> bool
        ensures { result ≡ audio_at self.now pad }
    {
        self.audio && (!self.video || pad % 2 == 1)
    }
}
