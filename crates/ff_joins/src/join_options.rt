//! The arguments of `join`, and the head of its output.
ghost use Rattle.std.specs.Prelude.{◌≡◌, ◌<◌, length, IfOk};
ghost use Rattle.ff_filter.specs.Options.{is_sound as sound_head};
ghost use Rattle.ff_joins.specs.Arguments.{each_head};
ghost use Rattle.ff_joins.specs.JoinOptions.{is_like as like_head, channels_of as channels_of_head, channels_in, rate_of};
ghost use Rattle.ff_joins.specs.JoinOptions.{bits_of, with_channels as with_all, AreAlike, IsJoin};

use crate::arguments::last_number;
use ff_filter::{Settings, ranged, read_args};
use ff_frame::{ConfigError, StreamHead};
use ff_lang::Arg;

/// The settings of `join`.
#[derive(Clone, Copy, Debug)]
pub struct JoinSettings {
    /// How many inputs there are.
    pub inputs: u64,
}

impl Settings for JoinSettings {
    ghost use Rattle.ff_joins.specs.JoinOptions.{join_manual};

    ghost manual = { join_manual };

    fn option(key: &str) -> Option<usize> {
        if key == "inputs" { Some(0) } else { None }
    }

    fn places() -> usize {
        1
    }

    fn set(self, _option: usize, value: &str) -> Option<JoinSettings> {
        match ranged(value, 2, 8) {
            None => None,
            Some(inputs) => Some(JoinSettings { inputs }),
        }
    }
}

// Whether a head is one of audio.
fn is_sound(head: &StreamHead) -> bool
    ensures { result ≡ sound_head head.now }
{
    match head {
        StreamHead::Audio { .. } => true,
        StreamHead::Video { .. } => false,
    }
}

// Whether each head is one of audio.
fn are_sound(heads: &[StreamHead]) -> bool
    ensures { result ≡ each_head sound_head heads.now }
{
    'heads: for p in 0..heads.len() {
        if !is_sound(&heads[p]) {
            return false;
        }
    }
    true
}

/// The rate and the bits of an audio head.
pub(crate) fn rate_and_bits(head: &StreamHead) -> (u32, u8)
    ensures { (result.0 ≡ rate_of head.now) × (result.1 ≡ bits_of head.now) }
{
    match *head {
        StreamHead::Audio { rate, bits, .. } => (rate, bits),
        StreamHead::Video { .. } => (0, 0),
    }
}

// Whether a head has the rate and the bits of another.
fn is_like(first: &StreamHead, head: &StreamHead) -> bool
    ensures { result ≡ like_head first.now head.now }
{
    let (rate, bits) = rate_and_bits(first);
    let (its_rate, its_bits) = rate_and_bits(head);
    its_rate == rate && its_bits == bits
}

// Whether each head has the rate and the bits of the first.
fn are_alike(first: &StreamHead, heads: &[StreamHead]) -> bool
    ensures { result ≡ each_head (like_head first.now) heads.now }
{
    'heads: for p in 0..heads.len() {
        if !is_like(first, &heads[p]) {
            return false;
        }
    }
    true
}

/// The channels of an audio head.
pub(crate) fn channels(head: &StreamHead) -> u8
    ensures { result ≡ channels_of_head head.now }
{
    match *head {
        StreamHead::Audio { channels, .. } => channels,
        StreamHead::Video { .. } => 0,
    }
}

// The channels of all heads.
fn all_channels(heads: &[StreamHead]) -> u128
    ensures { result ≡ channels_in heads.now }
{
    let mut total: u128 = 0;
    'heads: for p in 0..heads.len() {
        total += channels(&heads[p]) as u128;
    }
    total
}

// The head with so many channels.
fn with_channels(head: &StreamHead, channels: u8) -> StreamHead
    ensures { result ≡ with_all head.now channels }
{
    match *head {
        StreamHead::Audio {
            tb,
            rate,
            bits,
            codec,
            ..
        } => StreamHead::Audio {
            tb,
            rate,
            bits,
            channels,
            codec,
        },
        StreamHead::Video { .. } => *head,
    }
}

// The head of the output of inputs of these heads.
fn head_of_all(heads: &[StreamHead]) -> Result<StreamHead, ConfigError>
    ensures is { AreAlike heads.now result }
    ensures some { IfOk result (λ h. 0 < length heads.now) }
{
    match heads {
        [] => Err(ConfigError::Pads),
        [first, others @ ..] => {
            if !are_alike(first, others) {
                return Err(ConfigError::Mismatch);
            }
            let all = all_channels(heads);
            if all <= 8 {
                Ok(with_channels(first, all as u8))
            } else {
                Err(ConfigError::BadSize)
            }
        }
    }
}

/// The head of the output of `join` by its arguments and the heads of its inputs. That is the head of the first
/// input, with the channels of all. The option `inputs`, which may be given by place, is 2 to 8, and 2 where it isn't
/// given. It refuses in this order: `Pads`, `Kind`, `UnknownOption` and `BadOption` by argument, `Mismatch` where
/// rates or bits differ, `BadSize` above 8 channels in all.
pub fn join_head(args: &[Arg], heads: &[StreamHead]) -> Result<StreamHead, ConfigError>
    ensures is { IsJoin args.now heads.now result }
    ensures some { IfOk result (λ h. 0 < length heads.now) }
{
    if heads.len() as u64 != last_number::<JoinSettings>(args, 0, 2, 8, 2) {
        return Err(ConfigError::Pads);
    }
    if !are_sound(heads) {
        return Err(ConfigError::Kind);
    }
    match read_args(JoinSettings { inputs: 2 }, args) {
        Err(error) => Err(error),
        Ok(_settings) => head_of_all(heads),
    }
}
