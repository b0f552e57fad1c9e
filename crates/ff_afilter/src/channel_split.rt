//! The filter `channelsplit`.
ghost use Rattle.std.specs.Prelude.{◌≡◌, ◌<◌, ◌+◌, ◌*◌, ◌/◌, length, cond, nat_lt, false, replicate, IfOk, IfErr};
ghost use Rattle.ff_stream.specs.declared.item.Lane.TheVariants.{Frames};
ghost use Rattle.ff_frame.specs.declared.config.ConfigError.TheVariants.{NoMemory};
ghost use Rattle.ff_afilter.specs.Channels.{channel_of, channel_frame, mono_head as head_of_one, channels_in as channels_of_head, channels_view, mono_heads};

use ff_filter::{Filter, NoSettings, Share, Spreader, same_heads, sound_settings};
use ff_frame::{AFrame, ConfigError, Samples, StreamHead};
use ff_lang::Arg;
use ff_stream::{Item, shared};
use std::alloc::{AllocError, Global};

/// Gives each output one channel.
#[derive(Drop)]
pub struct Channels {
    /// The head of the input.
    pub head: StreamHead,
    /// Where the memory of the channels comes from.
    pub alloc: Global,
}

// The samples of one channel, in new memory.
#[inline(always)]
#[tactic(auto, using(crate::proofs::Picking::sample_there))]
fn picked_of(
    alloc: Global,
    samples: &[i32],
    channels: usize,
    channel: usize,
) -> Result<Samples, AllocError>
    requires { channel < channels }
    ensures { IfOk result (λ xs. xs ≡ channel_of channel channels (length samples.now / channels) samples.now) }
{
    let count = shared(samples.len(), channels);
    let mut out = Vec::with_capacity(alloc, count)?;
    'picked: for k in 0..count {
        out.push_reserved(samples[k * channels + channel]);
    }
    Ok(Samples::new(out))
}

// The same. Of two channels, whose number is then known when this is compiled, several samples are read at once.
fn picked(
    alloc: Global,
    samples: &[i32],
    channels: usize,
    channel: usize,
) -> Result<Samples, AllocError>
    requires { channel < channels }
    ensures { IfOk result (λ xs. xs ≡ channel_of channel channels (length samples.now / channels) samples.now) }
{
    if channels == 2 {
        return picked_of(alloc, samples, 2, channel);
    }
    picked_of(alloc, samples, channels, channel)
}

// The samples of one channel, in the memory of all.
#[inline(always)]
#[tactic(auto, using(crate::proofs::Picking::sample_there))]
fn kept_of(samples: Samples, channels: usize, channel: usize) -> Samples
    requires { channel < channels }
    ensures { result ≡ channel_of channel channels (length samples / channels) samples }
{
    let mut items = samples.into_vec();
    let count = shared(items.len(), channels);
    'kept: for k in 0..count {
        items[k] = items[k * channels + channel];
    }
    items.truncate(count);
    Samples::new(items)
}

// The same, quicker of two channels.
fn kept(samples: Samples, channels: usize, channel: usize) -> Samples
    requires { channel < channels }
    ensures { result ≡ channel_of channel channels (length samples / channels) samples }
{
    if channels == 2 {
        return kept_of(samples, 2, channel);
    }
    kept_of(samples, channels, channel)
}

// A frame of one channel of this one, or a copy of it where it doesn't have the channel.
fn frame_of(alloc: Global, frame: &AFrame, channel: usize) -> Result<AFrame, AllocError>
    ensures { IfOk result (λ f. f ≡ cond (nat_lt channel frame.now.channels) (channel_frame channel frame.now) frame.now) }
{
    if channel >= frame.channels as usize {
        return frame.try_copy(alloc);
    }
    let samples = picked(
        alloc,
        frame.samples.as_slice(),
        frame.channels as usize,
        channel,
    )?;
    Ok(AFrame {
        pts: frame.pts,
        rate: frame.rate,
        bits: frame.bits,
        channels: 1,
        samples,
    })
}

// One channel of a frame in its memory.
fn turned(frame: AFrame, channel: usize) -> AFrame
    ensures { result ≡ cond (nat_lt channel frame.channels) (channel_frame channel frame) frame }
{
    if channel >= frame.channels as usize {
        return frame;
    }
    AFrame {
        pts: frame.pts,
        rate: frame.rate,
        bits: frame.bits,
        channels: 1,
        samples: kept(frame.samples, frame.channels as usize, channel),
    }
}

impl Share for Channels {
    ghost use Rattle.ff_afilter.specs.Channels.{channel_item};
    ghost use Rattle.ff_afilter.specs.laws.ChannelLaws.{channel-goes_on};

    ghost lane_in = { λ m. Frames m.head };

    ghost lanes_out = { λ m. replicate (channels_of_head m.head) (Frames (head_of_one m.head)) };

    ghost shared = { λ m q x. channel_item q x };

    fn copy(&self, port: usize, item: &Item) -> Result<Item, AllocError> {
        match item {
            Item::Audio(frame) => match frame_of(self.alloc, frame, port) {
                Ok(frame) => Ok(Item::Audio(frame)),
                Err(error) => Err(error),
            },
            Item::Video(_) | Item::Packet(_) | Item::Trailer(_) | Item::End | Item::Broken => {
                item.try_copy(self.alloc)
            }
        }
    }

    fn turn(&self, port: usize, item: Item) -> Item {
        match item {
            Item::Audio(frame) => Item::Audio(turned(frame, port)),
            Item::Video(frame) => Item::Video(frame),
            Item::Packet(packet) => Item::Packet(packet),
            Item::Trailer(totals) => Item::Trailer(totals),
            Item::End => Item::End,
            Item::Broken => Item::Broken,
        }
    }

    ghost goes_on = { λ m q x c. channel-goes_on q x c };
}

// How many channels a stream has.
fn channels_in(head: &StreamHead) -> usize
    ensures { result ≡ channels_of_head head.now }
{
    match *head {
        StreamHead::Audio { channels, .. } => channels as usize,
        StreamHead::Video { .. } => 0,
    }
}

// The head of the stream of one channel.
fn mono_head(head: &StreamHead) -> StreamHead
    ensures { result ≡ head_of_one head.now }
{
    match *head {
        StreamHead::Audio {
            tb,
            rate,
            bits,
            codec,
            ..
        } => StreamHead::Audio {
            tb,
            rate,
            bits,
            channels: 1,
            codec,
        },
        StreamHead::Video { .. } => *head,
    }
}

// The machine of so many channels, and the heads of its outputs. `NoMemory` where there was none.
fn channels_of(
    alloc: Global,
    head: &StreamHead,
) -> Result<(Spreader<Channels>, Vec<StreamHead>), ConfigError>
    ensures view { IfOk result (λ r. ⟦<Spreader<Channels> as Filter>⟧.view r.0 ≡ channels_view head.now) }
    ensures heads { IfOk result (λ r. r.1.items ≡ mono_heads head.now) }
    ensures err { IfErr result (λ e. e ≡ NoMemory) }
{
    let count = channels_in(head);
    let share = Channels { head: *head, alloc };
    match Spreader::new(alloc, share, count) {
        Err(_) => Err(ConfigError::NoMemory),
        Ok(machine) => match same_heads(alloc, &mono_head(head), count) {
            Err(_) => Err(ConfigError::NoMemory),
            Ok(heads) => Ok((machine, heads)),
        },
    }
}

/// `channelsplit`: one output for each channel.
pub struct ChannelSplit {}

impl ChannelSplit {
    ghost use Rattle.ff_filter.specs.Options.{IsRefused};
    ghost use Rattle.ff_filter.specs.laws.spread.Many.{AreMade};
    ghost use Rattle.ff_afilter.specs.Channels.{IsChannelSplit};

    /// The filter by its arguments, of which it takes none, and the head of its input. Beside it stands a head for
    /// each channel: that of the input with one channel. It refuses in this order: `Pads`, `Kind`, `UnknownOption` of
    /// the first argument.
    pub fn configure(
        alloc: Global,
        args: &[Arg],
        heads: &[StreamHead],
    ) -> Result<(Spreader<Channels>, Vec<StreamHead>), ConfigError>
        ensures made { IfOk result (λ r. AreMade (IsChannelSplit args.now heads.now) channels_view mono_heads
            (⟦<Spreader<Channels> as Filter>⟧.view r.0) r.1.items) }
        ensures refused { IfErr result (IsRefused (IsChannelSplit args.now heads.now)) }
    {
        match sound_settings(NoSettings {}, args, heads) {
            Err(error) => Err(error),
            Ok((head, _settings)) => channels_of(alloc, &head),
        }
    }
}
