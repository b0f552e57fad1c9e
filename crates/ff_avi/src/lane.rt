//! What the data needs to know of the streams of a head.
ghost use Rattle.std.specs.Prelude.{◌≡◌, ◌≤◌, IfSome};
ghost use Rattle.ff_pcm.specs.body.Packets.{block_of};
ghost use Rattle.ff_avi.specs.Lanes.{picture_size, size_of, lane_with, lanes_of};
ghost use Rattle.ff_avi.specs.Sound.{IsHead, IsStream};

use crate::head::AviHead;
use ff_frame::StreamHead;
use ff_pcm::size_of_sample;

/// One kind of stream in the data.
#[derive(Clone, Copy)]
pub struct Lane {
    /// The number of the stream.
    pub stream: u8,
    /// The bytes of a picture or of a sample frame; 0 where the file has no such stream.
    pub size: u64,
    /// Whether its packets are given.
    pub is_used: bool,
}

/// Both kinds of streams in the data.
#[derive(Clone, Copy)]
pub struct Lanes {
    /// Pictures.
    pub pictures: Lane,
    /// Sound.
    pub sound: Lane,
}

// The bytes of a picture, or 0 of sound.
fn size_of_picture(stream: &StreamHead) -> u64
    requires { IsStream stream.now }
    ensures value { result ≡ picture_size stream.now }
    ensures few { result ≤ 805306368 }
{
    match *stream {
        StreamHead::Audio { .. } => 0,
        StreamHead::Video {
            format,
            width,
            height,
            ..
        } => format.frame_size(width, height) as u64,
    }
}

// The bytes of a sample frame, or 0 of pictures.
fn size_of_block(stream: &StreamHead) -> u64
    requires { IsStream stream.now }
    ensures value { result ≡ block_of stream.now }
    ensures few { result ≤ 32 }
{
    match *stream {
        StreamHead::Audio {
            channels,
            codec,
            ..
        } => channels as u64 * size_of_sample(codec) as u64,
        StreamHead::Video { .. } => 0,
    }
}

// The lane of the stream that has a size.
fn lane_of(first: u64, second: u64, used: &[u32]) -> Lane
    ensures { result ≡ lane_with first second used.now }
{
    if 0 < first {
        return Lane {
            stream: 0,
            size: first,
            is_used: used.contains(&0),
        };
    }
    Lane {
        stream: 1,
        size: second,
        is_used: used.contains(&1),
    }
}

// The sizes of the second stream, where there is one.
fn second_sizes(second: &Option<StreamHead>) -> (u64, u64)
    requires { IfSome second.now IsStream }
    ensures picture { result.0 ≡ size_of picture_size second.now }
    ensures block { result.1 ≡ size_of block_of second.now }
    ensures few { (result.0 ≤ 805306368) × (result.1 ≤ 32) }
{
    match second {
        None => (0, 0),
        Some(stream) => (size_of_picture(stream), size_of_block(stream)),
    }
}

/// The lanes of a head of which the streams of these numbers are used.
pub(crate) fn lanes_in(head: &AviHead, used: &[u32]) -> Lanes
    requires { IsHead head.now }
    ensures value { result ≡ lanes_of head.now used.now }
    ensures streams { (result.pictures.stream ≤ 1) × (result.sound.stream ≤ 1) }
    ensures picture { result.pictures.size ≤ 805306368 }
    ensures block { result.sound.size ≤ 32 }
{
    let second = second_sizes(&head.second);
    Lanes {
        pictures: lane_of(size_of_picture(&head.first), second.0, used),
        sound: lane_of(size_of_block(&head.first), second.1, used),
    }
}
