//! The frame or fault that some bytes begin with (yuv4mpeg(5), "Frame Format").
ghost use Rattle.std.specs.Prelude.{◌≡◌, ◌+◌, ◌≤◌, ◌<◌, length};
ghost use Rattle.ff_y4m.specs.Packets.{unit};

use crate::line::{LONGEST_LINE, begins, line_end};

/// What some bytes begin with.
#[derive(Clone, Copy, PartialEq, Eq, Debug)]
pub enum Front {
    /// More bytes decide.
    Wait,
    /// No frame begins here.
    Other,
    /// A whole frame, whose line has so many bytes before its line feed.
    Frame(usize),
}

/// What these bytes begin with, where a frame's planes have this size.
#[tactic(auto, unfolding(crate::specs::Packets::unit))]
pub(crate) fn front_of(size: usize, bytes: &[u8]) -> Front
    requires { size ≤ 805306368 }
    ensures { result ≡ unit size bytes.now }
{
    if !begins(b"FRAME", bytes) {
        return Front::Other;
    }
    let Some(line) = line_end(LONGEST_LINE, bytes) else {
        return Front::Wait;
    };
    if line >= LONGEST_LINE {
        return Front::Other;
    }
    if bytes.len() < line + 1 + size {
        return Front::Wait;
    }
    Front::Frame(line)
}
