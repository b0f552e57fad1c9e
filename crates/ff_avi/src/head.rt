//! The head of an AVI input, and what its lists say before it is whole.
ghost use Rattle.std.specs.Prelude.{◌≡◌, length, slice_get};

use ff_frame::StreamHead;
use ff_reader::Step;

/// The head of an AVI: what comes before its data.
#[derive(Clone, Copy, PartialEq, Eq, Debug)]
pub struct AviHead {
    /// What is known of stream 0.
    pub first: StreamHead,
    /// What is known of stream 1, where there is one; of the two one is pictures and one sound.
    pub second: Option<StreamHead>,
    /// The offset of what follows the type of the list `movi`, in bytes.
    pub start: u64,
}

impl AviHead {
    ghost use Rattle.ff_avi.specs.Sound.{streams_of};

    /// How many streams it has.
    pub fn count(&self) -> u32
        ensures { result ≡ length (streams_of self.now) }
    {
        match self.second {
            None => 1,
            Some(_) => 2,
        }
    }

    /// What is known of the stream of this number.
    pub fn stream(&self, number: u32) -> Option<StreamHead>
        ensures { result ≡ slice_get (streams_of self.now) number }
    {
        match number {
            0 => Some(self.first),
            1 => self.second,
            _ => None,
        }
    }
}

/// What the lists so far say.
#[derive(Clone, Copy)]
pub struct AviState {
    /// What is known of stream 0, after its list.
    pub first: Option<StreamHead>,
    /// What is known of stream 1, after its list.
    pub second: Option<StreamHead>,
    /// How many bytes of the list of heads follow, without its pad byte; outside of it 0.
    pub left: u64,
}

/// What a chunk or list does to the reading of a head.
pub(crate) type AviStep = Step<AviHead, AviState>;
