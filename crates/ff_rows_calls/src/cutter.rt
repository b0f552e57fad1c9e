//! The cut of an input of any format, for rows.
ghost use Rattle.std.specs.Prelude.{◌≡◌, ◌+◌, ◌≤◌, ◌^◌, false, length};

use crate::table::Stop;
use ff_frame::{Cut, Pkt};
use ff_reader::PacketCut;
use std::alloc::Global;

/// The cut of an input of any format: it is fed, then ended, and gives what it gives.
#[derive(Drop)]
pub struct Cutter<C: PacketCut> {
    cut: C,
    ended: bool,
    ghost ends: { ended ≡ C.is.has_ended cut },
    ghost near: { C.is.place cut ≤ 2 ^ 40 },
}

// Whether a packet ends far from the beginning.
fn is_far(packet: &Pkt) -> bool
    ensures { result ≡ false → packet.now.pos + length packet.now.bytes ≤ 2 ^ 39 }
{
    let size = packet.bytes.as_slice().len();
    size > 1 << 38 || packet.pos > 1 << 38
}

impl<C: PacketCut> Cutter<C> {
    /// The cut of an input with this head that is these bytes, and what it is to be fed.
    pub fn new<'a>(alloc: Global, head: &C::Head, bytes: &'a [u8]) -> Result<(Self, &'a [u8]), Stop>
        requires { C.is.IsHead head.now }
    {
        let start = C::start(head);
        if start > bytes.len() as u64 || start > 1 << 39 {
            return Err(Stop::Unreadable);
        }
        let cut = C::new(alloc, head);
        Ok((Cutter { cut, ended: false }, &bytes[start as usize..]))
    }
}

impl<C: PacketCut + Drop> Cutter<C> {
    /// Feeds these bytes, those after the head first. A row that feeds after the end can't be run.
    pub fn feed(self, bytes: &[u8]) -> Result<Self, Stop> {
        let Cutter { mut cut, ended } = self;
        if ended {
            return Err(Stop::Unreadable);
        }
        cut.reserve(bytes.len())?;
        cut.feed(bytes)?;
        Ok(Cutter { cut, ended })
    }

    /// Ends the input. A row that ends it twice can't be run.
    pub fn end(self) -> Result<Self, Stop> {
        let Cutter { mut cut, ended } = self;
        if ended {
            return Err(Stop::Unreadable);
        }
        cut.end();
        Ok(Cutter { cut, ended: true })
    }

    /// How many bytes are kept.
    pub fn held(&self) -> u64 {
        self.cut.held()
    }

    /// The next packet, or why there is none. One that ends far from the beginning can't be told.
    pub fn pull(self) -> Result<(Self, Cut), Stop> {
        let Cutter { mut cut, ended } = self;
        match cut.pull()? {
            Cut::Pkt(packet) => {
                if is_far(&packet) {
                    return Err(Stop::Unreadable);
                }
                Ok((Cutter { cut, ended }, Cut::Pkt(packet)))
            }
            Cut::NotYet => Ok((Cutter { cut, ended }, Cut::NotYet)),
            Cut::End => Ok((Cutter { cut, ended }, Cut::End)),
            Cut::Broken { offset } => Ok((Cutter { cut, ended }, Cut::Broken { offset })),
        }
    }
}
