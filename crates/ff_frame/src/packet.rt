//! Packets.
ghost use Rattle.std.specs.Prelude.{◌≡◌, IfOk};

use crate::lists::Bytes;
use std::alloc::{AllocError, Global};

/// A coded packet of a stream.
#[derive(Debug, Drop)]
pub struct Pkt {
    /// When it is shown, in ticks of its stream's time base.
    pub pts: i64,
    /// When it is decoded, in the same ticks.
    pub dts: i64,
    /// How long it lasts, in the same ticks.
    pub duration: i64,
    /// The offset of its first byte in the input that it was read from; 0 where an encoder made it.
    pub pos: u64,
    /// Its bytes, as the codec of its stream writes them.
    pub bytes: Bytes,
}

impl Pkt {
    /// An equal packet.
    pub fn try_copy(&self, alloc: Global) -> Result<Pkt, AllocError>
        ensures { IfOk result (λ copy. copy ≡ self.now) }
    {
        let bytes = self.bytes.try_copy(alloc)?;
        Ok(Pkt {
            pts: self.pts,
            dts: self.dts,
            duration: self.duration,
            pos: self.pos,
            bytes,
        })
    }
}
