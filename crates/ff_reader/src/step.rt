//! The effect of one unit on the reading of a head.
use crate::fault::HeadFault;

/// What a unit does to the reading of a head: a chunk, a block of metadata, a box.
#[derive(Drop)]
pub enum Step<H: Drop, S: Copy> {
    /// More bytes are wanted.
    Wait,
    /// The head, or the fault for which there is none.
    Decide(Result<H, HeadFault>),
    /// The unit is passed over, so many bytes after its first, and this is known from there on.
    Skip(u64, S),
}
