//! The faults of machines and nodes.

/// What went wrong in a machine or its node.
#[derive(Clone, Copy, Debug, PartialEq, Eq)]
pub enum Fault {
    /// The machine's own source or sink failed.
    Device,
    /// The input is damaged at this offset.
    Damaged { offset: u64 },
    /// An output passes a limit of length or time.
    TooLong,
    /// A file passes the greatest size of its format.
    TooLarge,
    /// Memory was refused.
    NoMemory,
}
