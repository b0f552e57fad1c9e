//! The faults that end a run.

/// What of the inputs' bytes ends a run. Inputs, outputs and nodes have numbers from 0.
#[derive(Clone, Copy, Debug, PartialEq, Eq)]
pub enum RunFault {
    /// The packets of this input break off at this offset in bytes, or the one there stands for no frame.
    Damaged { input: u32, offset: u64 },
    /// The stream of this node has more items than a stream may have, or one that ends too late. Inputs below `before` are
    /// read by nodes before it, as far as they are used.
    TooLong { node: u32, before: u32 },
    /// This output passes the greatest size of its format.
    TooLarge { output: u32 },
}
