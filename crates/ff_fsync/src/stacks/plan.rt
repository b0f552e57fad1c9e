//! The plan of a stack: what its arguments and heads make.
ghost use Rattle.std.specs.Prelude.{◌≡◌};
ghost use Rattle.ff_frame.specs.Video.{IsSide};
ghost use Rattle.ff_fsync.specs.stacks.Shapes.{shape_of};

use crate::stacks::shape::Shape;
use ff_frame::StreamHead;

/// What arguments and heads make a stack.
#[derive(Clone, Copy, Debug)]
pub struct Plan {
    /// How the frames are stacked.
    pub shape: Shape,
    /// The head of the stack.
    pub head: StreamHead,
    /// Whether the stack ends where the first input does.
    pub shortest: bool,
    pub ghost columns: { IsSide shape.width },
    pub ghost rows: { IsSide shape.height },
    pub ghost shaped: { shape ≡ shape_of shape.direction head },
}
