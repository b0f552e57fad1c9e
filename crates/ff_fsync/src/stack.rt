//! The trait of what is shown of the frames of all inputs at one time.
ghost use Rattle.std.specs.Prelude.{◌≡◌, ◌<◌, ◌^◌, ℕ, List, IfOk};
ghost use Rattle.ff_frame.specs.declared.video.VFrame.{VFrame};

use ff_frame::VFrame;
use std::alloc::AllocError;

/// What is shown of frames, one of each input.
pub trait Stack {
    /// What is shown of them at a time, in ticks.
    ghost shows: { Self → ℕ → List VFrame → VFrame };

    /// What is shown of these frames at a time.
    fn show(&self, time: u64, pictures: &[VFrame]) -> Result<VFrame, AllocError>
        requires near { time < 2 ^ 63 }
        ensures { IfOk result (λ f. f ≡ shows self.now time pictures.now) };
}
