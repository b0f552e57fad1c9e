//! Laws of stacks: functions that do nothing, whose clauses hold of all values.
ghost use Rattle.std.specs.Prelude.{◌≡◌, ℕ, true, All, Bool, None, List, [], ◌∷◌};
ghost use Rattle.ff_time.specs.Fraction.{Fraction, IsBase};
ghost use Rattle.ff_time.specs.Common.{IsUnits, units_of};
ghost use Rattle.ff_frame.specs.Heads.{base_of_head};
ghost use Rattle.ff_filter.specs.Options.{is_video};
ghost use Rattle.ff_frame.specs.declared.head.StreamHead.{StreamHead};
ghost use Rattle.ff_frame.specs.declared.head.StreamHead.TheVariants.{Video as VideoHead};
ghost use Rattle.ff_frame.specs.declared.video.Format.{Format};
ghost use Rattle.ff_stream.specs.declared.item.Lane.TheVariants.{Frames};
ghost use Rattle.ff_stream.specs.Lanes.{IsValid, AreInShape};
ghost use Rattle.ff_stream.specs.Ports.{IsUnbroken};
ghost use Rattle.ff_filter.specs.Joins.{Flow, Ports};
ghost use Rattle.ff_fsync.specs.Sides.{kept};
ghost use Rattle.ff_fsync.specs.declared.stacks.shape.Direction.{Direction};
ghost use Rattle.ff_fsync.specs.declared.stacks.shape.Direction.TheVariants.{Beside, Below};
ghost use Rattle.ff_fsync.specs.laws.stacks.Examples.{grey, grey_stack, two_streams, whole_of};
ghost use Rattle.ff_fsync.specs.stacks.Bases.{bases_of, told_in, IsExact};
ghost use Rattle.ff_fsync.specs.stacks.Heads.{stack_fault};
ghost use Rattle.ff_fsync.specs.stacks.Stacks.{StackOf, stacked_of, stack_on, AreStreamsOf};

/// A stream with one pixel for two ticks, and one with a pixel for each of them, are stacked. The result is a frame
/// of two pixels at each tick. The first is shown until the frame of the first input ends, though the second comes
/// before that.
pub fn stacks_of_two_pixels()
    ensures beside { stacked_of (grey_stack Beside 2 1) two_streams ≡ whole_of (grey 0 2 2 1 (10 ∷ 20 ∷ []) ∷ grey 1 1 2 1 (10 ∷ 30 ∷ []) ∷ []) }
    ensures below { stacked_of (grey_stack Below 1 2) two_streams ≡ whole_of (grey 0 2 1 2 (10 ∷ 20 ∷ []) ∷ grey 1 1 1 2 (10 ∷ 30 ∷ []) ∷ []) }
{}

/// Of a valid video stream a stack lets none go.
pub fn stacks_keep_valid_streams()
    ensures { (tb : Fraction) (format : Format) (width height sar_num sar_den : ℕ) (s : Flow)
        → IsValid (Frames (VideoHead tb format width height sar_num sar_den)) s → kept 0 s ≡ s }
{}

/// Of valid streams a stack gives frames of its head's format and size with all their samples, at rising times. None
/// ends before one that was shown before it. Where no stream breaks off, neither does the stack.
pub fn stacks_of_valid_streams()
    ensures shape { (d : Direction) (h : StreamHead) (hs : List StreamHead) (shortest : Bool) (ss : Ports)
        → All IsBase (bases_of (h ∷ hs)) → stack_fault d h (h ∷ hs) ≡ None → AreStreamsOf (h ∷ hs) ss
        → AreInShape (Frames (stack_on d h (h ∷ hs) shortest).head) (stacked_of (stack_on d h (h ∷ hs) shortest) ss).items }
    ensures unbroken { (m : StackOf) (ss : Ports) → ((p : ℕ) → IsUnbroken (ss p)) → IsUnbroken (stacked_of m ss) }
{}

/// Over equal bases the times of frames stay as they are.
pub fn equal_bases_keep_times()
    ensures { (s : Flow) → told_in 1 s ≡ s }
{}

/// In the units of a common base, each time of a valid stream is told exactly.
pub fn common_bases_keep_times()
    ensures { (h : StreamHead) (c : Fraction) (s : Flow) → is_video h ≡ true → IsBase (base_of_head h) → IsBase c
        → IsUnits (units_of (base_of_head h) c) (base_of_head h) c → IsValid (Frames h) s
        → All (IsExact (units_of (base_of_head h) c)) s.items }
{}
