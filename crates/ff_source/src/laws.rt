//! Laws of source filters: functions that do nothing, whose clauses hold of all values.
ghost use Rattle.std.specs.Prelude.{◌≡◌, ◌≤◌, ◌^◌, ◌∷◌, [], Ok, List, length, pos, replicate};
ghost use Rattle.ff_time.specs.Fraction.{IsBase};
ghost use Rattle.ff_frame.specs.Heads.{IsHead, base_of_head};
ghost use Rattle.ff_lang.specs.declared.graph.Arg.{Arg};
ghost use Rattle.ff_stream.specs.declared.item.Lane.TheVariants.{Frames};
ghost use Rattle.ff_stream.specs.Lanes.{AreInShape, IsValid};
ghost use Rattle.ff_stream.specs.Times.{IsInTime};
ghost use Rattle.ff_stream.specs.Within.{within, passes_limits};
ghost use Rattle.ff_source.specs.declared.color.Color.TheVariants.{Black, White};
ghost use Rattle.ff_source.specs.declared.made.Made.{Made};
ghost use Rattle.ff_lang.specs.declared.source.SourceName.{SourceName};
ghost use Rattle.ff_source.specs.Colors.{color_frames};
ghost use Rattle.ff_source.specs.Silences.{silence_frames};
ghost use Rattle.ff_source.specs.Sources.{IsSource, CanGive, head_of, frames_of, stream_of, end_in};
ghost use Rattle.ff_source.specs.laws.Examples.{shown_at, heard_at};

/// A source filter by its arguments has a head of 1 to 16,384 columns and rows, or of one or two channels. Its time base
/// is one, and it can give all its frames.
pub fn sources_by_their_arguments()
    ensures head { (name : SourceName) (args : List Arg) (made : Made) → IsSource name args (Ok made) → IsHead (head_of made) }
    ensures base { (name : SourceName) (args : List Arg) (made : Made) → IsSource name args (Ok made) → IsBase (base_of_head (head_of made)) }
    ensures can { (name : SourceName) (args : List Arg) (made : Made) → IsSource name args (Ok made) → CanGive made }
{}

/// The frames of a source filter are in shape for its head. They are its whole stream, and up to the limits of every
/// stream that is valid. It is valid as it is where it has at most 2^40 frames and ends within 1,000,000,000 seconds.
pub fn sources_give_valid_streams()
    ensures shape { (made : Made) → CanGive made → AreInShape (Frames (head_of made)) (frames_of made) }
    ensures limited { (made : Made) → CanGive made
        → IsValid (Frames (head_of made)) (within (passes_limits (Frames (head_of made))) (stream_of made)) }
    ensures valid { (made : Made) → CanGive made → length (frames_of made) ≤ 2 ^ 40 → IsInTime (base_of_head (head_of made)) (end_in made)
        → IsValid (Frames (head_of made)) (stream_of made) }
{}

/// Small sources, frame by frame.
pub fn small_sources()
    ensures black { color_frames Black 2 2 2
        ≡ shown_at 0 2 2 (16 ∷ 16 ∷ 16 ∷ 16 ∷ 128 ∷ 128 ∷ []) ∷ shown_at 1 2 2 (16 ∷ 16 ∷ 16 ∷ 16 ∷ 128 ∷ 128 ∷ []) ∷ [] }
    ensures white { color_frames White 3 1 1 ≡ shown_at 0 3 1 (235 ∷ 235 ∷ 235 ∷ 128 ∷ 128 ∷ 128 ∷ 128 ∷ []) ∷ [] }
    ensures sound { silence_frames 8000 2 2 ≡ heard_at 0 2 (pos 0 ∷ pos 0 ∷ pos 0 ∷ pos 0 ∷ []) ∷ [] }
    ensures rest { silence_frames 8000 1 1025 ≡ heard_at 0 1 (replicate 1024 (pos 0)) ∷ heard_at 1024 1 (pos 0 ∷ []) ∷ [] }
    ensures none { color_frames Black 2 2 0 ≡ [] }
{}
