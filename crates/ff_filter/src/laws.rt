//! A law of the functions that filters share: a function that does nothing, whose clauses hold of all values.
ghost use Rattle.std.specs.Prelude.{None};
ghost use Rattle.ff_frame.specs.declared.head.StreamHead.{StreamHead};
ghost use Rattle.ff_stream.specs.declared.item.Lane.{Lane};
ghost use Rattle.ff_stream.specs.declared.item.Lane.TheVariants.{Frames};
ghost use Rattle.ff_filter.specs.Shifts.{shifted};
ghost use Rattle.ff_filter.specs.laws.Sound.{IsSound};

/// A valid stream as it is is in shape for its own lane. So is one of frames with times from the start of its first
/// item on. An unbroken one doesn't break off.
pub fn shared_functions_are_sound()
    ensures same { (lane : Lane) → IsSound lane lane (λ s. s) }
    ensures shifted { (head : StreamHead) → IsSound (Frames head) (Frames head) (λ s. shifted None s) }
{}
