//! Worked examples of cuts: a function that does nothing, whose clauses hold.
ghost use Rattle.std.specs.Prelude.{◌≡◌, ℕ, pos, length, take, None, Some, [], ◌∷◌};
ghost use Rattle.ff_time.specs.declared.cut.TimeCut.{TimeCut};
ghost use Rattle.ff_frame.specs.declared.audio.AFrame.{AFrame};
ghost use Rattle.ff_frame.specs.declared.head.Codec.{Codec};
ghost use Rattle.ff_frame.specs.declared.head.StreamHead.TheVariants.{Audio as AudioHead, Video as VideoHead};
ghost use Rattle.ff_frame.specs.declared.video.Format.{Format};
ghost use Rattle.ff_stream.specs.declared.item.Item.{Item};
ghost use Rattle.ff_stream.specs.declared.item.Item.TheVariants.{Audio};
ghost use Rattle.ff_stream.specs.Stream.{Mark, whole, whole_stream};
ghost use Rattle.ff_filter.specs.Joins.{Flow};
ghost use Rattle.ff_filter.specs.Shifts.{earlier, start_ticks};
ghost use Rattle.ff_trim.specs.Cuts.{cut};

/// A second of three at 8,000 samples a second is 8,000 samples, and the stream is whole there, however it goes on
/// (`second`). Five seconds into three there is nothing (`behind`). Of frames 25 a second one a second in lasts to
/// below the next, which isn't kept, and counts from 0 (`pictures`). A length of 0 gives the empty whole stream,
/// whatever comes (`empty`).
pub fn cuts_of_some_streams()
    ensures second { (c : TimeCut) (bits : ℕ) (codec : Codec) (f : AFrame) (m : Mark)
        → c.start ≡ 0 → c.length ≡ Some 1000000 → f.channels ≡ 1 → f.pts ≡ pos 0 → length f.samples ≡ 24000
        → cut (AudioHead (record { num = 1; den = 8000 }) 8000 bits 1 codec) c (record { items = Audio f ∷ []; mark = m })
        ≡ whole_stream (Audio (record f { samples = take 8000 f.samples }) ∷ []) }
    ensures behind { (c : TimeCut) (bits : ℕ) (codec : Codec) (f : AFrame) (m : Mark)
        → c.start ≡ 5000000 → c.length ≡ None → f.channels ≡ 1 → f.pts ≡ pos 0 → length f.samples ≡ 24000
        → cut (AudioHead (record { num = 1; den = 8000 }) 8000 bits 1 codec) c (record { items = Audio f ∷ []; mark = m })
        ≡ record { items = []; mark = m } }
    ensures pictures { (c : TimeCut) (format : Format) (width height : ℕ) (x y z : Item) (m : Mark)
        → c.start ≡ 1000000 → c.length ≡ Some 40000 → start_ticks x ≡ 24 → start_ticks y ≡ 25 → start_ticks z ≡ 26
        → cut (VideoHead (record { num = 1; den = 25 }) format width height 1 1) c (record { items = x ∷ y ∷ z ∷ []; mark = m })
        ≡ whole_stream (earlier 25 y ∷ []) }
    ensures empty { (c : TimeCut) (bits : ℕ) (codec : Codec) (s : Flow) → c.length ≡ Some 0
        → cut (AudioHead (record { num = 1; den = 8000 }) 8000 bits 1 codec) c s ≡ whole_stream [] }
{}
