//! Laws of the filters' functions: functions that do nothing, whose clauses hold of all values.
ghost use Rattle.std.specs.Prelude.{◌≡◌, ◌*◌, ◌∷◌, ℕ, List, None, pos};
ghost use Rattle.ff_time.specs.Fraction.{Fraction, IsBase};
ghost use Rattle.ff_time.specs.Rescale.{IsRescaled};
ghost use Rattle.ff_frame.specs.declared.head.StreamHead.TheVariants.{Video as VideoHead};
ghost use Rattle.ff_frame.specs.declared.video.Format.{Format};
ghost use Rattle.ff_frame.specs.declared.video.VFrame.{VFrame};
ghost use Rattle.ff_frame.specs.Video.{IsSide};
ghost use Rattle.ff_stream.specs.declared.item.Lane.{Lane};
ghost use Rattle.ff_stream.specs.declared.item.Lane.TheVariants.{Frames};
ghost use Rattle.ff_stream.specs.laws.Breaks.{KeepsBrokenRule};
ghost use Rattle.ff_stream.specs.Lanes.{IsValid};
ghost use Rattle.ff_stream.specs.Ports.{stream_at};
ghost use Rattle.ff_filter.specs.Joins.{Flow};
ghost use Rattle.ff_filter.specs.Shifts.{shifted};
ghost use Rattle.ff_vfilter.specs.declared.scale.Scale.{Scale};
ghost use Rattle.ff_vfilter.specs.Rates.{even, known_below, nearest, pictures_of, shown_at};
ghost use Rattle.ff_vfilter.specs.laws.LastFrames.{last_by, last_number};
ghost use Rattle.ff_vfilter.specs.laws.RateSteps.{none_held, rated};
ghost use Rattle.ff_planes.specs.declared.rectangle.Rectangle.{Rectangle as Part};
ghost use Rattle.ff_planes.specs.Parts.{IsPart};
ghost use Rattle.ff_vfilter.specs.Pictures.{repainted};
ghost use Rattle.ff_vfilter.specs.HFlips.{hflip_frame};
ghost use Rattle.ff_vfilter.specs.VFlips.{vflip_frame};
ghost use Rattle.ff_vfilter.specs.Crops.{crop_frame};
ghost use Rattle.ff_vfilter.specs.Pads.{pad_frame};
ghost use Rattle.ff_filter.specs.declared.range.Range.{Range};
ghost use Rattle.ff_filter.specs.laws.Sound.{IsSound};
ghost use Rattle.ff_vfilter.specs.Trims.{trimmed, lasting_trimmed};

/// Of a valid stream the frames within a range are in shape for the same way, with a duration and without one; an
/// unbroken one doesn't break off.
pub fn pictures_kept_are_sound()
    ensures range { (lane : Lane) (range : Range) → IsSound lane lane (λ s. trimmed range s) }
    ensures lasting { (lane : Lane) (range : Range) (ticks : ℕ) → IsSound lane lane (λ s. lasting_trimmed range ticks s) }
{}

/// Of a valid video stream `hflip`, `vflip`, `crop` and `pad` make items in shape for their output. These are frames
/// of its format and size with all their samples, with the times of those that came. An unbroken one doesn't break
/// off.
pub fn pictures_painted_are_valid()
    ensures hflip { (tb : Fraction) (format : Format) (width height sar_num sar_den : ℕ)
        → IsSound (Frames (VideoHead tb format width height sar_num sar_den)) (Frames (VideoHead tb format width height sar_num sar_den))
        (λ s. repainted hflip_frame s) }
    ensures vflip { (tb : Fraction) (format : Format) (width height sar_num sar_den : ℕ)
        → IsSound (Frames (VideoHead tb format width height sar_num sar_den)) (Frames (VideoHead tb format width height sar_num sar_den))
        (λ s. repainted vflip_frame s) }
    ensures crop { (tb : Fraction) (format : Format) (width height sar_num sar_den : ℕ) (r : Part)
        → IsPart width height r → IsSide r.width → IsSide r.height
        → IsSound (Frames (VideoHead tb format width height sar_num sar_den)) (Frames (VideoHead tb format r.width r.height sar_num sar_den))
        (λ s. repainted (crop_frame r) s) }
    ensures pad { (tb : Fraction) (format : Format) (width height sar_num sar_den w h : ℕ) (r : Part)
        → r.width ≡ width → r.height ≡ height → IsSide w → IsSide h
        → IsSound (Frames (VideoHead tb format width height sar_num sar_den)) (Frames (VideoHead tb format w h sar_num sar_den))
        (λ s. repainted (pad_frame w h r) s) }
{}

/// The video filters keep the broken rule. A broken input counts as open without a further item. The output is broken
/// exactly where it is broken off.
pub fn pictures_keep_the_broken_rule()
    ensures same { (lane : Lane)
        → KeepsBrokenRule (λ (ss : List Flow). IsValid lane (stream_at ss 0)) (λ (ss : List Flow). stream_at ss 0) }
    ensures shifted { (lane : Lane)
        → KeepsBrokenRule (λ (ss : List Flow). IsValid lane (stream_at ss 0)) (λ (ss : List Flow). shifted None (stream_at ss 0)) }
    ensures trimmed { (lane : Lane) (range : Range)
        → KeepsBrokenRule (λ (ss : List Flow). IsValid lane (stream_at ss 0)) (λ (ss : List Flow). trimmed range (stream_at ss 0)) }
    ensures lasting { (lane : Lane) (range : Range) (ticks : ℕ)
        → KeepsBrokenRule (λ (ss : List Flow). IsValid lane (stream_at ss 0)) (λ (ss : List Flow). lasting_trimmed range ticks (stream_at ss 0)) }
    ensures painted { (lane : Lane) (paint : VFrame → VFrame)
        → KeepsBrokenRule (λ (ss : List Flow). IsValid lane (stream_at ss 0)) (λ (ss : List Flow). repainted paint (stream_at ss 0)) }
    ensures even { (lane : Lane) (scale : Scale)
        → KeepsBrokenRule (λ (ss : List Flow). IsValid lane (stream_at ss 0)) (λ (ss : List Flow). even scale (stream_at ss 0)) }
{}

/// At an even rate of a valid stream number n shows the last frame whose own number is at most n. Numbers go to below
/// the last frame's own, on a whole stream to below the one at its end. A number is the time rescaled to the nearest,
/// halves upwards. Of each stream, valid or not, the steps frame by frame give the same as the definition.
pub fn pictures_at_an_even_rate()
    ensures last { (scale : Scale) → IsBase scale.from → IsBase scale.to
        → (tb : Fraction) (format : Format) (width height sar_num sar_den : ℕ) (t : Flow) (f : VFrame) (gs : List VFrame)
        → IsValid (Frames (VideoHead tb format width height sar_num sar_den)) t → pictures_of t.items ≡ f ∷ gs
        → (n : ℕ) → shown_at scale n f gs ≡ last_by scale n f gs }
    ensures known { (scale : Scale) → IsBase scale.from → IsBase scale.to
        → (tb : Fraction) (format : Format) (width height sar_num sar_den : ℕ) (t : Flow) (f : VFrame) (gs : List VFrame)
        → IsValid (Frames (VideoHead tb format width height sar_num sar_den)) t → pictures_of t.items ≡ f ∷ gs
        → known_below scale f gs t.mark ≡ last_number scale f gs t.mark }
    ensures steps { (scale : Scale) (t : Flow) → rated scale none_held t ≡ even scale t }
    ensures rescaled { (from to : Fraction) → IsBase from → IsBase to → (t : ℕ)
        → IsRescaled (pos t) from to (pos (nearest (t * (from.num * to.den)) (from.den * to.num))) }
{}

/// Of a valid stream the frames at an even rate are in shape for the same head with another time base. An unbroken
/// one doesn't break off.
pub fn pictures_at_an_even_rate_are_sound()
    ensures { (scale : Scale) (tb base : Fraction) (format : Format) (width height sar_num sar_den : ℕ)
        → IsSound (Frames (VideoHead tb format width height sar_num sar_den)) (Frames (VideoHead base format width height sar_num sar_den))
        (λ s. even scale s) }
{}
