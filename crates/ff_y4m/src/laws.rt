//! Laws of YUV4MPEG2. Each is a function that does nothing: its clauses hold of all values.
ghost use Rattle.std.specs.Prelude.{◌≡◌, ℕ, List, None, All, length};
ghost use Rattle.ff_frame.specs.declared.packet.Pkt.{Pkt};
ghost use Rattle.ff_time.specs.Fraction.{Fraction};
ghost use Rattle.ff_y4m.specs.Header.{frames, planes_of};
ghost use Rattle.ff_y4m.specs.Layout.{PicturesAreFiles};
ghost use Rattle.ff_y4m.specs.Numbers.{IsBaseOf};
ghost use Rattle.ff_y4m.specs.Packets.{packets_from, broken_from};
ghost use Rattle.ff_y4m.specs.laws.Units.{IsDecided};
ghost use Rattle.ff_y4m.specs.laws.Written.{HeadersAreRead, FilesAreRead, FramesAreRead};

/// The frames that are written of packets, of planes of one size, are read again with those planes, and nothing is left.
pub fn written_frames_are_read_again()
    ensures { (packets : List Pkt) (size at n : ℕ) → All (λ (p : Pkt). length p.bytes ≡ size) packets
        → (planes_of (packets_from size 0 at n (frames packets)) ≡ planes_of packets) × (broken_from size 0 at (frames packets) ≡ None) }
{}

/// What is written is read again, the aspect of a sample as 0:0 where one of its numbers is 0. A header is read as
/// its stream, whatever follows. A whole file is read as that head and the planes of its frames.
pub fn what_is_written_is_read_again()
    ensures headers { HeadersAreRead }
    ensures files { FilesAreRead }
    ensures frames { FramesAreRead }
{}

/// What some bytes begin with is decided as soon as it can be. A frame is found exactly where a whole one begins,
/// none exactly where whatever follows makes none. More bytes are wanted exactly in between.
pub fn frames_are_decided()
    ensures { (size : ℕ) (bytes : List ℕ) → IsDecided size bytes }
{}

/// A rate's time base is what ff_time says of its two numbers. That is their fraction in lowest terms, and none
/// exactly where that is no time base.
pub fn rates_are_in_lowest_terms()
    ensures { (num den : ℕ) (f : Fraction) → IsBaseOf num den f }
{}

/// The finished file of video is its first line and the frames of the packets.
pub fn finished_pictures_are_yuv4mpeg2()
    ensures { PicturesAreFiles }
{}
