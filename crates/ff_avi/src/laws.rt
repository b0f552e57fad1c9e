//! Laws of AVI: functions that do nothing, whose clauses hold of all values.
ghost use Rattle.std.specs.Prelude.{◌≡◌, [], ◌∷◌, ◌++◌, Ok, Err, codes, length, take, pos};
ghost use Rattle.ff_frame.specs.Packet.{packet_at};
ghost use Rattle.ff_reader.specs.declared.fault.HeadFault.TheVariants.{Damaged, Unsupported};
ghost use Rattle.ff_avi.specs.Heads.{head};
ghost use Rattle.ff_avi.specs.laws.Chosen.{UsedAreChosen};
ghost use Rattle.ff_avi.specs.laws.Shaped.{PacketsAreShaped};
ghost use Rattle.ff_avi.specs.Chains.{units};
ghost use Rattle.ff_avi.specs.Chains.Chain.{whole, broken, gives};
ghost use Rattle.ff_avi.specs.laws.Examples.{opening, picture, film, film_with_sound, some_sound};

/// A file of one picture has 174 bytes, and its head ends before the last 14. A rate of 0 is unsupported at its place, and so
/// is another compression. Fewer bytes than the head has are damaged at their number.
pub fn heads_of_some_files()
    ensures size { length (opening 25 (codes "I420") ++ picture) ≡ 174 }
    ensures head { head (opening 25 (codes "I420") ++ picture) ≡ Ok film }
    ensures rate { head (opening 0 (codes "I420") ++ picture) ≡ Err (Unsupported 68) }
    ensures compression { head (opening 25 (codes "H264") ++ picture) ≡ Err (Unsupported 124) }
    ensures short { head (take 159 (opening 25 (codes "I420"))) ≡ Err (Damaged 159) }
    ensures shorter { head (take 11 (opening 25 (codes "I420"))) ≡ Err (Unsupported 0) }
{}

/// What follows the head of that file is one packet, and a byte less breaks at its chunk. Sound before it is a packet of its
/// whole sample frames. Of a stream that isn't used no packet comes, but it breaks the chain where it is cut off.
pub fn chains_of_some_files()
    ensures whole { units film (0 ∷ []) picture ≡ gives 0 (packet_at (pos 0) (pos 1) 168 (codes "abcdef")) whole }
    ensures cut { units film (0 ∷ []) (take 13 picture) ≡ broken 160 }
    ensures both { units film_with_sound (0 ∷ 1 ∷ []) (some_sound ++ picture)
        ≡ gives 1 (packet_at (pos 0) (pos 2) 168 (codes "abcd")) (gives 0 (packet_at (pos 0) (pos 1) 182 (codes "abcdef")) whole) }
    ensures sound { units film_with_sound (1 ∷ []) (some_sound ++ picture) ≡ gives 1 (packet_at (pos 0) (pos 2) 168 (codes "abcd")) whole }
    ensures unused { units film_with_sound (1 ∷ []) (some_sound ++ take 13 picture) ≡ gives 1 (packet_at (pos 0) (pos 2) 168 (codes "abcd")) (broken 174) }
{}

/// The packets of some streams are those among the packets of all, and their chain ends where all end.
pub fn used_streams_are_chosen()
    ensures { UsedAreChosen }
{}

/// A packet is one picture of its stream's size, or 1 to 1,024 whole sample frames. Of each stream a packet begins at the end of
/// the one before it, or later.
pub fn packets_belong_to_their_streams()
    ensures { PacketsAreShaped }
{}
