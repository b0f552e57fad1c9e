//! Laws of decoding and encoding. Each is a function that does nothing: its clauses hold of all values.
ghost use Rattle.std.specs.Prelude.{◌≡◌, ◌<◌, ◌++◌, ◌∷◌, [], ℕ, List, Option, Some, None, map, IsSome};
ghost use Rattle.ff_time.specs.declared.cut.TimeCut.{TimeCut};
ghost use Rattle.ff_frame.specs.declared.packet.Pkt.{Pkt};
ghost use Rattle.ff_frame.specs.declared.head.StreamHead.{StreamHead};
ghost use Rattle.ff_stream.specs.declared.item.Item.{Item};
ghost use Rattle.ff_stream.specs.declared.item.Item.TheVariants.{Packet};
ghost use Rattle.ff_stream.specs.declared.item.Lane.TheVariants.{Frames, Packets};
ghost use Rattle.ff_stream.specs.laws.Breaks.{KeepsBrokenRule};
ghost use Rattle.ff_stream.specs.Lanes.{IsValid};
ghost use Rattle.ff_stream.specs.Ports.{stream_at};
ghost use Rattle.ff_stream.specs.Stream.{Mark, LiesBelow, broken};
ghost use Rattle.ff_stream.specs.Within.{within, passes_limits};
ghost use Rattle.ff_net.specs.Ways.{Flow};
ghost use Rattle.ff_trim.specs.Cuts.{cut};
ghost use Rattle.ff_node_codec.specs.codecs.Choices.{CanDecode, CanEncode, frame_made, packet_made};
ghost use Rattle.ff_node_codec.specs.codecs.Decoding.{pcm_frame, raw_frame, IsPictureHead};
ghost use Rattle.ff_node_codec.specs.Making.{damage_in, fault_by};
ghost use Rattle.ff_node_codec.specs.laws.CodingLaws.{IsUndamaged, packets_in};
ghost use Rattle.ff_node_codec.specs.Decoding.{decoded_item, decoded, dec_task};
ghost use Rattle.ff_node_codec.specs.Encoding.{encoded, enc_task};

/// Decoding gives the frames of the packets before the first that has none, and is broken there.
pub fn decoding_is_by_packets()
    ensures whole { (made : Pkt → Option Item) (packets : List Pkt) (frames : List Item) (mark : Mark) → map made packets ≡ map (λ x. Some x) frames
        → decoded made (record { items = packets_in packets; mark = mark }) ≡ record { items = frames; mark = mark } }
    ensures damaged { (made : Pkt → Option Item) (packets : List Pkt) (frames : List Item) (packet : Pkt) (more : List Item) (mark : Mark)
        → map made packets ≡ map (λ x. Some x) frames → made packet ≡ None
        → decoded made (record { items = packets_in packets ++ Packet packet ∷ more; mark = mark }) ≡ record { items = frames; mark = broken } }
{}

/// Where a packet has no frame, nothing more is made, however the packets go on.
pub fn decoding_ends_at_damage()
    ensures { (made : Pkt → Option Item) (packets later : Flow) (offset : ℕ) → damage_in (decoded_item made) packets.items ≡ Some offset
        → LiesBelow packets later → decoded made later ≡ decoded made packets }
{}

/// Every packet of linear PCM and of raw video has a frame: no stream of these is damaged.
pub fn plain_packets_are_undamaged()
    ensures pcm { (head : StreamHead) (items : List Item) → damage_in (decoded_item (pcm_frame head)) items ≡ None }
    ensures raw { (head : StreamHead) (items : List Item) → IsPictureHead head → damage_in (decoded_item (raw_frame head)) items ≡ None }
{}

/// What a decoder, where each packet has a frame, and an encoder mean keeps the broken rule, with a cut as well. A
/// broken input counts as open without a further item. The output is broken exactly where the input is and no cut was
/// over before.
pub fn coding_keeps_the_broken_rule()
    ensures decoding { (made : Pkt → Option Item) → KeepsBrokenRule (IsUndamaged (decoded_item made)) (λ ss. decoded made (stream_at ss 0)) }
    ensures cut_decoding { (head : StreamHead) (made : Pkt → Option Item) (c : TimeCut)
        → KeepsBrokenRule (IsUndamaged (decoded_item made)) (λ ss. cut head c (decoded made (stream_at ss 0))) }
    ensures encoding { (made : Item → Option Pkt) → KeepsBrokenRule (λ ss. Unit {0}) (λ ss. encoded made (stream_at ss 0)) }
{}

/// Each output of a decoder has the frames, cut, and the output of an encoder the packets.
pub fn coding_is_on_each_output()
    ensures decoding { (head : StreamHead) (made : Pkt → Option Item) (c : TimeCut) (outputs q : ℕ) (ss : List Flow) → q < outputs
        → stream_at ((dec_task head made c outputs).means ss) q ≡ cut head c (decoded made (stream_at ss 0)) }
    ensures encoding { (made : Item → Option Pkt) (ss : List Flow) → stream_at ((enc_task made).means ss) 0 ≡ encoded made (stream_at ss 0) }
{}

/// With no start and no length nothing is cut: each output has all frames, and the fault is the first packet that has none.
pub fn decoding_without_a_cut()
    ensures stream { (head : StreamHead) (made : Pkt → Option Item) (c : TimeCut) (outputs q : ℕ) (ss : List Flow) → c.start ≡ 0 → c.length ≡ None
        → q < outputs → stream_at ((dec_task head made c outputs).means ss) q ≡ decoded made (stream_at ss 0) }
    ensures fault { (head : StreamHead) (made : Pkt → Option Item) (c : TimeCut) (outputs : ℕ) (ss : List Flow) → c.start ≡ 0 → c.length ≡ None
        → (dec_task head made c outputs).cause ss ≡ fault_by (damage_in (decoded_item made) (stream_at ss 0).items) }
{}

/// Damage is a fault where what is left by the cut breaks off by it. Where that is whole, or goes on, it is none: the cut was over
/// before the damage, or nothing is damaged.
pub fn damage_behind_a_cut_is_no_fault()
    ensures broken_off { (head : StreamHead) (made : Pkt → Option Item) (c : TimeCut) (outputs : ℕ) (ss : List Flow)
        → (cut head c (decoded made (stream_at ss 0))).mark ≡ broken
        → (dec_task head made c outputs).cause ss ≡ fault_by (damage_in (decoded_item made) (stream_at ss 0).items) }
    ensures not_broken { (head : StreamHead) (made : Pkt → Option Item) (c : TimeCut) (outputs : ℕ) (ss : List Flow)
        → ((cut head c (decoded made (stream_at ss 0))).mark ≡ broken → ⊥) → (dec_task head made c outputs).cause ss ≡ None }
    ensures at_once { (head : StreamHead) (made : Pkt → Option Item) (c : TimeCut) (outputs : ℕ) (ss : List Flow) → c.length ≡ Some 0
        → (dec_task head made c outputs).cause ss ≡ None }
{}

/// The frames of valid packets are valid, whole or cut, and pass no limit: cutting them there changes nothing.
pub fn decoding_passes_no_limit()
    ensures valid { (head : StreamHead) (packets : Flow) → CanDecode head → IsValid (Packets head) packets
        → IsValid (Frames head) (decoded (frame_made head) packets) }
    ensures within_limits { (head : StreamHead) (packets : Flow) → CanDecode head → IsValid (Packets head) packets
        → within (passes_limits (Frames head)) (decoded (frame_made head) packets) ≡ decoded (frame_made head) packets }
    ensures cut_valid { (head : StreamHead) (c : TimeCut) (packets : Flow) → CanDecode head → IsValid (Packets head) packets
        → IsValid (Frames head) (cut head c (decoded (frame_made head) packets)) }
    ensures cut_within_limits { (head : StreamHead) (c : TimeCut) (packets : Flow) → CanDecode head → IsValid (Packets head) packets
        → within (passes_limits (Frames head)) (cut head c (decoded (frame_made head) packets)) ≡ cut head c (decoded (frame_made head) packets) }
{}

/// The packets of valid frames are valid, and pass no limit: cutting them there changes nothing.
pub fn encoding_passes_no_limit()
    ensures valid { (head coded : StreamHead) (frames : Flow) → CanEncode head coded → IsValid (Frames head) frames
        → IsValid (Packets coded) (encoded (packet_made coded) frames) }
    ensures within_limits { (head coded : StreamHead) (frames : Flow) → CanEncode head coded → IsValid (Frames head) frames
        → within (passes_limits (Packets coded)) (encoded (packet_made coded) frames) ≡ encoded (packet_made coded) frames }
{}
