//! Laws of the merge: functions that do nothing, whose clauses hold of all values.
ghost use Rattle.std.specs.Prelude.{◌≡◌, ◌<◌, ℕ};
ghost use mathlib.Core.List.{IsPrefix};
ghost use Rattle.ff_time.specs.Fraction.{Fraction};
ghost use Rattle.ff_frame.specs.declared.packet.Pkt.{Pkt as APkt};
ghost use Rattle.ff_stream.specs.Stream.{Stream, whole};
ghost use Rattle.ff_node_mux.specs.merge.Merges.{placed, merge_to, interleaved};
ghost use Rattle.ff_node_mux.specs.laws.merge.Orders.{InOrder, of_stream, AllBelow};

/// The packets of each stream stand in the merge, all of them, in their own order.
pub fn a_merge_has_each_stream()
    ensures { (base : ℕ → Fraction) (n q : ℕ) (ss : ℕ → Stream APkt) → q < n → of_stream q (merge_to base n ss) ≡ (ss q).items }
{}

/// Where each stream by itself is in order, so is the merge. No packet is sooner than the one before it, and of two
/// at one time that of the lower stream goes first.
pub fn a_merge_is_in_order()
    ensures { (base : ℕ → Fraction) (n : ℕ) (ss : ℕ → Stream APkt) → ((p : ℕ) → p < n → InOrder base (placed p (ss p).items)) → InOrder base (merge_to base n ss) }
{}

/// What is decided stays decided, however the streams go on.
pub fn what_is_decided_stays()
    ensures { (base : ℕ → Fraction) (n : ℕ) (rs ss : ℕ → Stream APkt) → AllBelow rs ss → IsPrefix (interleaved n base rs) (interleaved n base ss) }
{}

/// Where each stream is whole, the whole merge is decided.
pub fn whole_streams_are_merged_whole()
    ensures { (base : ℕ → Fraction) (n : ℕ) (ss : ℕ → Stream APkt) → ((p : ℕ) → p < n → (ss p).mark ≡ whole) → interleaved n base ss ≡ merge_to base n ss }
{}

/// The merge of one stream has its packets, in their own order, and all of them are decided.
pub fn one_stream_is_its_packets()
    ensures { (base : ℕ → Fraction) (ss : ℕ → Stream APkt) → interleaved 1 base ss ≡ placed 0 (ss 0).items }
{}
