//! The ends of links at the wires of a node.
ghost use Rattle.std.specs.Prelude.{◌≡◌, ◌≢◌, ◌<◌, ◌⊎◌, ◌^◌, ℕ, length, slice_index_or, true, false, [], ◌∷◌, None, is_some};
ghost use Rattle.ff_net.specs.declared.wires.Wires.{Wires};
ghost use Rattle.ff_net.specs.Pasts.{Past};
ghost use Rattle.ff_net.specs.Ways.{lane_at};
ghost use Rattle.ff_net.specs.laws.Worlds.{Wire, Stand, IsEmpty, lanes_of};
ghost use Rattle.ff_net_threads.specs.laws.links.Ends.{InEndStands, OutEndStands, CanPour, OnWires, Draws, Pours, claims_of, taken_of, in_link, out_link, in_end_at};
ghost use Rattle.ff_net_threads.specs.declared.links.ends.OutEnd.{OutEnd};
ghost use Rattle.ff_net_threads.specs.laws.links.Turns.{Shuts, TakesOneAtMost, InMoves, InRests, FoundEmpty, CannotTake};
ghost use Rattle.ff_net_threads.specs.laws.links.Turns.{SendsOneAtMost, OutMoves, OutRests, FoundFull, CannotSend};

use ff_link::{Finished, Put, Receiver, Sender, Take};
use ff_net::{Put as Laid, Take as Lifted, Wires};
use ff_stream::{Item, discard};
use std::sync::Wait;

/// The end of a link that takes, at a wire of the node.
#[derive(Drop)]
pub struct InEnd {
    /// The number of the node's wire.
    pub wire: usize,
    /// The receiver, until it is finished.
    pub taking: Option<Receiver>,
    /// What the receiver left, once it is finished.
    pub finished: Option<Finished>,
    /// The item that was taken from the link and isn't on the wire yet.
    pub held: Option<Item>,
}

/// The end of a link that sends, at a wire of the node.
#[derive(Drop)]
pub struct OutEnd {
    /// The number of the node's wire.
    pub wire: usize,
    /// The sender.
    pub sender: Sender,
    /// The item that was taken from the wire and isn't on the link yet.
    pub held: Option<Item>,
    /// Whether nothing more goes on the link.
    pub done: bool,
}

impl InEnd {
    ghost use Rattle.std.specs.Prelude.{◌≡◌};
    ghost use Rattle.ff_net_threads.specs.laws.links.Ends.{new_in};

    /// The end of a link that takes, at the wire of this number.
    pub fn new(wire: usize, receiver: Receiver) -> InEnd
        ensures { result ≡ new_in wire receiver }
    {
        InEnd {
            wire,
            taking: Some(receiver),
            finished: None,
            held: None,
        }
    }
}

impl OutEnd {
    ghost use Rattle.std.specs.Prelude.{◌≡◌};
    ghost use Rattle.ff_net_threads.specs.laws.links.Ends.{new_out};

    /// The end of a link that sends, at the wire of this number.
    pub fn new(wire: usize, sender: Sender) -> OutEnd
        ensures { result ≡ new_out wire sender }
    {
        OutEnd {
            wire,
            sender,
            held: None,
            done: false,
        }
    }
}

// Takes nothing more from the link, and says whether it did before.
fn shut<R: Wait>(rt: &R, end: &mut InEnd) -> bool
    ensures wire { end.new.wire ≡ end.old.wire }
    ensures link { in_link end.new ≡ in_link end.old }
    ensures stands { (lane : _) (wire : Wire) → wire.finished ≡ true → InEndStands end.old lane wire → InEndStands end.new lane wire }
    ensures shut { end.new.taking ≡ None }
    ensures taken { taken_of end.new ≡ taken_of end.old }
    ensures held { end.new.held ≡ end.old.held }
    ensures moved { result ≡ true → is_some end.old.taking ≡ true }
    ensures still { result ≡ false → end.new ≡ end.old }
{
    match end.taking.take() {
        Some(receiver) => {
            end.finished = Some(receiver.finish(rt));
            true
        }
        None => false,
    }
}

// Takes nothing more from the link where the node has finished its wire, and says whether it did before.
fn shut_if<R: Wait>(rt: &R, wires: &Wires, end: &mut InEnd) -> bool
    requires { end.old.wire < length (lanes_of wires.now) }
    ensures wire { end.new.wire ≡ end.old.wire }
    ensures link { in_link end.new ≡ in_link end.old }
    ensures shuts { Shuts end.old end.new }
    ensures moved { result ≡ true → InMoves end.old end.new }
    ensures still { result ≡ false → end.new ≡ end.old }
    ensures shut { (world : ℕ → Wire) → Stand wires.now world → (world end.old.wire).finished ≡ true → end.new.taking ≡ None }
    ensures stands { (world : ℕ → Wire) (past : Past) → Stand wires.now world → InEndStands end.old (lane_at (lanes_of wires.now) end.old.wire) (world end.old.wire)
        → OnWires [] (end.old.wire ∷ []) wires.now world past (InEndStands end.new (lane_at (lanes_of wires.now) end.old.wire)) end.old.wire }
{
    if wires.is_finished(end.wire) {
        return shut(rt, end);
    }
    false
}

// Takes an item from the link to hold, and says whether there was one.
fn fetch<R: Wait>(rt: &R, end: &mut InEnd) -> bool
    ensures wire { end.new.wire ≡ end.old.wire }
    ensures link { in_link end.new ≡ in_link end.old }
    ensures stands { (lane : _) (wire : Wire) → wire.finished ≡ false → InEndStands end.old lane wire → InEndStands end.new lane wire }
    ensures takes { TakesOneAtMost end.old end.new }
    ensures moved { result ≡ true → taken_of end.new ≢ taken_of end.old }
    ensures still { result ≡ false → InRests end.old end.new }
    ensures none { result ≡ false → end.old.held ≡ None → (end.new.taking ≡ None) ⊎ FoundEmpty end.old end.new }
{
    if end.held.is_some() {
        return false;
    }
    let Some(mut receiver) = end.taking.take() else {
        return false;
    };
    let took = receiver.try_take(rt);
    end.taking = Some(receiver);
    match took {
        Take::Empty => false,
        Take::Item(item) => {
            end.held = Some(item);
            true
        }
    }
}

// Puts what is held on the wire, and says whether it was put.
fn lay(wires: &mut Wires, end: &mut InEnd) -> bool
    requires { end.old.wire < length (lanes_of wires.old) }
    ensures taking { end.new.taking ≡ end.old.taking }
    ensures finished { end.new.finished ≡ end.old.finished }
    ensures moved { result ≡ true → (is_some end.old.held ≡ true) × (end.new.held ≡ None) }
    ensures still { result ≡ false → (end.new.held ≡ end.old.held) × (wires.new ≡ wires.old) }
    ensures lays { IsEmpty wires.old end.old.wire → end.new.held ≡ None }
    ensures lanes { lanes_of wires.new ≡ lanes_of wires.old }
    ensures wire { end.new.wire ≡ end.old.wire }
    ensures link { in_link end.new ≡ in_link end.old }
    ensures stands { (world : ℕ → Wire) (past : Past) → Stand wires.old world → (world end.old.wire).finished ≡ false → InEndStands end.old (lane_at (lanes_of wires.old) end.old.wire) (world end.old.wire)
        → OnWires [] (end.old.wire ∷ []) wires.new world past (InEndStands end.new (lane_at (lanes_of wires.old) end.old.wire)) end.old.wire }
{
    match end.held.take() {
        None => false,
        Some(item) => match wires.try_put(end.wire, item) {
            Laid::Done => true,
            Laid::Full(item) => {
                end.held = Some(item);
                false
            }
            Laid::Finished(item) => {
                discard(item);
                true
            }
        },
    }
}

/// Draws an item from the link onto the wire, where nothing lies on it, and says whether something moved. Once the node
/// has finished the wire, nothing more is taken from the link.
pub fn draw<R: Wait>(rt: &R, wires: &mut Wires, end: &mut InEnd) -> bool
    requires { end.old.wire < length (lanes_of wires.old) }
    ensures takes { TakesOneAtMost end.old end.new }
    ensures moved { result ≡ true → InMoves end.old end.new }
    ensures still { result ≡ false → InRests end.old end.new × (wires.new ≡ wires.old) }
    ensures why { result ≡ false → CannotTake wires.old end.old end.new }
    ensures lanes { lanes_of wires.new ≡ lanes_of wires.old }
    ensures wire { end.new.wire ≡ end.old.wire }
    ensures link { in_link end.new ≡ in_link end.old }
    ensures stands { (world : ℕ → Wire) (past : Past) → Stand wires.old world → InEndStands end.old (lane_at (lanes_of wires.old) end.old.wire) (world end.old.wire)
        → OnWires [] (end.old.wire ∷ []) wires.new world past (InEndStands end.new (lane_at (lanes_of wires.old) end.old.wire)) end.old.wire }
{
    if wires.is_finished(end.wire) {
        return shut(rt, end);
    }
    if !wires.is_empty(end.wire) {
        return false;
    }
    let fetched = fetch(rt, end);
    let laid = lay(wires, end);
    fetched | laid
}

// Takes an item from the wire to hold, and says whether there was one.
fn lift(wires: &mut Wires, end: &mut OutEnd) -> bool
    requires there { end.old.wire < length (lanes_of wires.old) }
    requires goes_on { end.old.done ≡ false }
    ensures lanes { lanes_of wires.new ≡ lanes_of wires.old }
    ensures wire { end.new.wire ≡ end.old.wire }
    ensures link { out_link end.new ≡ out_link end.old }
    ensures goes_on { end.new.done ≡ false }
    ensures sender { end.new.sender ≡ end.old.sender }
    ensures moved { result ≡ true → (end.old.held ≡ None) × (is_some end.new.held ≡ true) }
    ensures still { result ≡ false → (end.new ≡ end.old) × (wires.new ≡ wires.old) }
    ensures empty { result ≡ false → end.old.held ≡ None → IsEmpty wires.old end.old.wire }
    ensures stands { (world : ℕ → Wire) (past : Past) → Stand wires.old world → OutEndStands end.old (lane_at (lanes_of wires.old) end.old.wire) (world end.old.wire)
        → OnWires (end.old.wire ∷ []) [] wires.new world past (OutEndStands end.new (lane_at (lanes_of wires.old) end.old.wire)) end.old.wire }
{
    if end.held.is_some() {
        return false;
    }
    match wires.try_take(end.wire) {
        Lifted::Empty => false,
        Lifted::Item(item) => {
            end.held = Some(item);
            true
        }
    }
}

// No stream that is valid for a lane has more, and a closing item comes on top. An end that claims nothing sends no more.
const MOST_ITEMS: u64 = 1 << 40;

// Puts what is held on the link, and says whether something moved.
fn send<R: Wait>(rt: &R, wires: &mut Wires, end: &mut OutEnd) -> bool
    requires there { end.old.wire < length (lanes_of wires.old) }
    requires goes_on { end.old.done ≡ false }
    requires stands { claims_of end.old ≡ true → CanPour wires.old end.old }
    ensures lanes { lanes_of wires.new ≡ lanes_of wires.old }
    ensures wire { end.new.wire ≡ end.old.wire }
    ensures link { out_link end.new ≡ out_link end.old }
    ensures sends { SendsOneAtMost end.old end.new }
    ensures moved { result ≡ true → (end.new.sender.sent ≢ end.old.sender.sent) ⊎ (end.new.done ≡ true) }
    ensures still { result ≡ false → OutRests end.old end.new × (wires.new ≡ wires.old) }
    ensures why { result ≡ false → (end.new.held ≡ None) ⊎ FoundFull end.old end.new ⊎ (2 ^ 40 < length end.new.sender.sent) }
    ensures stands { (world : ℕ → Wire) (past : Past) → Stand wires.old world → OutEndStands end.old (lane_at (lanes_of wires.old) end.old.wire) (world end.old.wire)
        → OnWires (end.old.wire ∷ []) [] wires.new world past (OutEndStands end.new (lane_at (lanes_of wires.old) end.old.wire)) end.old.wire }
{
    if end.sender.puts() > MOST_ITEMS {
        return false;
    }
    let Some(item) = end.held.take() else {
        return false;
    };
    let closes = item.closes();
    match end.sender.try_put(rt, item) {
        Put::Done => {
            end.done = closes;
            true
        }
        Put::Full(item) => {
            end.held = Some(item);
            false
        }
        Put::Finished(item, _) => {
            discard(item);
            wires.finish(end.wire);
            end.done = true;
            true
        }
    }
}

/// Puts the next item of the wire on the link, and says whether something moved. Where the receiver has finished, the
/// node is told so by its wire.
pub fn pour<R: Wait>(rt: &R, wires: &mut Wires, end: &mut OutEnd) -> bool
    requires there { end.old.wire < length (lanes_of wires.old) }
    requires stands { claims_of end.old ≡ true → CanPour wires.old end.old }
    ensures sends { SendsOneAtMost end.old end.new }
    ensures moved { result ≡ true → OutMoves end.old end.new }
    ensures still { result ≡ false → OutRests end.old end.new × (wires.new ≡ wires.old) }
    ensures why { result ≡ false → CannotSend wires.old end.old end.new }
    ensures lanes { lanes_of wires.new ≡ lanes_of wires.old }
    ensures wire { end.new.wire ≡ end.old.wire }
    ensures link { out_link end.new ≡ out_link end.old }
    ensures stands { (world : ℕ → Wire) (past : Past) → Stand wires.old world → OutEndStands end.old (lane_at (lanes_of wires.old) end.old.wire) (world end.old.wire)
        → OnWires (end.old.wire ∷ []) [] wires.new world past (OutEndStands end.new (lane_at (lanes_of wires.old) end.old.wire)) end.old.wire }
{
    if end.done {
        return false;
    }
    let lifted = lift(wires, end);
    let sent = send(rt, wires, end);
    lifted | sent
}

/// Draws at the end of this number.
pub fn draw_at<R: Wait>(rt: &R, wires: &mut Wires, ins: &mut Vec<InEnd>, p: usize) -> bool
    requires there { p < length ins.old.items }
    requires wire { (in_end_at ins.old.items p).wire < length (lanes_of wires.old) }
    ensures lanes { lanes_of wires.new ≡ lanes_of wires.old }
    ensures draws { Draws wires.old wires.new ins.old.items ins.new.items p }
    ensures takes { TakesOneAtMost (in_end_at ins.old.items p) (in_end_at ins.new.items p) }
    ensures moved { result ≡ true → InMoves (in_end_at ins.old.items p) (in_end_at ins.new.items p) }
    ensures still { result ≡ false → InRests (in_end_at ins.old.items p) (in_end_at ins.new.items p) × (wires.new ≡ wires.old) }
    ensures why { result ≡ false → CannotTake wires.old (in_end_at ins.old.items p) (in_end_at ins.new.items p) }
{
    draw(rt, wires, &mut ins[p])
}

/// Finishes the link of the end of this number where the node has finished its wire, and says whether it did.
pub fn shut_at<R: Wait>(rt: &R, wires: &Wires, ins: &mut Vec<InEnd>, p: usize) -> bool
    requires there { p < length ins.old.items }
    requires wire { (in_end_at ins.old.items p).wire < length (lanes_of wires.now) }
    ensures draws { Draws wires.now wires.now ins.old.items ins.new.items p }
    ensures shuts { Shuts (in_end_at ins.old.items p) (in_end_at ins.new.items p) }
    ensures moved { result ≡ true → InMoves (in_end_at ins.old.items p) (in_end_at ins.new.items p) }
    ensures still { result ≡ false → in_end_at ins.new.items p ≡ in_end_at ins.old.items p }
    ensures shut { (world : ℕ → Wire) → Stand wires.now world → (world (in_end_at ins.old.items p).wire).finished ≡ true → (in_end_at ins.new.items p).taking ≡ None }
{
    shut_if(rt, wires, &mut ins[p])
}

/// Pours at the end of this number.
pub fn pour_at<R: Wait>(rt: &R, wires: &mut Wires, outs: &mut Vec<OutEnd>, q: usize) -> bool
    requires there { q < length outs.old.items }
    requires wire { (d : OutEnd) → (slice_index_or outs.old.items q d).wire < length (lanes_of wires.old) }
    requires stands { (d : OutEnd) → claims_of (slice_index_or outs.old.items q d) ≡ true → CanPour wires.old (slice_index_or outs.old.items q d) }
    ensures lanes { lanes_of wires.new ≡ lanes_of wires.old }
    ensures pours { Pours wires.old wires.new outs.old.items outs.new.items q }
    ensures sends { (d : OutEnd) → SendsOneAtMost (slice_index_or outs.old.items q d) (slice_index_or outs.new.items q d) }
    ensures moved { result ≡ true → (d : OutEnd) → OutMoves (slice_index_or outs.old.items q d) (slice_index_or outs.new.items q d) }
    ensures still { result ≡ false → ((d : OutEnd) → OutRests (slice_index_or outs.old.items q d) (slice_index_or outs.new.items q d)) × (wires.new ≡ wires.old) }
    ensures why { result ≡ false → (d : OutEnd) → CannotSend wires.old (slice_index_or outs.old.items q d) (slice_index_or outs.new.items q d) }
{
    pour(rt, wires, &mut outs[q])
}
