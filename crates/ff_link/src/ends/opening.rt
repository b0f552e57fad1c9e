//! New links.
ghost use Rattle.std.specs.Prelude.{◌≡◌, ◌≤◌, IfOk, true};
ghost use Rattle.ff_link.specs.laws.Views.{new_sender, new_receiver};

use super::{Queues, Receiver, Sender};
use crate::side::{Claims, Down, Fixed, PutsHere, Up};
use ff_stream::Lane;
use std::alloc::{AllocError, Global};
use std::marker::Brand;
use std::sync::Arc;

fn link_as<F: Fixed>(
    alloc: Global,
    size: usize,
    lane: &Lane,
) -> Result<(Sender, Receiver), AllocError>
    requires size { (1 ≤ size) × (size ≤ 1024) }
    requires fixed { (lane.now ≡ F.way.lane) × (size ≡ F.room) }
    ensures one_link { IfOk result (λ ends. ends.0.link ≡ ends.1.link) }
    ensures claims { IfOk result (λ ends. ends.0.link.claims ≡ F.way.claims) }
    ensures sender { IfOk result (λ ends. ends.0 ≡ new_sender ends.0.link lane.now size) }
    ensures receiver { IfOk result (λ ends. ends.1 ≡ new_receiver ends.1.link lane.now size) }
{
    let (down, mut sends) = Down::ruled(alloc, size)?;
    let takes = down.another::<PutsHere<F>>(&mut sends);
    let (up, mut tells) = Up::ruled(alloc, 1)?;
    let hears = up.another::<PutsHere<F>>(&mut tells);
    let queues = Arc::new(alloc, Queues { down, up })?;
    let theirs = Arc::try_clone(&queues)?;
    let sender = Sender {
        queues,
        down: sends,
        up: hears,
        told: None,
        puts: 0,
        full_looks: 0,
        up_looks: 0,
    };
    let receiver = Receiver {
        queues: theirs,
        down: takes,
        up: tells,
        taken: 0,
        empty_looks: 0,
    };
    Ok((sender, receiver))
}

/// The two ends of a new link for this lane, which holds at most `size` items. Nothing was sent or taken.
pub fn link(alloc: Global, size: usize, lane: &Lane) -> Result<(Sender, Receiver), AllocError>
    requires { (1 ≤ size) × (size ≤ 1024) }
    ensures one_link { IfOk result (λ ends. ends.0.link ≡ ends.1.link) }
    ensures claims { IfOk result (λ ends. ends.0.link.claims ≡ true) }
    ensures sender { IfOk result (λ ends. ends.0 ≡ new_sender ends.0.link lane.now size) }
    ensures receiver { IfOk result (λ ends. ends.1 ≡ new_receiver ends.1.link lane.now size) }
{
    link_as::<Brand>(alloc, size, lane)
}

/// A new link as `link` makes it, with the claim that `C` makes of what is sent.
pub fn link_claiming<C: Claims>(
    alloc: Global,
    size: usize,
    lane: &Lane,
) -> Result<(Sender, Receiver), AllocError>
    requires { (1 ≤ size) × (size ≤ 1024) }
    ensures one_link { IfOk result (λ ends. ends.0.link ≡ ends.1.link) }
    ensures claims { IfOk result (λ ends. ends.0.link.claims ≡ C.claims) }
    ensures sender { IfOk result (λ ends. ends.0 ≡ new_sender ends.0.link lane.now size) }
    ensures receiver { IfOk result (λ ends. ends.1 ≡ new_receiver ends.1.link lane.now size) }
{
    link_as::<Brand>(alloc, size, lane)
}
