//! Things taken one by one, each after those that feed it.
ghost use Rattle.std.specs.Prelude.{◌≡◌, ◌<◌, ℕ, List, length, replicate, slice_set, IfOk, IfSome, IsNone, Ok, None, Some, is_some, not, true, false};
ghost use Rattle.ff_graph_links.specs.orders.Orders.{is_taken as taken_is, are_taken as are_all_taken, is_ready as ready_is, lists, IsOrder, IsLowestOrder, left};
ghost use Rattle.ff_graph_links.specs.orders.Orders.{first_ready, order_of, loops};

use std::alloc::{AllocError, Global};

// Whether a thing was taken; what isn't there wasn't.
fn is_taken(taken: &[bool], thing: usize) -> bool
    ensures { result ≡ taken_is taken.now thing }
{
    thing < taken.len() && taken[thing]
}

// Whether each of these was taken.
fn are_taken(taken: &[bool], feeders: &[usize]) -> bool
    ensures { result ≡ are_all_taken taken.now feeders.now }
{
    'each: for i in 0..feeders.len() {
        if !is_taken(taken, feeders[i]) {
            return false;
        }
    }
    true
}

// Whether a thing wasn't taken yet, and those that feed it were.
fn is_ready(feeders: &[Vec<usize>], taken: &[bool], thing: usize) -> bool
    requires there { thing < length taken.now }
    requires same { length feeders.now ≡ length taken.now }
    ensures { result ≡ ready_is (lists feeders.now) taken.now thing }
{
    !taken[thing] && are_taken(taken, &feeders[thing])
}

// The lowest that wasn't taken yet and whose feeders were. None where there is none.
fn next(feeders: &[Vec<usize>], taken: &[bool]) -> Option<usize>
    requires same { length feeders.now ≡ length taken.now }
    ensures there { IfSome result (λ thing. thing < length taken.now) }
    ensures ready { IfSome result (λ thing. ready_is (lists feeders.now) taken.now thing ≡ true) }
    ensures lowest { IfSome result (λ thing. (j : ℕ) → j < thing → ready_is (lists feeders.now) taken.now j ≡ false) }
    ensures none { IsNone result → (j : ℕ) → j < length taken.now → ready_is (lists feeders.now) taken.now j ≡ false }
{
    'each: for thing in 0..taken.len() {
        if is_ready(feeders, taken, thing) {
            return Some(thing);
        }
    }
    None
}

// So many things, none of which was taken.
fn none_taken(alloc: Global, count: usize) -> Result<Vec<bool>, AllocError>
    ensures { IfOk result (λ taken. taken.items ≡ replicate count false) }
{
    let mut taken = Vec::new(alloc);
    taken.resize(count, false)?;
    Ok(taken)
}

/// Things one by one, each after those that feed it, until none can be taken. `feeders` has these by the number of
/// the thing. Of those that can be taken next the lowest comes first. Where things feed one another in a loop, or one
/// is fed by what isn't there, these are too few.
pub(crate) fn in_order(alloc: Global, feeders: &[Vec<usize>]) -> Result<Vec<usize>, AllocError>
    ensures { IfOk result (λ things. things.items ≡ order_of (lists feeders.now)) }
{
    let mut taken = none_taken(alloc, feeders.len())?;
    let mut things = Vec::new(alloc);
    'taking: loop {
        match next(feeders, &taken) {
            None => return Ok(things),
            Some(thing) => {
                things.push(thing)?;
                taken[thing] = true;
            }
        }
    }
}

/// The order in which all things can be taken one by one, the lowest first. None where there is no order.
pub fn order(alloc: Global, feeders: &[Vec<usize>]) -> Result<Option<Vec<usize>>, AllocError>
    ensures lowest { IfOk result (λ o. IfSome o (λ things. IsLowestOrder (lists feeders.now) things.items)) }
    ensures looped { result ≡ Ok None → (things : List ℕ) → IsOrder (lists feeders.now) things → ⊥ }
    ensures those { IfOk result (λ o. IfSome o (λ things. things.items ≡ order_of (lists feeders.now))) }
    ensures found { IfOk result (λ o. is_some o ≡ not (loops (lists feeders.now))) }
{
    let things = in_order(alloc, feeders)?;
    if things.len() < feeders.len() {
        return Ok(None);
    }
    Ok(Some(things))
}
