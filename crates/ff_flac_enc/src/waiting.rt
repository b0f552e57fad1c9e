//! A queue of samples, first in, first out.
ghost use Rattle.std.specs.Prelude.{◌≡◌, ◌≤◌, [], ◌++◌, length, take, drop, IfOk, OnOk, OnErr};

use std::alloc::{AllocError, Global};
use std::marker::Model;

/// Samples that wait, first in, first out. What was used is let go when more comes and at least as much was used as
/// waits. So what is copied to a new place is together no longer than what came.
#[derive(Drop)]
pub struct Waiting {
    alloc: Global,
    buf: Vec<i32>,
    /// How many of them were used.
    taken: usize,
}

impl Model for Waiting {
    ghost use Rattle.std.specs.Prelude.{◌≤◌, drop, length, List, ℤ};

    ghost Value = { List ℤ };

    ghost view = { λ w. drop w.taken w.buf.items };

    ghost invariant = { λ w. w.taken ≤ length w.buf.items };
}

fn from_on(samples: &[i32], place: usize) -> &[i32]
    requires { place ≤ length samples.now }
    ensures { result.now ≡ drop place samples.now }
{
    &samples[place..]
}

fn up_to(samples: &[i32], place: usize) -> &[i32]
    requires { place ≤ length samples.now }
    ensures { result.now ≡ take place samples.now }
{
    &samples[..place]
}

// Both, one after the other, in a new place.
fn joined(alloc: Global, front: &[i32], back: &[i32]) -> Result<Vec<i32>, AllocError>
    ensures { IfOk result (λ v. v.items ≡ front.now ++ back.now) }
{
    let mut fresh = Vec::new(alloc);
    fresh.reserve(front.len().saturating_add(back.len()))?;
    fresh.extend_from_slice(front)?;
    fresh.extend_from_slice(back)?;
    Ok(fresh)
}

impl Waiting {
    /// No samples.
    pub fn new(alloc: Global) -> Waiting
        ensures { result ≡ [] }
    {
        Waiting {
            alloc,
            buf: Vec::new(alloc),
            taken: 0,
        }
    }

    /// How many samples wait.
    pub fn len(&self) -> usize
        ensures { result ≡ length self.now }
    {
        from_on(&self.buf, self.taken).len()
    }

    /// The first so many samples.
    pub fn front(&self, count: usize) -> &[i32]
        requires { count ≤ length self.now }
        ensures { result.now ≡ take count self.now }
    {
        up_to(from_on(&self.buf, self.taken), count)
    }

    /// Puts samples at the end.
    pub fn push(&mut self, samples: &[i32]) -> Result<(), AllocError>
        ensures ok { OnOk result (self.new ≡ self.old ++ samples.now) }
        ensures err { OnErr result (self.new ≡ self.old) }
    {
        let rest = from_on(&self.buf, self.taken);
        if self.taken > 0 && self.taken >= rest.len() {
            let fresh = joined(self.alloc, rest, samples)?;
            self.buf = fresh;
            self.taken = 0;
            return Ok(());
        }
        self.buf.extend_from_slice(samples)
    }

    /// Lets go of the first samples.
    pub fn skip(&mut self, count: usize)
        requires { count ≤ length self.old }
        ensures { self.new ≡ drop count self.old }
    {
        self.taken += count;
    }
}
