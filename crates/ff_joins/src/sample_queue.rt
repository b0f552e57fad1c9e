//! A queue of samples, first in, first out.
ghost use Rattle.std.specs.Prelude.{◌≡◌, ◌≤◌, [], ◌++◌, length, drop, OnOk, OnErr};

use std::alloc::{AllocError, Global};
use std::marker::Model;

/// Samples that wait, first in, first out. What was used is let go when more comes and at least as much was used as
/// waits. So what is moved is together no longer than what came.
#[derive(Drop)]
pub struct SampleQueue {
    items: Vec<i32>,
    /// How many of them were used.
    used: usize,
}

impl Model for SampleQueue {
    ghost use Rattle.std.specs.Prelude.{◌≤◌, drop, length, List, ℤ};

    ghost Value = { List ℤ };

    ghost view = { λ q. drop q.used q.items.items };

    ghost invariant = { λ q. q.used ≤ length q.items.items };
}

// The samples from a place on.
fn from_on(samples: &[i32], place: usize) -> &[i32]
    requires { place ≤ length samples.now }
    ensures { result.now ≡ drop place samples.now }
{
    &samples[place..]
}

// Lets the first samples go, and moves the others to the front.
fn close_up(items: &mut Vec<i32>, used: usize)
    requires { used ≤ length items.old.items }
    ensures { items.new.items ≡ drop used items.old.items }
{
    let count = items.len() - used;
    items.copy_within(used..used + count, 0);
    items.truncate(count);
}

impl SampleQueue {
    /// No samples.
    pub fn new(alloc: Global) -> Self
        ensures { result ≡ [] }
    {
        SampleQueue {
            items: Vec::new(alloc),
            used: 0,
        }
    }

    /// The samples that wait.
    pub fn as_slice(&self) -> &[i32]
        ensures { result.now ≡ self.now }
    {
        from_on(&self.items, self.used)
    }

    /// Puts samples at the end.
    pub fn push(&mut self, samples: &[i32]) -> Result<(), AllocError>
        ensures ok { OnOk result (self.new ≡ self.old ++ samples.now) }
        ensures err { OnErr result (self.new ≡ self.old) }
    {
        if self.used > 0 && self.used >= self.items.len() - self.used {
            close_up(&mut self.items, self.used);
            self.used = 0;
        }
        self.items.extend_from_slice(samples)
    }

    /// Takes samples over in place of those that wait.
    pub fn replace(&mut self, samples: Vec<i32>)
        ensures { self.new ≡ samples.items }
    {
        self.items = samples;
        self.used = 0;
    }

    /// Lets the first samples go.
    pub fn skip(&mut self, count: usize)
        requires { count ≤ length self.old }
        ensures { self.new ≡ drop count self.old }
    {
        self.used += count;
    }
}
