//! Lists of samples and bytes of which a contract sees the elements alone, and neither their room nor their place.
ghost use Rattle.std.specs.Prelude.{◌≡◌, ◌<◌, ◌≤◌, ◌+◌, IfOk, length, take, drop, slice_set};

use std::alloc::{AllocError, Global};
use std::marker::Model;

/// Samples in their order.
#[derive(Debug, Drop)]
pub struct Samples {
    items: Vec<i32>,
}

impl Model for Samples {
    ghost use Rattle.std.specs.Prelude.{List, ℤ};

    ghost Value = { List ℤ };

    ghost view = { λ s. s.items.items };
}

impl Samples {
    /// The samples of a `Vec`, which it takes over.
    pub fn new(items: Vec<i32>) -> Self
        ensures { result ≡ items.items }
    {
        Samples { items }
    }

    /// The `Vec`, given back.
    pub fn into_vec(self) -> Vec<i32>
        ensures { result.items ≡ self }
    {
        self.items
    }

    /// The samples in their order.
    pub fn as_slice(&self) -> &[i32]
        ensures { result.now ≡ self.now }
    {
        &self.items
    }

    /// Replaces the sample at an index.
    pub fn set(&mut self, index: usize, sample: i32)
        requires { index < length self.old }
        ensures { self.new ≡ slice_set self.old index sample }
    {
        self.items[index] = sample;
    }

    /// Keeps so many samples from an index on, and lets the others go.
    pub fn keep(&mut self, first: usize, count: usize)
        requires { first + count ≤ length self.old }
        ensures { self.new ≡ take count (drop first self.old) }
    {
        self.items.copy_within(first..first + count, 0);
        self.items.truncate(count);
    }

    /// An equal list.
    pub fn try_copy(&self, alloc: Global) -> Result<Self, AllocError>
        ensures { IfOk result (λ copy. copy ≡ self.now) }
    {
        Ok(Samples {
            items: self.items.to_vec(alloc)?,
        })
    }
}

/// Bytes in their order.
#[derive(Debug, Drop)]
pub struct Bytes {
    items: Vec<u8>,
}

impl Model for Bytes {
    ghost use Rattle.std.specs.Prelude.{List, ℕ};

    ghost Value = { List ℕ };

    ghost view = { λ s. s.items.items };
}

impl Bytes {
    /// The bytes of a `Vec`, which it takes over.
    pub fn new(items: Vec<u8>) -> Self
        ensures { result ≡ items.items }
    {
        Bytes { items }
    }

    /// The `Vec`, given back.
    pub fn into_vec(self) -> Vec<u8>
        ensures { result.items ≡ self }
    {
        self.items
    }

    /// The bytes in their order.
    pub fn as_slice(&self) -> &[u8]
        ensures { result.now ≡ self.now }
    {
        &self.items
    }

    /// An equal list.
    pub fn try_copy(&self, alloc: Global) -> Result<Self, AllocError>
        ensures { IfOk result (λ copy. copy ≡ self.now) }
    {
        Ok(Bytes {
            items: self.items.to_vec(alloc)?,
        })
    }
}
