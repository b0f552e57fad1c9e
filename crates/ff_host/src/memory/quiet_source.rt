//! A source in memory that never fails.
ghost use Rattle.std.specs.Prelude.{◌≡◌, ◌+◌, ◌<◌, ◌≤◌, [], ◌++◌, length, take, drop, min, Some, false, IfOk, IsOk, string_bytes};
ghost use Rattle.ff_host.specs.Causes.{HasCause};

use crate::{Failed, Source, copy_front};
use std::marker::Model;

/// A source in memory that never fails.
#[derive(Drop)]
pub struct QuietSource {
    name: String,
    bytes: Vec<u8>,
    at: usize,
}

impl Model for QuietSource {
    ghost use Rattle.std.specs.Prelude.{◌≤◌, drop, length, string_bytes};
    ghost use Rattle.ff_host.specs.laws.memory.QuietEnds.{QuietReading};

    ghost Value = { QuietReading };

    ghost view = { λ s. record { name = string_bytes s.name; left = drop s.at s.bytes.items } };

    ghost invariant = { λ s. s.at ≤ length s.bytes.items };
}

impl QuietSource {
    /// A source of these bytes under this name.
    pub(crate) fn new(name: String, bytes: Vec<u8>) -> QuietSource
        ensures { result ≡ record { name = string_bytes name; left = bytes.items } }
    {
        QuietSource { name, bytes, at: 0 }
    }
}

impl Source for QuietSource {
    ghost left = { λ s. Some s.left };

    ghost faults = { λ _. 0 };

    ghost failed = { λ _. false };

    ghost name = { λ s. Some s.name };

    fn read(&mut self, buf: &mut [u8]) -> Result<usize, Failed>
        requires { 0 < length buf.old }
        ensures never { IsOk result }
        ensures count { IfOk result (λ n. n ≡ min (length buf.old) (length self.old.left)) }
        ensures given { IfOk result (λ n. buf.new ≡ take n self.old.left ++ drop n buf.old) }
        ensures after { IfOk result (λ n. self.new ≡ record self.old { left = drop n self.old.left }) }
    {
        let count = copy_front(buf, &self.bytes[self.at..]);
        self.at += count;
        Ok(count)
    }
}
