//! A source whose first bytes were read already.
ghost use Rattle.std.specs.Prelude.{◌≡◌, ◌≤◌, ◌+◌, ◌&&◌, ℕ, List, length, true, vec_capacity};
ghost use Rattle.std.specs.Io.KnownBytes.{prepend_known};
ghost use Rattle.ff_host.specs.laws.Begun.{still_in};

use crate::fill::copy_front;
use crate::source::{Failed, Source};

/// A source of which some bytes were read already: it gives these first, and then those of the source. With the last of these
/// bytes their memory is given back.
#[derive(Drop)]
pub struct Begun<S> {
    bytes: Vec<u8>,
    /// How many of these bytes were given.
    at: usize,
    src: S,
    /// Whether the source itself was read: all these bytes were given.
    passed: bool,
    ghost inside: { at ≤ length bytes.items },
    ghost all_given: { passed ≡ true → at ≡ length bytes.items },
    ghost let_go: { at ≡ length bytes.items → vec_capacity bytes ≡ 0 },
}

impl<S: Source> Begun<S> {
    /// Over a source from which these bytes were read. It takes no memory.
    pub fn new(bytes: Vec<u8>, src: S) -> Begun<S>
        ensures left { ⟦<Begun<S> as Source>⟧.left result ≡ prepend_known bytes.items (S.left src) }
        ensures faults { ⟦<Begun<S> as Source>⟧.faults result ≡ S.faults src }
        ensures name { ⟦<Begun<S> as Source>⟧.name result ≡ S.name src }
    {
        let mut bytes = bytes;
        if bytes.is_empty() {
            bytes.shrink_to_fit();
        }
        Begun {
            bytes,
            at: 0,
            src,
            passed: false,
        }
    }

    /// The source itself. The bytes that were not given yet are lost.
    pub fn into_inner(self) -> S
        ensures left { (rest : List ℕ) × (⟦<Begun<S> as Source>⟧.left self ≡ prepend_known rest (S.left result)) }
        ensures faults { S.faults result ≡ ⟦<Begun<S> as Source>⟧.faults self }
        ensures name { S.name result ≡ ⟦<Begun<S> as Source>⟧.name self }
    {
        self.src
    }

    // Passes over so many of these bytes, and with the last of them gives back their memory.
    fn pass(&mut self, count: usize)
        requires { self.old.at + count ≤ length self.old.bytes.items }
        ensures still_in { still_in self.new.bytes.items self.new.at ≡ still_in self.old.bytes.items (self.old.at + count) }
        ensures source { (self.new.src ≡ self.old.src) × (self.new.passed ≡ self.old.passed) }
    {
        if count < self.bytes.len() - self.at {
            self.at += count;
            return;
        }
        self.at = 0;
        self.bytes.clear();
        self.bytes.shrink_to_fit();
    }
}

impl<S: Source> Source for Begun<S> {
    ghost left = { λ b. prepend_known (still_in b.bytes.items b.at) (S.left b.src) };

    ghost faults = { λ b. S.faults b.src };

    ghost failed = { λ b. b.passed && S.failed b.src };

    ghost name = { λ b. S.name b.src };

    fn read(&mut self, buf: &mut [u8]) -> Result<usize, Failed> {
        if self.at == self.bytes.len() {
            self.passed = true;
            return self.src.read(buf);
        }
        let count = copy_front(buf, &self.bytes[self.at..]);
        self.pass(count);
        Ok(count)
    }
}
