//! A byte queue, first in, first out.
ghost use Rattle.std.specs.Prelude.{◌≡◌, ◌≢◌, ◌↔◌, ◌+◌, ◌-◌, ◌≤◌, ◌<◌, ◌^◌, [], ◌++◌};
ghost use Rattle.std.specs.Prelude.{IfOk, OnOk, OnErr, IsOk, ℕ, true, false, length, take, drop, vec_len, vec_capacity, slice_get};
ghost use Rattle.ff_frame.specs.declared.packet.Pkt.{Pkt};

use ff_frame::Cut;
use std::alloc::{AllocError, Global};
use std::marker::Model;
use std::mem::replace;

/// Bytes that wait to be used, first in, first out. What was used is let go at the next growth, and only where at
/// least as much was used as waits. That costs one copy of what waits. So the copies are together no longer than the
/// bytes that came.
#[derive(Drop)]
pub struct Held {
    alloc: Global,
    /// All bytes since the last growth.
    buf: Vec<u8>,
    /// How many of them were used.
    taken: usize,
}

impl Model for Held {
    ghost use Rattle.std.specs.Prelude.{◌≤◌, ◌-◌, drop, length, vec_capacity, vec_len};
    ghost use Rattle.ff_reader.specs.Kept.{Kept};

    ghost Value = { Kept };

    ghost view = { λ h. record { bytes = drop h.taken h.buf.items; room = vec_capacity h.buf - vec_len h.buf } };

    ghost invariant = { λ h. h.taken ≤ length h.buf.items };
}

impl Held {
    /// No bytes.
    pub fn new(alloc: Global) -> Self
        ensures { result.bytes ≡ [] }
    {
        Held {
            alloc,
            buf: Vec::new(alloc),
            taken: 0,
        }
    }

    /// How many bytes wait.
    pub fn len(&self) -> usize
        ensures { result ≡ length self.now.bytes }
    {
        self.as_slice().len()
    }

    /// What comes where no whole unit waits: more bytes are wanted, or all came, or the last unit isn't whole, at this
    /// offset.
    pub fn unfinished(&self, ended: bool, offset: u64) -> Cut
        ensures not_yet { result ≡ Cut.NotYet ↔ ended ≡ false }
        ensures over { result ≡ Cut.End ↔ ((ended ≡ true) × (self.now.bytes ≡ [])) }
        ensures broken { (place : ℕ) → result ≡ Cut.Broken place ↔ ((ended ≡ true) × (self.now.bytes ≢ []) × (place ≡ offset)) }
        ensures none { (p : Pkt) → result ≢ Cut.Pkt p }
    {
        if !ended {
            return Cut::NotYet;
        }
        if self.len() == 0 {
            return Cut::End;
        }
        Cut::Broken { offset }
    }

    /// The bytes that wait.
    pub fn as_slice(&self) -> &[u8]
        ensures { result.now ≡ self.now.bytes }
    {
        from_on(&self.buf, self.taken)
    }

    /// Makes room for so many bytes more.
    pub fn reserve(&mut self, count: usize) -> Result<(), AllocError>
        ensures bytes { self.new.bytes ≡ self.old.bytes }
        ensures room { OnOk result (count ≤ self.new.room) }
        ensures err { OnErr result (self.new ≡ self.old) }
    {
        let rest = from_on(&self.buf, self.taken);
        if self.taken >= rest.len() && self.taken > 0 {
            let fresh = moved(self.alloc, rest, count)?;
            self.buf = fresh;
            self.taken = 0;
            return Ok(());
        }
        self.buf.reserve(count)
    }

    /// Puts bytes at the end. Within the room it takes no memory.
    pub fn push(&mut self, bytes: &[u8]) -> Result<(), AllocError>
        ensures ok { OnOk result (self.new.bytes ≡ self.old.bytes ++ bytes.now) }
        ensures err { OnErr result (self.new ≡ self.old) }
        ensures succeeds { length bytes.now ≤ self.old.room → IsOk result }
    {
        self.buf.reserve(bytes.len())?;
        self.buf.extend_from_slice(bytes)
    }

    /// Lets go of the first bytes.
    pub fn skip(&mut self, count: usize)
        requires { count ≤ length self.old.bytes }
        ensures bytes { self.new.bytes ≡ drop count self.old.bytes }
        ensures room { self.new.room ≡ self.old.room }
    {
        self.taken += count;
    }

    /// Takes so many bytes out, those after the first ones, which are let go. Where they are most of what is kept they stay in
    /// its memory, and the few after them get new; else they are copied.
    pub fn take_out(&mut self, skip: usize, count: usize) -> Result<Vec<u8>, AllocError>
        requires { skip + count ≤ length self.old.bytes }
        ensures ok { IfOk result (λ v. v.items ≡ take count (drop skip self.old.bytes)) }
        ensures rest { OnOk result (self.new.bytes ≡ drop (skip + count) self.old.bytes) }
        ensures err { OnErr result (self.new ≡ self.old) }
    {
        let first = self.taken + skip;
        let rest = from_on(&self.buf, first + count);
        if first + rest.len() > count / 4 {
            let copy = from_on(&self.buf, first)[..count].to_vec(self.alloc)?;
            self.taken = first + count;
            return Ok(copy);
        }
        let fresh = rest.to_vec(self.alloc)?;
        let whole = replace(&mut self.buf, fresh);
        self.taken = 0;
        Ok(middle_of(whole, first, count))
    }
}

// So many bytes from a place on, moved to the start of their memory.
fn middle_of(mut bytes: Vec<u8>, first: usize, count: usize) -> Vec<u8>
    requires { first + count ≤ length bytes.items }
    ensures { result.items ≡ take count (drop first bytes.items) }
{
    bytes.truncate(first + count);
    bytes.rotate_left(first);
    bytes.truncate(count);
    bytes
}

fn from_on(bytes: &[u8], place: usize) -> &[u8]
    requires { place ≤ length bytes.now }
    ensures { result.now ≡ drop place bytes.now }
{
    &bytes[place..]
}

// The bytes in a new place, with room for so many more.
fn moved(alloc: Global, bytes: &[u8], count: usize) -> Result<Vec<u8>, AllocError>
    ensures items { IfOk result (λ v. v.items ≡ bytes.now) }
    ensures room { IfOk result (λ v. count ≤ vec_capacity v - vec_len v) }
{
    let mut fresh = Vec::new(alloc);
    fresh.extend_from_slice(bytes)?;
    fresh.reserve(count)?;
    Ok(fresh)
}
