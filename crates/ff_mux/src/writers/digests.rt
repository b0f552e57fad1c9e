//! The writers of files that are one digest of all packets, or one of each stream.
ghost use Rattle.std.specs.Prelude.{◌≡◌, ℕ, List, [], ◌∷◌, ◌++◌, ◌<◌, ◌≤◌, ◌^◌, ◌↔◌, length, IfOk, OnOk, OnErr, IsErr};
ghost use Rattle.ff_frame.specs.declared.hash.HashKind.{HashKind as Kind};
ghost use Rattle.ff_frame.specs.declared.packet.Pkt.{Pkt as Packet};
ghost use Rattle.ff_mux.specs.laws.Hashers.{AllTaken, AreOfKind};
ghost use Rattle.ff_mux.specs.writers.DigestFiles.{joined_layout, streams_layout, sum_layout};

use crate::adler::{Sums, sums_after};
use crate::digest::Hasher;
use crate::digests::{joined_line, push_stream_line, sum_line};
use ff_format::{Patch, TooLarge, Writer};
use ff_frame::{HashKind, Pkt, StreamHead, Totals};
use std::alloc::{AllocError, Global};

/// Gives the line of a file that is one digest of the bytes of all packets, once every stream is whole.
#[derive(Drop)]
pub struct JoinedWriter {
    alloc: Global,
    hasher: Hasher,
}

impl JoinedWriter {
    ghost use Rattle.ff_mux.specs.laws.writers.Writers.{joined_kind, HasJoined};

    /// With this digest, of no packets.
    pub fn new(alloc: Global, kind: HashKind) -> JoinedWriter
        ensures kind { joined_kind result ≡ kind }
        ensures none { HasJoined result [] }
    {
        JoinedWriter {
            alloc,
            hasher: Hasher::new(kind),
        }
    }
}

impl Writer for JoinedWriter {
    ghost use Rattle.ff_mux.specs.laws.writers.Writers.{joined_kind, HasJoined};

    ghost layout = { λ w. joined_layout (joined_kind w) };

    ghost counts = { HasJoined };

    fn first(&self) -> Result<Vec<u8>, AllocError> {
        Ok(Vec::new(self.alloc))
    }

    fn text(&self, _stream: u32, _packet: Pkt) -> Result<Vec<u8>, Pkt> {
        Ok(Vec::new(self.alloc))
    }

    fn add(&mut self, _stream: u32, packet: &Pkt) -> Result<(), TooLarge> {
        self.hasher.update(packet.bytes.as_slice());
        Ok(())
    }

    fn tail(&self, alloc: Global) -> Result<Vec<u8>, AllocError> {
        joined_line(alloc, &self.hasher)
    }

    fn last(&self, _totals: Option<Totals>) -> Result<Option<Patch>, AllocError> {
        Ok(None)
    }

    ghost inside = { λ w n totals. tt };
}

/// Gives the line of a file that is one Adler-32 sum of the bytes of all packets, once every stream is whole.
#[derive(Drop)]
pub struct SumWriter {
    alloc: Global,
    sums: Sums,
    ghost small_bytes: { sums.bytes < 65521 },
    ghost small_sums: { sums.sums < 65521 },
}

impl SumWriter {
    ghost use Rattle.ff_mux.specs.laws.writers.Writers.{HasSummed};

    /// Of no packets.
    pub fn new(alloc: Global) -> SumWriter
        ensures { HasSummed result [] }
    {
        SumWriter {
            alloc,
            sums: Sums { bytes: 1, sums: 0 },
        }
    }
}

impl Writer for SumWriter {
    ghost use Rattle.ff_mux.specs.laws.writers.Writers.{HasSummed};

    ghost layout = { λ w. sum_layout };

    ghost counts = { HasSummed };

    fn first(&self) -> Result<Vec<u8>, AllocError> {
        Ok(Vec::new(self.alloc))
    }

    fn text(&self, _stream: u32, _packet: Pkt) -> Result<Vec<u8>, Pkt> {
        Ok(Vec::new(self.alloc))
    }

    fn add(&mut self, _stream: u32, packet: &Pkt) -> Result<(), TooLarge> {
        self.sums = sums_after(self.sums, packet.bytes.as_slice());
        Ok(())
    }

    fn tail(&self, alloc: Global) -> Result<Vec<u8>, AllocError> {
        sum_line(alloc, self.sums)
    }

    fn last(&self, _totals: Option<Totals>) -> Result<Option<Patch>, AllocError> {
        Ok(None)
    }

    ghost inside = { λ w n totals. tt };
}

// A digest of no bytes for each of so many streams.
fn hashers_of(alloc: Global, kind: HashKind, count: usize) -> Result<Vec<Hasher>, AllocError>
    ensures len { IfOk result (λ v. length v.items ≡ count) }
    ensures kinds { IfOk result (λ v. AreOfKind kind v.items) }
    ensures none { IfOk result (λ v. (i : ℕ) → AllTaken i v.items []) }
{
    let mut hashers = Vec::with_capacity(alloc, count)?;
    'streams: for i in 0..count {
        hashers.push(Hasher::new(kind))?;
    }
    Ok(hashers)
}

// Hands the bytes of a packet to the digest of its stream, where there is one.
fn take_in(hashers: &mut Vec<Hasher>, stream: u32, packet: &Pkt)
    ensures len { length hashers.new.items ≡ length hashers.old.items }
    ensures kinds { (kind : Kind) → AreOfKind kind hashers.old.items → AreOfKind kind hashers.new.items }
    ensures taken { (packets : List (ℕ × Packet)) → AllTaken 0 hashers.old.items packets
        → AllTaken 0 hashers.new.items (packets ++ (stream, packet.now) ∷ []) }
{
    let at = stream as usize;
    let count = hashers.len();
    if at >= count {
        return;
    }
    hashers[at].update(packet.bytes.as_slice());
}

/// Gives the lines of a file that is a digest of the bytes of each stream's packets, once every stream is whole.
#[derive(Drop)]
pub struct StreamsWriter {
    alloc: Global,
    kind: HashKind,
    heads: Vec<StreamHead>,
    /// That of each stream.
    hashers: Vec<Hasher>,
    ghost few: { length heads.items < 2 ^ 32 },
    ghost same: { length hashers.items ≡ length heads.items },
}

impl StreamsWriter {
    ghost use Rattle.ff_mux.specs.laws.writers.Writers.{streams_kind, streams_heads, HasStreams};

    /// For the packets of these streams, fewer than 2^32, with this digest; of no packets.
    pub fn new(
        alloc: Global,
        kind: HashKind,
        heads: Vec<StreamHead>,
    ) -> Result<StreamsWriter, AllocError>
        requires { length heads.items < 2 ^ 32 }
        ensures kind { IfOk result (λ w. streams_kind w ≡ kind) }
        ensures heads { IfOk result (λ w. streams_heads w ≡ heads.items) }
        ensures none { IfOk result (λ w. HasStreams w []) }
    {
        let hashers = hashers_of(alloc, kind, heads.len())?;
        Ok(StreamsWriter {
            alloc,
            kind,
            heads,
            hashers,
        })
    }
}

impl Writer for StreamsWriter {
    ghost use Rattle.ff_mux.specs.laws.writers.Writers.{streams_kind, streams_heads, HasStreams};

    ghost layout = { λ w. streams_layout (streams_kind w) (streams_heads w) };

    ghost counts = { HasStreams };

    fn first(&self) -> Result<Vec<u8>, AllocError> {
        Ok(Vec::new(self.alloc))
    }

    fn text(&self, _stream: u32, _packet: Pkt) -> Result<Vec<u8>, Pkt> {
        Ok(Vec::new(self.alloc))
    }

    fn add(&mut self, stream: u32, packet: &Pkt) -> Result<(), TooLarge> {
        take_in(&mut self.hashers, stream, packet);
        Ok(())
    }

    fn tail(&self, alloc: Global) -> Result<Vec<u8>, AllocError> {
        let mut text = Vec::new(alloc);
        'streams: for i in 0..self.heads.len() {
            push_stream_line(alloc, &mut text, i as u32, &self.heads[i], &self.hashers[i])?;
        }
        Ok(text)
    }

    fn last(&self, _totals: Option<Totals>) -> Result<Option<Patch>, AllocError> {
        Ok(None)
    }

    ghost inside = { λ w n totals. tt };
}
