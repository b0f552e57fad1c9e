//! The trait of a writer, which gives the bytes of an output in pieces.
ghost use Rattle.std.specs.Prelude.{◌≡◌, ◌+◌, ◌↔◌, ◌≤◌, ℕ, List, [], ◌∷◌, ◌++◌, Option, length, IsErr, IfOk, IfErr, IfSome, OnOk, OnErr};
ghost use Rattle.ff_frame.specs.declared.packet.Pkt.{Pkt as Packet};
ghost use Rattle.ff_frame.specs.declared.totals.Totals.{Totals};
ghost use Rattle.ff_format.specs.Layouts.{Layout, IsBeyond, body};
ghost use Rattle.ff_format.specs.laws.Patches.{replacing, IsInside};

use ff_frame::{Pkt, Totals};
use std::alloc::{AllocError, Global};

/// Bytes that take the place of as many of what was written.
#[derive(Drop)]
pub struct Patch {
    /// Where the first of them stands, from the beginning of the file.
    pub at: u64,
    /// The bytes.
    pub bytes: Vec<u8>,
}

/// The packets would be more bytes than the format holds.
#[derive(Clone, Copy, Debug, PartialEq, Eq)]
pub struct TooLarge;

/// Gives the bytes of an output in the pieces in which they are written.
///
/// It knows of the packets that were counted what its format asks for, as how many bytes they are; `counts` ties it to them.
pub trait Writer {
    /// How its format writes.
    ghost layout: { Self → Layout };

    /// These packets were counted, each with the number of its stream.
    ghost counts: { Self → List (ℕ × Packet) → Type 0 };

    /// What stands before the first packet.
    fn first(&self) -> Result<Vec<u8>, AllocError>
        ensures { IfOk result (λ text. text.items ≡ (layout self.now).header) };

    /// What is written of a packet of this stream. Without memory the packet comes back.
    fn text(&self, stream: u32, packet: Pkt) -> Result<Vec<u8>, Pkt>
        ensures ok { IfOk result (λ text. text.items ≡ (layout self.now).text stream packet) }
        ensures err { IfErr result (λ back. back ≡ packet) };

    /// Counts a packet of this stream. TooLarge where the packets would be more bytes than the format holds; then nothing was counted.
    fn add(&mut self, stream: u32, packet: &Pkt) -> Result<(), TooLarge>
        ensures layout { layout self.new ≡ layout self.old }
        ensures too_large { (ps : List (ℕ × Packet)) → counts self.old ps
            → IsErr result ↔ IsBeyond (layout self.old).longest (length (body (layout self.old) (ps ++ (stream, packet.now) ∷ []))) }
        ensures ok { OnOk result ((ps : List (ℕ × Packet)) → counts self.old ps → counts self.new (ps ++ (stream, packet.now) ∷ [])) }
        ensures err { OnErr result ((ps : List (ℕ × Packet)) → counts self.old ps → counts self.new ps) };

    /// What follows the packets that were counted, once every stream is whole.
    fn tail(&self, alloc: Global) -> Result<Vec<u8>, AllocError>
        ensures { IfOk result (λ text. (ps : List (ℕ × Packet)) → counts self.now ps → text.items ≡ (layout self.now).tail ps) };

    /// What then takes the place of as many bytes, by what an audio encoder told at the end.
    fn last(&self, totals: Option<Totals>) -> Result<Option<Patch>, AllocError>
        ensures { IfOk result (λ patch. (ps : List (ℕ × Packet)) → counts self.now ps
            → replacing patch ≡ (layout self.now).last (length (body (layout self.now) ps)) totals) };

    /// These bytes stand in the header.
    ghost inside: { (w : Self) (n : ℕ) (totals : Option Totals) → IsInside (layout w) n totals };
}
