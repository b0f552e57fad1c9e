//! The units of an AVI, read from its source.
ghost use Rattle.std.specs.Prelude.{◌≡◌, ◌+◌, ◌-◌, ◌≤◌, ◌<◌, ◌⊎◌, ◌^◌, ℕ, List, [], Some, None, Ok, true, false, length, OnOk, OnErr, IfOk, IfErr, IsErrOf, drop};
ghost use Rattle.std.specs.Io.KnownBytes.{Keeps};
ghost use Rattle.ff_frame.specs.declared.packet.Pkt.{Pkt};
ghost use Rattle.ff_host.specs.Causes.{HasCauseOf};
ghost use Rattle.ff_avi.specs.Sound.{IsHead};
ghost use Rattle.ff_avi.specs.laws.Cuts.{has_ended, room_in, Feeds, KeepsCut};
ghost use Rattle.ff_input.specs.laws.Reading.{piece_size};
ghost use Rattle.ff_node_avi.specs.Reading.{Lies, IsFed, IsNearer, Stays, Reaches, Closes};
ghost use Rattle.ff_node_avi.specs.laws.AviReading.{WasFed, Reads, FeedsOn, given_after};
ghost use Rattle.ff_node_avi.specs.declared.reader.ReadEnd.TheVariants.{Failed, NoMemory};

use ff_avi::{AviCut, AviHead};
use ff_frame::{Cut, Pkt};
use ff_host::Source;
use ff_input::PIECE;
use std::alloc::{AllocError, Global};

/// Why no further bytes of the input came.
#[derive(Clone, Copy, Debug, PartialEq, Eq)]
pub enum ReadEnd {
    /// The source failed.
    Failed,
    /// There was no memory for them.
    NoMemory,
}

impl From<AllocError> for ReadEnd {
    ghost from_gives = { λ _ e. e ≡ NoMemory };

    fn from(_: AllocError) -> Self {
        ReadEnd::NoMemory
    }
}

impl From<ff_host::Failed> for ReadEnd {
    ghost from_gives = { λ _ e. e ≡ Failed };

    fn from(_: ff_host::Failed) -> Self {
        ReadEnd::Failed
    }
}

/// What the file says next.
#[derive(Debug, Drop)]
pub enum Told {
    /// A packet of the stream of this number.
    Packet(u32, Pkt),
    /// The file has ended.
    End,
    /// The file breaks at this offset.
    Broken(u64),
}

/// Reads the packets of an AVI.
#[derive(Drop)]
pub struct AviReader<S> {
    /// The source.
    pub src: S,
    /// The cut.
    pub cut: AviCut,
    /// A piece of the input, as it is read.
    piece: Vec<u8>,
    /// How many bytes of the head are still to come.
    pub skip: u64,
    ghost some_piece: { 0 < length piece.items },
    ghost one_piece: { length piece.items ≤ piece_size },
    ghost fed: { ∥ IsFed cut ∥₁ },
}

fn piece_of(alloc: Global, size: usize) -> Result<Vec<u8>, AllocError>
    ensures { IfOk result (λ v. length v.items ≡ size) }
{
    vec![in alloc; 0u8; size]
}

// Feeds a piece of the input to the cut, but for the bytes of the head.
fn feed_piece(cut: &mut AviCut, skip: &mut u64, piece: &[u8])
    requires going { has_ended cut.old ≡ false }
    requires room { length piece.now ≤ room_in cut.old }
    ensures cuts { Feeds cut.old cut.new (drop skip.old piece.now) }
    ensures skip { skip.new ≡ skip.old - length piece.now }
    ensures ended { has_ended cut.new ≡ has_ended cut.old }
{
    let over = (*skip).min(piece.len() as u64);
    *skip -= over;
    match cut.feed(&piece[over as usize..]) {
        Ok(()) => {}
        Err(_) => unreachable!(),
    }
}

// Reads a piece of the input into the cut. Room is made first, so that no byte that was read is lost.
fn read_more<S: Source>(
    src: &mut S,
    cut: &mut AviCut,
    skip: &mut u64,
    piece: &mut [u8],
) -> Result<(), ReadEnd>
    requires going { has_ended cut.old ≡ false }
    requires some { 0 < length piece.old }
    requires few { length piece.old ≤ piece_size }
    requires fed { ∥ IsFed cut.old ∥₁ }
    ensures fed { ∥ IsFed cut.new ∥₁ }
    ensures feeds { OnOk result (FeedsOn piece_size (S.left src.old) cut.old skip.old (S.left src.new) cut.new skip.new) }
    ensures left { OnErr result (Keeps (S.left src.old) (S.left src.new)) }
    ensures skip { OnErr result (skip.new ≡ skip.old) }
    ensures cuts { OnErr result (KeepsCut cut.old cut.new) }
    ensures stays { Stays (S.left src.old) cut.old skip.old (S.left src.new) cut.new skip.new }
    ensures cause { HasCauseOf ReadEnd.Failed (S.faults src.old) (S.faults src.new) result }
    ensures ok_faults { OnOk result (S.faults src.new ≡ S.faults src.old) }
    ensures no_memory_faults { IsErrOf result ReadEnd.NoMemory → S.faults src.new ≡ S.faults src.old }
    ensures name { S.name src.new ≡ S.name src.old }
    ensures nearer { OnOk result (IsNearer cut.old skip.old cut.new skip.new) }
{
    cut.reserve(piece.len())?;
    let count = src.read(piece)?;
    if count == 0 {
        cut.end();
        return Ok(());
    }
    feed_piece(cut, skip, &piece[..count]);
    Ok(())
}

impl<S: Source + Drop> AviReader<S> {
    /// Over a source that gives the input from its first byte on, whose head this is. The source comes back where there
    /// was no memory.
    pub(crate) fn new(
        alloc: Global,
        src: S,
        head: &AviHead,
        used: &[u32],
    ) -> Result<AviReader<S>, S>
        requires head { IsHead head.now }
        requires used { 1 ≤ length used.now }
        ensures lies { IfOk result (λ r. (file : List ℕ) → S.left src ≡ Some file → Lies (S.left r.src) r.cut r.skip head.now used.now file 0) }
        ensures unread { IfOk result (λ r. WasFed r.cut r.skip head.now used.now [] 0) }
        ensures same { IfOk result (λ r. r.src ≡ src) }
        ensures refused { IfErr result (λ s. s ≡ src) }
    {
        let Ok(piece) = piece_of(alloc, PIECE) else {
            return Err(src);
        };
        Ok(AviReader {
            src,
            cut: AviCut::new(alloc, head, used),
            piece,
            skip: head.start,
        })
    }

    /// What the file says next. It reads only where what was read holds no further packet, and then a piece at a time.
    pub(crate) fn next(&mut self) -> Result<Told, ReadEnd>
        ensures packet { (stream : ℕ) (p : Pkt) → result ≡ Ok (Told.Packet stream p)
            → Reaches (S.left self.old.src) self.old.cut self.old.skip (S.left self.new.src) self.new.cut self.new.skip stream p }
        ensures place { (stream : ℕ) (p : Pkt) → result ≡ Ok (Told.Packet stream p) → p.pos + length p.bytes ≤ 2 ^ 41 }
        ensures end { result ≡ Ok Told.End → Closes (S.left self.old.src) self.old.cut self.old.skip None }
        ensures broken { (offset : ℕ) → result ≡ Ok (Told.Broken offset) → Closes (S.left self.old.src) self.old.cut self.old.skip (Some offset) }
        ensures reads { (given : ℕ) → Reads (S.left self.old.src) self.old.cut self.old.skip given false
            (S.left self.new.src) self.new.cut self.new.skip (given_after given result) false }
        ensures stays { OnErr result (Stays (S.left self.old.src) self.old.cut self.old.skip (S.left self.new.src) self.new.cut self.new.skip) }
        ensures cause { HasCauseOf ReadEnd.Failed (S.faults self.old.src) (S.faults self.new.src) result }
        ensures ok_faults { OnOk result (S.faults self.new.src ≡ S.faults self.old.src) }
        ensures no_memory_faults { IsErrOf result ReadEnd.NoMemory → S.faults self.new.src ≡ S.faults self.old.src }
        ensures name { S.name self.new.src ≡ S.name self.old.src }
    {
        'units: loop {
            let (stream, told) = self.cut.pull()?;
            match told {
                Cut::Pkt(packet) => return Ok(Told::Packet(stream, packet)),
                Cut::End => return Ok(Told::End),
                Cut::Broken { offset } => return Ok(Told::Broken(offset)),
                Cut::NotYet => read_more(
                    &mut self.src,
                    &mut self.cut,
                    &mut self.skip,
                    self.piece.as_mut_slice(),
                )?,
            }
        }
    }
}
