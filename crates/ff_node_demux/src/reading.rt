//! Pieces of the input, read into the cut.
ghost use Rattle.std.specs.Prelude.{◌≡◌, ◌+◌, ◌-◌, ◌≤◌, ◌<◌, ◌⊎◌, ℕ, Option, true, false, length, drop, OnOk, OnErr, IsErrOf};
ghost use Rattle.std.specs.Io.KnownBytes.{Keeps};
ghost use Rattle.ff_host.specs.Causes.{HasCauseOf};
ghost use Rattle.ff_net.specs.declared.fault.Fault.{Fault};
ghost use Rattle.ff_net.specs.Pasts.{Past};
ghost use Rattle.ff_reader.specs.Cutters.{Feeds, KeepsCut, SameElsewhere};
ghost use Rattle.ff_node_demux.specs.Demuxing.{DemuxStands};
ghost use Rattle.ff_node_demux.specs.laws.Reading.{FeedsOn};
ghost use Rattle.ff_node_demux.specs.declared.reading.ReadEnd.TheVariants.{Failed, NoMemory};

use ff_host::Source;
use ff_reader::PacketCut;
use std::alloc::AllocError;

/// Why no further bytes of the input came.
#[derive(Clone, Copy, Debug, PartialEq, Eq)]
pub enum ReadEnd {
    /// The source failed.
    Failed,
    /// There was no memory for them.
    NoMemory,
}

impl From<AllocError> for ReadEnd {
    ghost from_gives = { λ _ e. e ≡ NoMemory };

    fn from(_: AllocError) -> Self {
        ReadEnd::NoMemory
    }
}

impl From<ff_host::Failed> for ReadEnd {
    ghost from_gives = { λ _ e. e ≡ Failed };

    fn from(_: ff_host::Failed) -> Self {
        ReadEnd::Failed
    }
}

// Feeds a piece of the input to the cut, but for the bytes of the head.
fn feed_piece<C: PacketCut>(cut: &mut C, skip: &mut u64, piece: &[u8])
    requires going { C.is.has_ended cut.old ≡ false }
    requires room { length piece.now ≤ C.is.room cut.old }
    ensures cuts { Feeds C.is cut.old cut.new (drop skip.old piece.now) }
    ensures skip { skip.new ≡ skip.old - length piece.now }
    ensures kept { SameElsewhere C.is cut.old cut.new }
    ensures held { length (C.is.waiting cut.new) + skip.old ≡ length (C.is.waiting cut.old) + length piece.now + skip.new }
{
    let over = (*skip).min(piece.len() as u64);
    *skip -= over;
    match cut.feed(&piece[over as usize..]) {
        Ok(()) => {}
        Err(_) => unreachable!(),
    }
}

/// Reads a piece of the input into the cut, of at most so many bytes. Room is made first, so that no byte that was read is lost.
pub(crate) fn read_more<S: Source, C: PacketCut>(
    src: &mut S,
    cut: &mut C,
    skip: &mut u64,
    piece: &mut [u8],
    wanted: usize,
) -> Result<(), ReadEnd>
    requires going { C.is.has_ended cut.old ≡ false }
    requires some { 0 < length piece.old }
    requires wanted { 0 < wanted }
    ensures read { OnOk result ((given : ℕ) (ticket : _) (fault : Option Fault) (past : Past)
        → DemuxStands C.is (S.left src.old) cut.old skip.old given ticket false fault past
        → DemuxStands C.is (S.left src.new) cut.new skip.new given ticket false fault past) }
    ensures fed { OnOk result (FeedsOn C.is wanted (S.left src.old) cut.old skip.old (S.left src.new) cut.new skip.new) }
    ensures left { OnErr result (Keeps (S.left src.old) (S.left src.new)) }
    ensures skip { OnErr result (skip.new ≡ skip.old) }
    ensures ended { OnErr result (C.is.has_ended cut.new ≡ C.is.has_ended cut.old) }
    ensures cuts { OnErr result (KeepsCut C.is cut.old cut.new) }
    ensures cause { HasCauseOf ReadEnd.Failed (S.faults src.old) (S.faults src.new) result }
    ensures ok_faults { OnOk result (S.faults src.new ≡ S.faults src.old) }
    ensures no_memory_faults { IsErrOf result ReadEnd.NoMemory → S.faults src.new ≡ S.faults src.old }
    ensures name { S.name src.new ≡ S.name src.old }
    ensures head { C.is.head_of cut.new ≡ C.is.head_of cut.old }
    ensures place { C.is.place cut.new ≡ C.is.place cut.old }
    ensures nearer { OnOk result (((C.is.has_ended cut.new ≡ true) × (skip.new ≡ skip.old) × (length (C.is.waiting cut.new) ≡ length (C.is.waiting cut.old)))
        ⊎ ((C.is.has_ended cut.new ≡ false) × (length (C.is.waiting cut.old) + skip.new < length (C.is.waiting cut.new) + skip.old) × (skip.new ≤ skip.old))) }
{
    let room = wanted.min(piece.len());
    let part = &mut piece[..room];
    cut.reserve(room)?;
    let count = src.read(part)?;
    if count == 0 {
        cut.end();
        return Ok(());
    }
    feed_piece(cut, skip, &part[..count]);
    Ok(())
}
