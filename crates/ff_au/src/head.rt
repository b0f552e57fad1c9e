//! The head of an AU input.
use ff_pcm::PcmHead;
use ff_reader::Step;

/// The head of an AU: what comes before the bytes of its samples.
pub type AuHead = PcmHead;

/// What the fields do to the reading of a head. Before them nothing is known.
pub(crate) type FieldsStep = Step<AuHead, ()>;
