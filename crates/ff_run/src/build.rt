//! The nodes of a plan: parts of any kind, each built from the heads at its edges.
//!
//! ```text
//!  InputHead ─► Demux ─ packets ─► Dec ─ frames ─► Graph ─ frames ─► Joint ─ frames ─► Enc or FlacEnc ─ packets ─► Mux ─► the bytes
//!    AnyCut ──────┘   AnyDecoder ───┘   GraphFilter ──┘   Shortest or ──┘   AnyEncoder ──┘            AnyWriter ────┘    of an output
//!                     a cut             and cuts          Straight
//! ```
//!
//! A [`Part`] is one of seven machines. Four are over the enum of all formats or codecs that they know. So a further
//! format or codec is a line in that enum, and none here. `Graph` is a whole filtergraph as one filter, with the cuts
//! of its outputs. `Joint` has the streams of an output together, and ends them with the shortest where that is asked
//! for. `FlacEnc` encodes FLAC, whose packets aren't one for each frame. [`Parts`] builds them (`Kinds` of
//! `ff_run_plan`): `specs/build/Parts` has what each is there for, by the definitions of its format, codec or filters
//! alone, and `specs/laws/build/Events` which events each has to tell.

mod laws;
mod part;
mod parts;
mod through;

pub use laws::events_of_a_plan;
pub use part::Part;
pub use parts::Parts;
pub use through::Through;
