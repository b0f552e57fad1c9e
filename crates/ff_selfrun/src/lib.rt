//! The run over generated input: what `-selfrun N` asks for.
//!
//! ```text
//! N ──► a.wav, v.y4m (`generated`) ───► the files of a host in memory ─┐
//!       args ───────────────────────► job ────────────────────────────┴─► run ──► out ──► selfrun N: B bytes, sha256 X
//! ```
//!
//! `specs/SelfRun` has the arguments, the files and the line. [`own_job`] gives the job that the arguments ask for,
//! and [`own_host`] the files. [`own_line`] gives the line that tells of what the job wrote. How a job is run isn't
//! known here.
//!
//! `generated`: Inputs that are made and not read: audio and video of any number of seconds, as whole files.
#![tactic(auto)]

mod files;
mod generated;
mod line;
mod seconds;
mod words;

pub use files::own_host;
pub use generated::{gen_wav, gen_y4m};
pub use line::own_line;
pub use seconds::seconds_are_few;
pub use words::own_job;
