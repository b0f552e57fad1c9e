//! The files of a run, all over one host. The inputs are opened by number, each with its head, the outputs are
//! created by number, and all are closed again.
//!
//! ```text
//!  inputs   0 1 2 ..   opened ──► head read ──┐                                  ┌──► sources closed, 0 1 2 ..
//!                                             ├──► planned ──► created ──► run ──┤
//!  outputs  0 1 2 ..                          │                                  └──► files closed, 0 1 2 ..
//!                                   refused ──┴──► only the closings follow
//! ```
//!
//! What an input's head is, and how it is read, an [`InputFile`] says: nothing here but `job` knows formats. What is
//! done between the opening and the closing is a [`Work`]: it plans by the heads, and runs. One more file may stand
//! after the outputs, the trace. The work doesn't get its sink, and what the run has logged is printed into it once
//! all was done.
//!
//! An output may be no file ([`OutputFile`]). It has its number and where it goes, a [`Target`], as any other has, but
//! no name: nothing is created or closed for it.
#![tactic(auto)]

mod closing;
mod end;
mod file_sink;
mod head;
mod inputs;
mod job;
mod named;
mod outputs;
mod target;
mod there;
mod trace;
mod whole;
mod work;

pub use closing::{close_all, close_sinks, close_sources};
pub use end::{Outcome, RunEnd};
pub use file_sink::FileSink;
pub use head::{Begin, InputEnd, InputFile, read_begin};
pub use inputs::{InputRefusal, Opened, open_inputs};
pub use named::{Named, OutputFile};
pub use outputs::{OutputRefusal, create_outputs};
pub use target::Target;
pub use there::first_there;
pub use whole::over_files;
pub use work::{Done, PlanEnd, Work, WorkEnd};
