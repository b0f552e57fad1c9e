//! The command: its arguments, its meaning, and the call that does all that the program does, whatever works its jobs.
//!
//! ```text
//! args  ──► job ──► inputs opened, heads read ──► planned ──► outputs created ──► run ──► closed ──► status ──► the line of a fault
//!   └─ wrong ────────────┴─ refused ─────────────────┴─ refused ─────┴─ failed ─────┴──────────────────┘
//! ```
//!
//! `specs/Command` says, readable alone, what a command means, when each answer comes, and what stands then.
//! `specs/Texts` has the lines of faults and the numbers. [`run_command`] is proved to keep to them over any host,
//! any log and any [`Worker`]. A worker says, and does, what is done of a job between the opening of its inputs and
//! the closing of its outputs. The history of a run is reported, and printed into the file of the trace where the
//! arguments ask for one. What is told of the command itself, where an option stands alone, is in `specs/Help`, over
//! the lists by which arguments are read. The run over generated input (ff_selfrun) is a job like any other, over a
//! host in memory, by a worker of its own.
#![tactic(auto)]

mod command;
mod help;
mod history;
mod log;
mod report;
mod run;
mod texts;
mod told;
mod worker;
mod written;

pub use command::run_command;
pub use history::History;
pub use report::{FileRef, Line, Report, Status, exit_number, status_number};
pub use texts::fault_line;
pub use worker::Worker;
