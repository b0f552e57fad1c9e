//! The call that does all that the program does, for any command.
//!
//! ```text
//! args, files  ──► ff_command: read, opened, closed, answered
//!                       └─ Threaded: planned (ff_plan), built (ff_run), run in threads and gathered (ff_run_plan)
//! ```
//!
//! `specs/Meaning` says what a job means: which bytes each of its outputs holds, as a function of the heads and the
//! bytes of its inputs. `Command` of ff_command's specs says by that when each answer comes and what stands then.
//! [`ffmpeg`] is proved to keep to them over any host and any log. The sizes of its queues and the order in which its
//! threads ran change nothing.
//!
//! `build`: The nodes of a plan: parts of any kind, each built from the heads at its edges.
#![tactic(auto)]

mod build;
mod laws;
mod run;
mod worker;

pub use build::{Part, Parts, Through, events_of_a_plan};
pub use laws::{a_job_without_inputs_means_one_thing, no_history_is_empty};
pub use run::ffmpeg;
