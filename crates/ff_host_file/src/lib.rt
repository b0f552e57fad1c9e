//! The machine's files as a host, and standard output as a log.
//!
//! This is the edge that the proofs trust: what a file or standard output holds is told by nobody. Three things are
//! proved: how failures are counted, that what has failed stays so, and that each is given back under its own name.
//! Where it is asked for, a line on standard error says how far the reading is; no clause speaks of it, nor of the causes
//! of failures that a host keeps.
#![tactic(auto)]

mod cause;
mod file_host;
mod file_id;
mod file_sink;
mod file_source;
mod log_sink;
mod progress;

pub use cause::{Cause, Causes};
pub use file_host::FileHost;
pub use file_id::FileId;
pub use file_sink::FileSink;
pub use file_source::FileSource;
pub use log_sink::LogSink;
pub use progress::{Meter, Progress};
