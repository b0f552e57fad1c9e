//! Hosts in memory.
//!
//! [`QuietHost`] holds its files in memory and never fails; [`MemHost`] stands on it and fails exactly where it was
//! planned. On it stands [`MeetHost`] as well, whose sources fail where two of them aren't read at one time.

mod contents;
mod meet_host;
mod meet_source;
mod meeting;
mod mem_host;
mod mem_sink;
mod mem_source;
mod plan;
mod quiet_host;
mod quiet_sink;
mod quiet_source;

pub use meet_host::MeetHost;
pub use meet_source::MeetSource;
pub use mem_host::MemHost;
pub use mem_sink::MemSink;
pub use mem_source::MemSource;
pub use plan::{FailAt, HostCall};
pub use quiet_host::QuietHost;
pub use quiet_sink::QuietSink;
pub use quiet_source::QuietSource;
