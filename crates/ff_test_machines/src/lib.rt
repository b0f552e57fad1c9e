//! Plain machines, to try a network with: a source of a list, a relay, and one that joins two inputs. The relay
//! repeats its input on its outputs, ends after so many items, and keeps all that it was fed. Each meets every law of
//! a machine. Beside them packets of one byte, and a thread that sends them over a link to another.
#![tactic(auto)]

mod join;
mod packets;
mod passing;
mod plain;
mod relay;
mod source;

pub use join::{Ending, Join, Kept};
pub use packets::{is_packet, lane_of, one_over, packet};
pub use passing::{Passed, new_link, pass_packets};
pub use plain::Plain;
pub use relay::Relay;
pub use source::Source;
