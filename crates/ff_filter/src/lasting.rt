//! A range of times that lasts from the first item kept on: what `trim` and `atrim` share.
//!
//! ```text
//!   start ──┼──f─────────┼──────────┼──►      f the first item kept
//!           │  ├─ ticks ─┤         end        up to the later of both
//! ```

mod settings;
mod stop;

pub use settings::TrimSettings;
pub use stop::lasting_stop;
