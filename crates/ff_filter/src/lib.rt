//! Filters: functions on whole streams, and the machines that meet them an item at a time.
//!
//! ```text
//!   fed so far          still to come
//!   ─────────────►│ filter │─────────────►
//!   what it gave       what it still gives for what still comes: its view
//! ```
//!
//! A filter is seen as what it still gives for what is still to come. Each call is an equation between two such
//! views. What was fed stands before what still comes, and what was given before what is still given. No past is
//! kept.
//!
//! `lasting`: The range of times of `trim` and `atrim`. `spread`: Filters of one input and several outputs.
#![tactic(auto)]

mod after;
mod filter;
mod inlet;
mod lasting;
mod laws;
mod limited;
mod machine;
mod options;
mod outlet;
mod pass;
mod plain;
mod range;
mod rebase;
mod spread;
mod step;
mod stepper;

pub use after::{After, closing_of};
pub use filter::Filter;
pub use inlet::{Inlet, Next};
pub use lasting::{TrimSettings, lasting_stop};
pub use laws::shared_functions_are_sound;
pub use limited::Limited;
pub use machine::{Single, machine_of};
pub use options::{
    Settings, option_of, ranged, read_args, read_time, sound_settings, video_settings,
};
pub use outlet::Outlet;
pub use pass::Pass;
pub use plain::{ExprSettings, NoSettings};
pub use range::{Range, RangeSettings};
pub use rebase::{Rebase, earlier, start_of_item, ticks_of};
pub use spread::{Copies, Share, SplitSettings, Spreader, copies_of, same_heads};
pub use step::{Given, Step};
pub use stepper::Stepper;
