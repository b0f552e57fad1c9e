//! A filter as a machine of a network.
//!
//! ```text
//!   the past of a machine          a filter
//!   fed ──────────────►│ view │──► what it still gives
//!   gave               for what still comes
//! ```
//!
//! A filter keeps no past: it is seen as what it still gives for what is still to come. `Stands` ties that to a past,
//! on each output: what comes out, whatever still comes in, is what was given and then the rest. From that come all
//! clauses and laws of a machine, once for all filters. A function within limits breaks off without a broken input
//! only where a limit cuts it. So a machine needs no more than two bits to know its fault.
//!
//! `best`: A machine that tells which of its inputs is the best one.
#![tactic(auto)]

mod alone;
mod best;
mod laws;

pub use alone::Alone;
pub use best::{
    Leading, best_inputs_worked_out, events_of_the_best_input, the_best_input_is_the_first,
};
pub use laws::filters_are_limited;
