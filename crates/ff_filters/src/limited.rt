//! Each filter, as it is configured, is a function within the limits of its outputs.
//!
//! A filter of `ff_filters` stands in a network as a machine of `ff_node_filter`, whose laws ask four things of its
//! function. It is monotone, it hides the breaks of its inputs, and it makes valid streams of valid ones. Where it
//! breaks off though no input does, a limit cuts it. Here all filters have these by name, arguments and heads. A limit
//! cuts exactly where an item passes it that the filter would have given.

mod laws;

pub use laws::{configured_filters_are_limited, limits_cut_what_passes_them};
