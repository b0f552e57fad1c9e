//! Tests of links, nodes, networks and the scheduler's cell in threads, that no row of data can say.
#![tactic(auto)]

#[cfg(test)]
mod net;
#[cfg(test)]
mod network;
#[cfg(test)]
mod sched;
