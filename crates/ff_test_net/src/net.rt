//! Tests of links, nodes and networks that no row of data can be. They are of a link in one thread and between two,
//! and of a relay between two wires. They are of five nodes on five wires with faults in the middle, and of nodes
//! over links in a worker each.

mod chain;
mod links;
mod network;
mod node;
mod over_links;
mod run;
mod seats;
mod trial;
