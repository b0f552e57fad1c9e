//! Tests of AVI reading, as rows of data: heads with some of their bytes changed, each at the byte before its answer
//! is found and at that byte, and chains of packets, fed in pieces.
#![tactic(auto)]

#[cfg(test)]
mod chains;
#[cfg(test)]
mod heads;
