//! Tests of the command and its parts that no table of ff_rows can say. They are of answers as values, a log that
//! fails, the order of closings, and a large input. They are of a source that waits for the sink or gives a few bytes
//! a read. They are of two sources that wait for each other, and of a source that stops before its end. Some are of a
//! demuxer by itself, and of a source filter. The expected bytes come from the formats' rules and from `sha256sum`,
//! never from the program.
#![tactic(auto)]

#[cfg(test)]
mod closings;
#[cfg(test)]
mod counting_host;
#[cfg(test)]
mod demuxers;
#[cfg(test)]
mod failing;
#[cfg(test)]
mod failing_copy;
#[cfg(test)]
mod failing_shortest;
#[cfg(test)]
mod gate;
#[cfg(test)]
mod gate_host;
#[cfg(test)]
mod gens;
#[cfg(test)]
mod large;
#[cfg(test)]
mod lines;
#[cfg(test)]
mod many;
#[cfg(test)]
mod meetings;
#[cfg(test)]
mod pieces;
#[cfg(test)]
mod reports;
#[cfg(test)]
mod runs;
#[cfg(test)]
mod spent;
