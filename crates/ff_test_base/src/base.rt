//! Tests of the crates below the whole command that no row of data can say. They are of threads that meet, hosts
//! whose calls fail in the middle, and the machine's files. They are of frames of any sizes as blocks, and frames
//! that go from a cut to a decoder.

mod at_once;
mod blocks;
mod files;
mod handed_over;
mod hosts;
mod meeting;
mod times;
