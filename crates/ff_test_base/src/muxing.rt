//! Tests of the part that writes an output, which no row of data can say: sinks whose calls fail, and what is held then. The expected
//! bytes come from the formats' rules and from outside programs.

mod muxers;
