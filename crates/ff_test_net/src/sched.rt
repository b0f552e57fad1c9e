//! Tests of the scheduler's cell that no row of data can say. Two and four passes work at once, and their logs are
//! put together to one history, which a plain reader reads.

mod passes;
mod reader;
