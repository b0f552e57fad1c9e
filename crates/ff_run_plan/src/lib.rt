//! A plan's nodes: built, run in threads, and taken apart.
//!
//! The plan of `ff_plan` has nodes by number and edges between them. Each node becomes a part, a machine of one type
//! whatever its kind. `Kinds` says how one of each kind is made and what it is there for. Once all are made, the two
//! parts of each edge are told of each other. The cut of an input stands after its decoders, that of an output after
//! the graphs whose frames go to it. The sources of the inputs and the sinks of the outputs stand in numbered places.
//! A demuxer takes its source out of its place, a muxer its sink. Once the run is over each gives back what it has.
//! A source filter is a source without a place: it makes its frames.
//!
//! ```text
//!       sources            parts, one for each node of the plan              sinks
//!      +---+---+     +-----------+   +---------+   +---------+   +---------+   +---+---+
//!      | 0 | 1 | --> | Demux 0,1 |-->| Dec ..  |-->| Enc ..  |-->| Mux 0,1 | <-- 0 | 1 |
//!      +---+---+     +-----------+   +---------+   +---------+   +---------+   +---+---+
//!          ^               |              a thread for each           |            ^
//!          +---------------+------------------ gather ----------------+------------+
//! ```
//!
//! `specs/Meaning` says what an output holds by the heads and the bytes of the inputs. That is the solution of the
//! network of the plan, node by node by its task. `run_plan` keeps that, whatever the sizes of the queues and the
//! order of the threads. An impl can't start threads over types that its bounds name, so whoever has the threads
//! calls `make_plan` and `run_plan` in closures.
#![tactic(auto)]

mod build;
mod connecting;
mod cuts;
mod decoding;
mod end;
mod fault;
mod gather;
mod graphs;
mod kinds;
mod lanes;
mod opening;
mod reads;
mod run;
mod tables;
mod work;

pub use fault::RunFault;
pub use kinds::{Ends, Kinds};
pub use reads::RunLog;
pub use work::{make_plan, run_plan};
