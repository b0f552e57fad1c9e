//! Items, the ways that carry them, and the streams that they make.
//!
//! ```text
//! a part ──► Packet, Packet, .. Trailer, End ──► a part
//!            └──────── a way: its Lane ───────┘
//! ```
//!
//! An item is a frame or a packet, or says that nothing more comes. `specs/` has the streams that travel so. Their
//! order is in `Stream`, `Order` and `Ports`, and what each item adds to one in `Items`. `Times` and `Lanes` say when
//! one is valid for the lane that carries it. `Within` says where one is cut for its length, and `Breaks` what
//! becomes of a function of streams where an input breaks off. The values themselves are those of `ff_frame`.
//!
//! `edges`: The edges between the nodes of a plan or a network, and the ports at which they stand.
#![tactic(auto)]

mod edges;
mod item;
mod limits;
mod times;

pub use edges::{Edge, edges_into, edges_out_of};
pub use item::{Item, Lane, Refused, discard};
pub use limits::{MOST_ITEMS, ends_past, is_long};
pub use times::{end_of_item, end_ticks, shared, ticks_from, time_base, with_base};
