//! The numbers of nodes, by the first one of each kind.
ghost use Rattle.std.specs.Prelude.{◌≡◌, ◌^◌, ◌<◌, ◌≤◌, ◌==◌, length};
ghost use Rattle.std.specs.List.{position_or_len};
ghost use Rattle.ff_words.specs.declared.maps.streams.Stream.{Stream};
ghost use Rattle.ff_plan_layout.specs.declared.layout.Laid.{Laid};
ghost use Rattle.ff_plan_layout.specs.Layout.{same_ref as are_same};
ghost use Rattle.ff_plan.specs.Nodes.{origin_port as port_of_origin};
ghost use Rattle.ff_plan.specs.laws.Numbering.{dec_in, graph_in, origin_in, IsLow, demux_number as number_of_demux};

use ff_plan_layout::{Laid, Origin, same_ref};
use ff_words::maps::{Stream, StreamRef};

/// The number of the first node of each kind after the Demux nodes.
#[derive(Clone, Copy)]
pub(crate) struct Firsts {
    /// The number of the first Dec.
    pub(crate) decs: u32,
    /// The number of the first graph's node.
    pub(crate) graphs: u32,
    /// The number of the first Shortest node.
    pub(crate) shortests: u32,
    /// The number of the first Enc.
    pub(crate) encs: u32,
    /// The number of the first Mux.
    pub(crate) muxes: u32,
}

/// The number of an input's Demux.
pub(crate) fn demux_number(inputs: &[u32], input: u32) -> u32
    requires { length inputs.now < 2 ^ 32 }
    ensures { result ≡ number_of_demux inputs.now input }
{
    for (number, other) in inputs.iter().enumerate() {
        if *other == input {
            return number as u32;
        }
    }
    inputs.len() as u32
}

fn place_of(streams: &[Stream], at: StreamRef) -> u32
    requires { length streams.now < 2 ^ 32 }
    ensures number { result ≡ position_or_len (λ (k : Stream). are_same k.at at) streams.now }
    ensures small { result ≤ length streams.now }
{
    for (number, other) in streams.iter().enumerate() {
        if same_ref(other.at, at) {
            return number as u32;
        }
    }
    streams.len() as u32
}

fn graph_place(graphs: &[Laid], graph: u32) -> u32
    requires { length graphs.now < 2 ^ 32 }
    ensures number { result ≡ position_or_len (λ (x : Laid). x.graph == graph) graphs.now }
    ensures small { result ≤ length graphs.now }
{
    for (number, other) in graphs.iter().enumerate() {
        if other.graph == graph {
            return number as u32;
        }
    }
    graphs.len() as u32
}

/// The number of a stream's Dec.
pub(crate) fn dec_number(firsts: Firsts, streams: &[Stream], at: StreamRef) -> u32
    requires low { firsts.decs ≤ 65536 }
    requires streams { length streams.now ≤ 65536 }
    ensures { result ≡ dec_in firsts streams.now at }
{
    firsts.decs + place_of(streams, at)
}

/// The number of a graph's node.
pub(crate) fn graph_number(firsts: Firsts, graphs: &[Laid], graph: u32) -> u32
    requires low { firsts.graphs ≤ 65536 }
    requires graphs { length graphs.now ≤ 65536 }
    ensures { result ≡ graph_in firsts graphs.now graph }
{
    firsts.graphs + graph_place(graphs, graph)
}

/// The number of the node that something comes from.
pub(crate) fn origin_number(
    firsts: Firsts,
    streams: &[Stream],
    graphs: &[Laid],
    source: Origin,
) -> u32
    requires { IsLow firsts streams.now graphs.now }
    ensures { result ≡ origin_in firsts streams.now graphs.now source }
{
    match source {
        Origin::Stream(at) => dec_number(firsts, streams, at),
        Origin::Pad { graph, pad: _ } => graph_number(firsts, graphs, graph),
    }
}

/// The output port that something comes from, where it is named.
pub(crate) fn port_of(source: Origin) -> Option<u32>
    ensures { result ≡ port_of_origin source }
{
    match source {
        Origin::Stream(_) => None,
        Origin::Pad { graph: _, pad } => Some(pad),
    }
}
