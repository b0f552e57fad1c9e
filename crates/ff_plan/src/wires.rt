//! The wires between the nodes.
ghost use Rattle.std.specs.Prelude.{◌≡◌, ◌^◌, ◌<◌, ◌≤◌, ◌++◌, ◌∷◌, [], IfOk, OnOk, length, map};
ghost use Rattle.std.specs.List.{AllByRecursion, flat_map};
ghost use Rattle.ff_plan.specs.laws.Numbering.{wire_of, demux_wire_in, pad_wire_in, pad_wires_in, shortest_wire_in};
ghost use Rattle.ff_plan.specs.laws.Numbering.{enc_wire_in, frame_wires_in, mux_wire_in, wires_in, IsLow};
ghost use Rattle.ff_plan_layout.specs.laws.Limits.{IsSmall};

use crate::firsts::{Firsts, dec_number, demux_number, graph_number, origin_number, port_of};
use crate::number::Wire;
use ff_plan_layout::{InPad, Laid, Placed};
use ff_stream::Lane;
use ff_words::maps::Stream;
use std::alloc::{AllocError, Global};

fn add_wire(
    wires: &mut Vec<Wire>,
    from: u32,
    port: Option<u32>,
    to: u32,
    lane: Lane,
) -> Result<(), AllocError>
    ensures { OnOk result (wires.new.items ≡ wires.old.items ++ wire_of from port to lane ∷ []) }
{
    wires.push(Wire {
        from,
        port,
        to,
        lane,
    })?;
    Ok(())
}

// From each Demux to the Decs of the streams that are read.
fn add_demux_wires(
    wires: &mut Vec<Wire>,
    firsts: Firsts,
    inputs: &[u32],
    read: &[Stream],
    streams: &[Stream],
) -> Result<(), AllocError>
    requires low { firsts.decs ≤ 65536 }
    requires inputs { length inputs.now < 2 ^ 32 }
    requires streams { length streams.now ≤ 65536 }
    ensures { OnOk result (wires.new.items ≡ wires.old.items ++ map (demux_wire_in firsts inputs.now streams.now) read.now) }
{
    for stream in read {
        let from = demux_number(inputs, stream.at.input);
        let to = dec_number(firsts, streams, stream.at);
        add_wire(wires, from, None, to, Lane::Packets(stream.head))?;
    }
    Ok(())
}

// To the inputs of one graph.
fn add_pad_wires(
    wires: &mut Vec<Wire>,
    firsts: Firsts,
    streams: &[Stream],
    graphs: &[Laid],
    graph: u32,
    ins: &[InPad],
) -> Result<(), AllocError>
    requires { IsLow firsts streams.now graphs.now }
    ensures { OnOk result (wires.new.items ≡ wires.old.items ++ map (pad_wire_in firsts streams.now graphs.now graph) ins.now) }
{
    let to = graph_number(firsts, graphs, graph);
    for pad in ins {
        let from = origin_number(firsts, streams, graphs, pad.source);
        add_wire(wires, from, port_of(pad.source), to, Lane::Frames(pad.head))?;
    }
    Ok(())
}

// To the inputs of each graph.
fn add_graph_wires(
    wires: &mut Vec<Wire>,
    firsts: Firsts,
    streams: &[Stream],
    graphs: &[Laid],
) -> Result<(), AllocError>
    requires { IsLow firsts streams.now graphs.now }
    ensures { OnOk result (wires.new.items ≡ wires.old.items ++ flat_map (pad_wires_in firsts streams.now graphs.now) graphs.now) }
{
    for graph in graphs {
        let ins = graph.ins.as_slice();
        add_pad_wires(wires, firsts, streams, graphs, graph.graph, ins)?;
    }
    Ok(())
}

// To each output's Shortest node.
fn add_shortest_wires(
    wires: &mut Vec<Wire>,
    firsts: Firsts,
    streams: &[Stream],
    graphs: &[Laid],
    placed: &[Placed],
) -> Result<(), AllocError>
    requires low { IsLow firsts streams.now graphs.now }
    requires small { AllByRecursion IsSmall placed.now }
    ensures { OnOk result (wires.new.items ≡ wires.old.items ++ map (shortest_wire_in firsts streams.now graphs.now) placed.now) }
{
    for one in placed {
        let from = origin_number(firsts, streams, graphs, one.what.source);
        add_wire(
            wires,
            from,
            port_of(one.what.source),
            firsts.shortests + one.output,
            Lane::Frames(one.what.head),
        )?;
    }
    Ok(())
}

// To each Enc from its output's Shortest node.
fn add_enc_wires(wires: &mut Vec<Wire>, firsts: Firsts, placed: &[Placed]) -> Result<(), AllocError>
    requires shortests { firsts.shortests ≤ 65536 }
    requires encs { firsts.encs ≤ 65536 }
    requires small { AllByRecursion IsSmall placed.now }
    ensures { OnOk result (wires.new.items ≡ wires.old.items ++ map (enc_wire_in firsts) placed.now) }
{
    for one in placed {
        add_wire(
            wires,
            firsts.shortests + one.output,
            None,
            firsts.encs + one.number,
            Lane::Frames(one.what.head),
        )?;
    }
    Ok(())
}

// From what the outputs' streams show to each Enc, by the Shortest nodes where there are such.
fn add_frame_wires(
    wires: &mut Vec<Wire>,
    firsts: Firsts,
    streams: &[Stream],
    graphs: &[Laid],
    placed: &[Placed],
) -> Result<(), AllocError>
    requires low { IsLow firsts streams.now graphs.now }
    requires small { AllByRecursion IsSmall placed.now }
    ensures { OnOk result (wires.new.items ≡ wires.old.items ++ frame_wires_in firsts streams.now graphs.now placed.now) }
{
    add_shortest_wires(wires, firsts, streams, graphs, placed)?;
    add_enc_wires(wires, firsts, placed)
}

// From each Enc to its Mux.
fn add_mux_wires(wires: &mut Vec<Wire>, firsts: Firsts, placed: &[Placed]) -> Result<(), AllocError>
    requires encs { firsts.encs ≤ 65536 }
    requires muxes { firsts.muxes ≤ 65536 }
    requires small { AllByRecursion IsSmall placed.now }
    ensures { OnOk result (wires.new.items ≡ wires.old.items ++ map (mux_wire_in firsts) placed.now) }
{
    for one in placed {
        add_wire(
            wires,
            firsts.encs + one.number,
            None,
            firsts.muxes + one.output,
            Lane::Packets(one.what.packed),
        )?;
    }
    Ok(())
}

/// The wires between the nodes of these inputs, streams, graphs and outputs' streams, where these streams are read.
pub(crate) fn wire_up(
    alloc: Global,
    firsts: Firsts,
    inputs: &[u32],
    read: &[Stream],
    streams: &[Stream],
    graphs: &[Laid],
    placed: &[Placed],
) -> Result<Vec<Wire>, AllocError>
    requires inputs { length inputs.now < 2 ^ 32 }
    requires low { IsLow firsts streams.now graphs.now }
    requires small { AllByRecursion IsSmall placed.now }
    ensures { IfOk result (λ ws. ws.items ≡ wires_in firsts inputs.now read.now streams.now graphs.now placed.now) }
{
    let mut wires = Vec::new(alloc);
    add_demux_wires(&mut wires, firsts, inputs, read, streams)?;
    add_graph_wires(&mut wires, firsts, streams, graphs)?;
    add_frame_wires(&mut wires, firsts, streams, graphs, placed)?;
    add_mux_wires(&mut wires, firsts, placed)?;
    Ok(wires)
}
