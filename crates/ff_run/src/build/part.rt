//! A part of any kind, as one machine.
use crate::build::through::Through;
use ff_frame::{Event, Ticket};
use ff_graph::GraphMachine;
use ff_host::{Sink, Source};
use ff_input::SingleCut;
use ff_mux::AnyWriter;
use ff_net::{Fault, Machine};
use ff_node_avi::AviDemux;
use ff_node_codec::{AnyDecoder, AnyEncoder, Dec, Enc};
use ff_node_demux::{Demux, Gen};
use ff_node_filter::{Alone, Leading};
use ff_node_flac::{FlacEnc, InOrder};
use ff_node_mux::Mux;
use ff_node_sync::Joint;
use ff_source::GenSource;
use ff_stream::{Item, Refused};
use std::alloc::AllocError;

/// A part of a run. Each kind is a machine of its own; together they are one, so that a network can hold them side by
/// side.
#[derive(Drop)]
pub enum Part<Src: Source + Drop, Snk: Sink + Drop> {
    /// Gives an input's packets.
    Demux(Demux<Src, SingleCut>),
    /// Gives the packets of an AVI's streams, each at an output of its own.
    Avi(AviDemux<Src>),
    /// Gives the frames of a source filter.
    Gen(Gen<GenSource>),
    /// Decodes packets to frames, and cuts these.
    Dec(Dec<AnyDecoder>),
    /// Filters frames, cuts what it gives, and tells which of its inputs is the best one.
    Graph(Through<Leading<GraphMachine>>),
    /// Ends the streams of an output with the shortest of them, or gives them as they are.
    Joint(Through<Alone<Joint>>),
    /// Encodes frames to packets, one for one.
    Enc(Enc<AnyEncoder>),
    /// Encodes audio to FLAC.
    FlacEnc(FlacEnc<InOrder>),
    /// Writes an output of packets.
    Mux(Mux<Snk, AnyWriter>),
}

impl<Src: Source + Drop, Snk: Sink + Drop> Machine for Part<Src, Snk> {
    ghost use Rattle.ff_run.specs.laws.build.PartViews.{part_view};
    ghost use Rattle.ff_run.specs.declared.build.part.Part.TheVariants as part;
    ghost use Rattle.ff_node_codec.specs.laws.codecs.AnyCoders.{any_head, any_frame, any_serves, any_coded, any_packet};
    ghost use Rattle.ff_input.specs.Formats.{single_owes};
    ghost use Rattle.ff_node_avi.specs.laws.AviViews.{avi_laws};
    ghost use Rattle.ff_node_demux.specs.laws.DemuxViews.{demux_laws};
    ghost use Rattle.ff_node_demux.specs.laws.gens.GenViews.{gen_laws};
    ghost use Rattle.ff_source.specs.laws.Left.{left as frames_left};
    ghost use Rattle.ff_node_codec.specs.laws.Kinds.{dec_laws, enc_laws};
    ghost use Rattle.ff_node_flac.specs.laws.Machines as flac;
    ghost use Rattle.ff_node_mux.specs.laws.Kinds.{mux_laws};
    ghost use Rattle.ff_node_filter.specs.laws.best.LeadLaws.{leading_laws};
    ghost use Rattle.ff_graph.specs.laws.composed.Machines.{graph_laws};
    ghost use Rattle.ff_filters.specs.contracts.any.AnyFilterFilter.TheImpl.Laws.{grows-law, quiet-law, spent_only-law};
    ghost use Rattle.ff_node_sync.specs.laws.Joints.{joint_laws};

    ghost view = { part_view Src.left Src.name Src.faults };

    fn inputs(&self) -> usize {
        match self {
            Part::Demux(m) => m.inputs(),
            Part::Avi(m) => m.inputs(),
            Part::Gen(m) => m.inputs(),
            Part::Dec(m) => m.inputs(),
            Part::Graph(m) => m.inputs(),
            Part::Joint(m) => m.inputs(),
            Part::Enc(m) => m.inputs(),
            Part::FlacEnc(m) => m.inputs(),
            Part::Mux(m) => m.inputs(),
        }
    }

    fn outputs(&self) -> usize {
        match self {
            Part::Demux(m) => m.outputs(),
            Part::Avi(m) => m.outputs(),
            Part::Gen(m) => m.outputs(),
            Part::Dec(m) => m.outputs(),
            Part::Graph(m) => m.outputs(),
            Part::Joint(m) => m.outputs(),
            Part::Enc(m) => m.outputs(),
            Part::FlacEnc(m) => m.outputs(),
            Part::Mux(m) => m.outputs(),
        }
    }

    fn source(&self) -> Option<u32> {
        match self {
            Part::Demux(m) => m.source(),
            Part::Avi(m) => m.source(),
            Part::Gen(m) => m.source(),
            Part::Dec(m) => m.source(),
            Part::Graph(m) => m.source(),
            Part::Joint(m) => m.source(),
            Part::Enc(m) => m.source(),
            Part::FlacEnc(m) => m.source(),
            Part::Mux(m) => m.source(),
        }
    }

    fn fault(&self) -> Option<Fault> {
        match self {
            Part::Demux(m) => m.fault(),
            Part::Avi(m) => m.fault(),
            Part::Gen(m) => m.fault(),
            Part::Dec(m) => m.fault(),
            Part::Graph(m) => m.fault(),
            Part::Joint(m) => m.fault(),
            Part::Enc(m) => m.fault(),
            Part::FlacEnc(m) => m.fault(),
            Part::Mux(m) => m.fault(),
        }
    }

    fn allow(&mut self, ticket: Ticket) -> Option<Ticket> {
        match self {
            Part::Demux(m) => m.allow(ticket),
            Part::Avi(m) => m.allow(ticket),
            Part::Gen(m) => m.allow(ticket),
            Part::Dec(m) => m.allow(ticket),
            Part::Graph(m) => m.allow(ticket),
            Part::Joint(m) => m.allow(ticket),
            Part::Enc(m) => m.allow(ticket),
            Part::FlacEnc(m) => m.allow(ticket),
            Part::Mux(m) => m.allow(ticket),
        }
    }

    fn feed(&mut self, port: usize, item: Item) -> Result<(), Refused> {
        match self {
            Part::Demux(m) => m.feed(port, item),
            Part::Avi(m) => m.feed(port, item),
            Part::Gen(m) => m.feed(port, item),
            Part::Dec(m) => m.feed(port, item),
            Part::Graph(m) => m.feed(port, item),
            Part::Joint(m) => m.feed(port, item),
            Part::Enc(m) => m.feed(port, item),
            Part::FlacEnc(m) => m.feed(port, item),
            Part::Mux(m) => m.feed(port, item),
        }
    }

    fn pull(&mut self, port: usize) -> Result<Option<Item>, AllocError> {
        match self {
            Part::Demux(m) => m.pull(port),
            Part::Avi(m) => m.pull(port),
            Part::Gen(m) => m.pull(port),
            Part::Dec(m) => m.pull(port),
            Part::Graph(m) => m.pull(port),
            Part::Joint(m) => m.pull(port),
            Part::Enc(m) => m.pull(port),
            Part::FlacEnc(m) => m.pull(port),
            Part::Mux(m) => m.pull(port),
        }
    }

    fn stop(&mut self, port: usize) {
        match self {
            Part::Demux(m) => m.stop(port),
            Part::Avi(m) => m.stop(port),
            Part::Gen(m) => m.stop(port),
            Part::Dec(m) => m.stop(port),
            Part::Graph(m) => m.stop(port),
            Part::Joint(m) => m.stop(port),
            Part::Enc(m) => m.stop(port),
            Part::FlacEnc(m) => m.stop(port),
            Part::Mux(m) => m.stop(port),
        }
    }

    fn spent(&self, port: usize) -> bool {
        match self {
            Part::Demux(m) => m.spent(port),
            Part::Avi(m) => m.spent(port),
            Part::Gen(m) => m.spent(port),
            Part::Dec(m) => m.spent(port),
            Part::Graph(m) => m.spent(port),
            Part::Joint(m) => m.spent(port),
            Part::Enc(m) => m.spent(port),
            Part::FlacEnc(m) => m.spent(port),
            Part::Mux(m) => m.spent(port),
        }
    }

    fn next_event(&mut self) -> Option<Event> {
        match self {
            Part::Demux(m) => m.next_event(),
            Part::Avi(m) => m.next_event(),
            Part::Gen(m) => m.next_event(),
            Part::Dec(m) => m.next_event(),
            Part::Graph(m) => m.next_event(),
            Part::Joint(m) => m.next_event(),
            Part::Enc(m) => m.next_event(),
            Part::FlacEnc(m) => m.next_event(),
            Part::Mux(m) => m.next_event(),
        }
    }

    fn lacks(&self, port: usize) -> bool {
        match self {
            Part::Demux(m) => m.lacks(port),
            Part::Avi(m) => m.lacks(port),
            Part::Gen(m) => m.lacks(port),
            Part::Dec(m) => m.lacks(port),
            Part::Graph(m) => m.lacks(port),
            Part::Joint(m) => m.lacks(port),
            Part::Enc(m) => m.lacks(port),
            Part::FlacEnc(m) => m.lacks(port),
            Part::Mux(m) => m.lacks(port),
        }
    }

    fn defers(&self) -> bool {
        match self {
            Part::Demux(m) => m.defers(),
            Part::Avi(m) => m.defers(),
            Part::Gen(m) => m.defers(),
            Part::Dec(m) => m.defers(),
            Part::Graph(m) => m.defers(),
            Part::Joint(m) => m.defers(),
            Part::Enc(m) => m.defers(),
            Part::FlacEnc(m) => m.defers(),
            Part::Mux(m) => m.defers(),
        }
    }

    ghost laws = { elim [
      | part.Demux m ↦ demux_laws Src.left Src.name Src.faults single_owes.shaped m m.same_head
      | part.Avi m ↦ avi_laws Src.left Src.name Src.faults m
      | part.Gen m ↦ gen_laws frames_left m
      | part.Dec m ↦ dec_laws any_head any_frame m
      | part.Graph m ↦
          leading_laws (⟦<GraphMachine as Machine>⟧.view m.machine.machine) m.machine.lead (graph_laws grows-law quiet-law spent_only-law m.machine.machine.machine)
      | part.Joint m ↦ joint_laws m.machine
      | part.Enc m ↦ enc_laws any_serves any_coded any_packet m
      | part.FlacEnc m ↦ flac.enc_laws m
      | part.Mux m ↦ mux_laws m
    ] };
}
