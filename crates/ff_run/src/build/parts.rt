//! The kinds of node, built.
ghost use Rattle.std.specs.Prelude.{◌≡◌, false};
ghost use Rattle.ff_run.specs.build.Parts.{is_flac as flac_is, is_flac_coded as flac_is_coded, options_of as said_by};

use crate::build::part::Part;
use crate::build::through::Through;
use ff_flac_dec::frame_channel;
use ff_format::OutputOptions;
use ff_frame::{Codec, Coding, StreamHead};
use ff_graph::{Refusal, graph_machine};
use ff_host::{Sink, Source};
use ff_input::{InputHead, OneOf, SingleCut};
use ff_lang::Graph;
use ff_mux::writer_of;
use ff_node_avi::AviDemux;
use ff_node_codec::{AnyDecoder, Dec, Enc, decoder_of, encoder_of};
use ff_node_demux::{Demux, generator_of};
use ff_node_filter::Leading;
use ff_node_flac::{FlacEnc, InOrder};
use ff_node_mux::Mux;
use ff_node_sync::joint_machine;
use ff_plan::{Plan, plan};
use ff_plan_layout::PlanError;
use ff_plan_rules::GraphRules;
use ff_run_plan::{Ends, Kinds};
use ff_source::Made;
use ff_time::TimeCut;
use ff_trim::OutputCut;
use ff_words::{Job, OutputJob};
use std::alloc::{AllocError, Global};

fn is_flac(codec: Codec) -> bool
    ensures { result ≡ flac_is codec }
{
    match codec.coding() {
        Coding::Flac => true,
        Coding::Pcm(_) | Coding::RawVideo => false,
    }
}

// Whether packets of this head are FLAC.
fn is_flac_coded(coded: &StreamHead) -> bool
    ensures { result ≡ flac_is_coded coded.now }
{
    match coded {
        StreamHead::Audio { codec, .. } => is_flac(*codec),
        StreamHead::Video { .. } => false,
    }
}

// What the options of an output say to its format.
fn options_of(out: &OutputJob) -> OutputOptions
    ensures { result ≡ said_by out.now }
{
    OutputOptions {
        hash: out.hash,
        rf64: out.rf64,
        streamed: out.name.as_str() == "/dev/stdout",
    }
}

/// How many packets are on no queue: the one that waits for room on it, and the one that is being decoded.
const IN_HAND: usize = 2;

// Has a demuxer of FLAC send each frame that it has read to the decoder of its packets, which reads the others itself.
// Without memory for a channel it reads all.
fn share_frames<Src: Source + Drop>(
    alloc: Global,
    queue: usize,
    demux: &mut Demux<Src, SingleCut>,
    dec: &mut Dec<AnyDecoder>,
)
    ensures demux { demux.new ≡ demux.old }
    ensures dec { dec.new ≡ dec.old }
{
    if !demux.sends_frames() {
        return;
    }
    let Ok((sender, receiver)) = frame_channel(alloc, queue.saturating_add(IN_HAND)) else {
        return;
    };
    demux.send_frames_to(sender);
    dec.take_frames_from(receiver);
}

/// The kinds of node of a plan, over any format and codec that is read or written.
#[derive(Drop)]
pub struct Parts;

impl<Src: Source + Send + Drop, Snk: Sink + Send + Drop> Kinds<Src, Snk, Part<Src, Snk>> for Parts {
    ghost use Rattle.ff_run.specs.laws.build.Events.{parts_tell_of_themselves};
    ghost use Rattle.ff_run.specs.laws.build.Exits.{parts_exit};
    ghost use Rattle.ff_run.specs.laws.build.Graphs.{graphs_are_had};
    ghost use Rattle.ff_run.specs.laws.build.Held.{parts_are_held};
    ghost use Rattle.ff_run.specs.build.Parts.{all_kinds};
    ghost use Rattle.ff_run.specs.laws.build.Sources.{sources_are_had};
    ghost use Rattle.ff_plan_rules.proofs.Holds.{are_rules};
    ghost use Rattle.ff_plan_rules.proofs.Keeping.{keep_heads};
    ghost use Rattle.ff_run.specs.laws.build.Takes.{heads_decode, heads_fit, heads_encode, heads_are_written};

    type Head = InputHead;

    ghost is = { all_kinds };

    fn streams(alloc: Global, head: &InputHead) -> Result<Vec<StreamHead>, AllocError> {
        head.streams(alloc)
    }

    fn plan(alloc: Global, job: &Job, heads: &[Vec<StreamHead>]) -> Result<Plan, PlanError> {
        plan(alloc, &GraphRules, job, heads)
    }

    fn demuxer(
        alloc: Global,
        input: u32,
        head: &InputHead,
        used: &[u32],
        src: Src,
    ) -> Result<Part<Src, Snk>, Src> {
        match head {
            OneOf::First(head) => match Demux::new(alloc, input, src, head) {
                Ok(demux) => Ok(Part::Demux(demux)),
                Err(src) => Err(src),
            },
            OneOf::Other(head) => match AviDemux::new(alloc, input, src, head, used) {
                Ok(demux) => Ok(Part::Avi(demux)),
                Err(src) => Err(src),
            },
        }
    }

    fn generator(alloc: Global, number: u32, made: Made) -> Part<Src, Snk> {
        Part::Gen(generator_of(alloc, number, made))
    }

    fn decoder(
        alloc: Global,
        head: &StreamHead,
        cut: TimeCut,
        outputs: usize,
    ) -> Result<Part<Src, Snk>, AllocError> {
        let dec = Dec::new(alloc, decoder_of(alloc, head), *head, cut, outputs)?;
        Ok(Part::Dec(dec))
    }

    fn graph(
        alloc: Global,
        number: u32,
        text: &Graph,
        heads: &[StreamHead],
        cuts: &[OutputCut],
    ) -> Result<Part<Src, Snk>, AllocError> {
        let machine = match graph_machine(alloc, text, heads, cuts) {
            Ok(machine) => machine,
            Err(Refusal::NoMemory) => return Err(AllocError),
            Err(Refusal::Config { .. } | Refusal::Loop) => unreachable!(),
        };
        let Ok(graph) = Leading::new(alloc, number, heads, machine) else {
            return Err(AllocError);
        };
        match Through::new(graph) {
            Some(graph) => Ok(Part::Graph(graph)),
            None => unreachable!(),
        }
    }

    fn shortest(
        alloc: Global,
        ends: bool,
        heads: &[StreamHead],
    ) -> Result<Part<Src, Snk>, AllocError> {
        let joint = joint_machine(alloc, ends, heads)?;
        match Through::new(joint) {
            Some(joint) => Ok(Part::Joint(joint)),
            None => unreachable!(),
        }
    }

    fn encoder(
        alloc: Global,
        head: &StreamHead,
        coded: &StreamHead,
    ) -> Result<Part<Src, Snk>, AllocError> {
        if is_flac_coded(coded) {
            return Ok(Part::FlacEnc(FlacEnc::new(alloc, InOrder, *head)));
        }
        let enc = Enc::new(alloc, encoder_of(alloc, head, coded), *head)?;
        Ok(Part::Enc(enc))
    }

    fn muxer(
        alloc: Global,
        first: u32,
        out: &OutputJob,
        coded: &[StreamHead],
        snk: Snk,
    ) -> Result<Part<Src, Snk>, Snk> {
        let Ok(writer) = writer_of(alloc, out.format, options_of(out), coded) else {
            return Err(snk);
        };
        match Mux::new(alloc, first, snk, writer, coded) {
            Ok(mux) => Ok(Part::Mux(mux)),
            Err(snk) => Err(snk),
        }
    }

    fn connect(
        alloc: Global,
        queue: usize,
        giver: &mut Part<Src, Snk>,
        taker: &mut Part<Src, Snk>,
    ) -> Result<(), AllocError> {
        let Part::Demux(demux) = giver else {
            return Ok(());
        };
        let Part::Dec(dec) = taker else {
            return Ok(());
        };
        share_frames(alloc, queue, demux, dec);
        Ok(())
    }

    fn tried(part: &Part<Src, Snk>) -> u64 {
        match part {
            Part::Demux(m) => m.tried(),
            Part::Avi(m) => m.tried(),
            Part::Gen(m) => m.tried(),
            Part::Dec(_)
            | Part::Graph(_)
            | Part::Joint(_)
            | Part::Enc(_)
            | Part::FlacEnc(_)
            | Part::Mux(_) => 0,
        }
    }

    fn into_ends(part: Part<Src, Snk>) -> Ends<Src, Snk> {
        match part {
            Part::Demux(m) => Ends::Source(m.into_source()),
            Part::Avi(m) => Ends::Source(m.into_source()),
            Part::Dec(_)
            | Part::Graph(_)
            | Part::Joint(_)
            | Part::Enc(_)
            | Part::FlacEnc(_)
            | Part::Gen(_) => Ends::Neither,
            Part::Mux(m) => Ends::Sink(m.into_sink()),
        }
    }

    ghost decodes = { heads_decode };

    ghost frames = { heads_fit };

    ghost ruled = { are_rules };

    ghost kept = { keep_heads.kept };

    ghost few = { keep_heads.few };

    ghost takes = { keep_heads.taken };

    ghost filters = { graphs_are_had };

    ghost makes = { sources_are_had };

    ghost joins = { λ heads all some. some };

    ghost encodes = { heads_encode };

    ghost writes = { heads_are_written };

    ghost own = { parts_tell_of_themselves };

    ghost exits = { parts_exit Src.left Src.name Src.faults };

    ghost holds_on = { parts_are_held };
}
