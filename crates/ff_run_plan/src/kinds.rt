//! The trait of the kinds of node of a plan.
ghost use Rattle.std.specs.Prelude.{◌≡◌, ◌≢◌, ◌≤◌, ◌+◌, ◌^◌, ℕ, true, List, [], ◌∷◌, length, map, Option, Some, None, Ok, IfOk, IfErr, replicate};
ghost use Rattle.ff_stream.specs.declared.item.Lane.TheVariants.{Frames, Packets};
ghost use Rattle.ff_stream.specs.Ports.{AllBelow};
ghost use Rattle.ff_stream.specs.Stream.{opened};
ghost use Rattle.ff_net.specs.Pasts.{start};
ghost use Rattle.ff_net.specs.Ways.{Flow};
ghost use Rattle.ff_files.specs.Works.{HoldsPart};
ghost use Rattle.std.specs.List.{AllByRecursion};
ghost use Rattle.ff_words.specs.maps.Choice.{lists};
ghost use Rattle.ff_plan_layout.specs.laws.Graphs.{AreRules};
ghost use Rattle.ff_plan_layout.specs.laws.Limits.{IsWithinLimits};
ghost use Rattle.ff_plan.specs.Planned.{planned};
ghost use Rattle.ff_plan_layout.specs.laws.Refusals.{IsRefused};
ghost use Rattle.ff_plan_layout.specs.Streams.{most_streams, packed_as, takes_head};
ghost use Rattle.ff_plan.specs.laws.Taken.{AreKeptBy};
ghost use Rattle.ff_source.specs.Sources.{head_of};
ghost use Rattle.ff_words.specs.declared.job.OutputJob.{OutputJob};
ghost use Rattle.ff_frame.specs.declared.head.StreamHead.{StreamHead};
ghost use Rattle.ff_run_plan.specs.Events.{TellOfThemselves};
ghost use Rattle.ff_run_plan.specs.Kinds.{KindsOf, AreUsed, used_heads, IsNew, TellsExit, GivesEnds, GraphsAreHad, SourcesAreHad};
ghost use Rattle.ff_plan.specs.laws.Sound.{HasFewIns, KeepsTaken};

use ff_frame::StreamHead;
use ff_host::{Sink, Source};
use ff_lang::Graph;
use ff_net::Machine;
use ff_plan::Plan;
use ff_plan_layout::PlanError;
use ff_source::Made;
use ff_time::TimeCut;
use ff_trim::OutputCut;
use ff_words::{Job, OutputJob};
use std::alloc::{AllocError, Global};

/// What a part gives back of its source or sink.
#[derive(Drop)]
pub enum Ends<Src: Drop, Snk: Drop> {
    /// The source of a demuxer.
    Source(Src),
    /// The sink of a muxer.
    Sink(Snk),
    /// The part has neither, as a source filter's.
    Neither,
}

/// The kinds of node of a plan, each a machine, and all of one type `Part`.
pub trait Kinds<Src: Source + Send + Drop, Snk: Sink + Send + Drop, Part: Machine + Send + Drop> {
    /// What was read of an input before its packets.
    type Head: Drop;

    /// All that contracts see of them.
    ghost is: { KindsOf Self.Head };

    /// The heads of the streams that a head tells of, by number.
    fn streams(alloc: Global, head: &Self::Head) -> Result<Vec<StreamHead>, AllocError>
        ensures { IfOk result (λ streams. streams.items ≡ is.streams head.now) };

    /// The plan of a job with these heads of each of its inputs, or the refusal that comes first. `NoMemory` may come in place of any
    /// answer.
    fn plan(alloc: Global, job: &Job, heads: &[Vec<StreamHead>]) -> Result<Plan, PlanError>
        requires { IsWithinLimits job.now (lists heads.now) }
        ensures made { IfOk result (λ p. planned is.rules job.now (lists heads.now) ≡ Ok p) }
        ensures refused { IfErr result (IsRefused (planned is.rules job.now (lists heads.now))) };

    /// Cuts what a source gives into packets; it gives the input of this number from the first byte on, of which the streams
    /// of these numbers are used, each at an output. The source comes back where memory is refused.
    fn demuxer(
        alloc: Global,
        input: u32,
        head: &Self::Head,
        used: &[u32],
        src: Src,
    ) -> Result<Part, Src>
        requires head { is.IsHead head.now }
        requires used { AreUsed (is.streams head.now) used.now }
        ensures new { IfOk result (λ m. IsNew (Some input) [] (map (λ h. Packets h) (used_heads (is.streams head.now) used.now))
            (Src.name src) (Src.faults src) (Part.view m)) }
        ensures starts { IfOk result (λ m. (bytes : List ℕ) → Src.left src ≡ Some bytes → (Part.view m).stands (start (is.demux_task input head.now used.now bytes))) }
        ensures back { IfErr result (λ back. back ≡ src) };

    /// Gives the frames of a source filter, the source of this number.
    fn generator(alloc: Global, number: u32, made: Made) -> Part
        requires { is.CanMake made }
        ensures new { IsNew (Some number) [] (Frames (head_of made) ∷ []) None 0 (Part.view result) }
        ensures starts { (Part.view result).stands (start (is.gen_task number made)) };

    /// Decodes the packets of a stream, and cuts what that gives, for so many outputs.
    fn decoder(
        alloc: Global,
        head: &StreamHead,
        cut: TimeCut,
        outputs: usize,
    ) -> Result<Part, AllocError>
        requires can { is.CanDecode head.now }
        requires some { 1 ≤ outputs }
        ensures new { IfOk result (λ m. IsNew None (Packets head.now ∷ []) (replicate outputs (Frames head.now)) None 0 (Part.view m)) }
        ensures starts { IfOk result (λ m. (Part.view m).stands (start (is.dec_task head.now cut outputs))) };

    /// Filters frames of these heads, by the string of the graph of this number, and cuts what each of its outputs gives.
    fn graph(
        alloc: Global,
        number: u32,
        text: &Graph,
        heads: &[StreamHead],
        cuts: &[OutputCut],
    ) -> Result<Part, AllocError>
        requires { (made : List StreamHead) × is.CanFilter text.now heads.now made × (length cuts.now ≡ length made) }
        ensures new { IfOk result (λ m. (made : List StreamHead) → is.CanFilter text.now heads.now made
            → IsNew None (map (λ head. Frames head) heads.now) (map (λ head. Frames head) made) None 0 (Part.view m)) }
        ensures starts { IfOk result (λ m. (Part.view m).stands (start (is.graph_task number text.now heads.now cuts.now))) };

    /// Ends frames of streams with these heads with the shortest of the streams, or gives them as they are.
    fn shortest(alloc: Global, ends: bool, heads: &[StreamHead]) -> Result<Part, AllocError>
        requires { is.CanJoin heads.now }
        ensures new { IfOk result (λ m. IsNew None (map (λ head. Frames head) heads.now) (map (λ head. Frames head) heads.now) None 0 (Part.view m)) }
        ensures starts { IfOk result (λ m. (Part.view m).stands (start (is.shortest_task ends heads.now))) };

    /// Codes the frames of a stream as packets with this head.
    fn encoder(alloc: Global, head: &StreamHead, coded: &StreamHead) -> Result<Part, AllocError>
        requires { is.CanEncode head.now coded.now }
        ensures new { IfOk result (λ m. IsNew None (Frames head.now ∷ []) (Packets coded.now ∷ []) None 0 (Part.view m)) }
        ensures starts { IfOk result (λ m. (Part.view m).stands (start (is.enc_task head.now coded.now))) };

    /// Writes packets of streams with these heads to an output, over a sink that holds nothing; their numbers go from the first one
    /// on. The sink comes back where memory is refused.
    fn muxer(
        alloc: Global,
        first: u32,
        out: &OutputJob,
        coded: &[StreamHead],
        snk: Snk,
    ) -> Result<Part, Snk>
        requires can { is.CanMux out.now coded.now }
        requires numbers { first + length coded.now ≤ 2 ^ 32 }
        ensures new { IfOk result (λ m. IsNew None (map (λ head. Packets head) coded.now) [] (Snk.name snk) (Snk.faults snk) (Part.view m)) }
        ensures starts { IfOk result (λ m. Snk.holds snk ≡ Some [] → (Part.view m).stands (start (is.mux_task first out.now coded.now))) }
        ensures back { IfErr result (λ back. back ≡ snk) };

    /// Lets a part that gives packets and a part that takes them know of each other, where the queue between them
    /// holds so many. So the one may spare the other some work. Nothing that they mean changes.
    fn connect(
        alloc: Global,
        queue: usize,
        giver: &mut Part,
        taker: &mut Part,
    ) -> Result<(), AllocError>
        ensures giver { giver.new ≡ giver.old }
        ensures taker { taker.new ≡ taker.old };

    /// Under how many of its tickets, from the first on, a part has tried a unit.
    fn tried(part: &Part) -> u64
        ensures { result ≡ (Part.view part.now).tried };

    /// The source or the sink of a part, as it is now.
    fn into_ends(part: Part) -> Ends<Src, Snk>
        ensures { GivesEnds is Src.name Src.faults Snk.holds Snk.name Snk.faults (Part.view part) result };

    /// Each stream that a head tells of can be decoded,
    ghost decodes: { (h : Self.Head) → is.IsHead h → AllByRecursion is.CanDecode (is.streams h) };

    /// and what is true of the heads of frames is true of it.
    ghost frames: { (h : Self.Head) → is.IsHead h → AllByRecursion is.IsFrames (is.streams h) };

    /// The rules are such as plans ask for,
    ghost ruled: { AreRules is.rules };

    /// and keep what is true of the heads of frames.
    ghost kept: { AreKeptBy is.rules is.IsFrames };

    /// They make no graph of more than 16 inputs,
    ghost few: { HasFewIns is.rules };

    /// and an output that takes a stream takes what a graph of one input makes of it.
    ghost takes: { KeepsTaken is.rules };

    /// What the rules make can be had as a graph, and what its source filters give can be made,
    ghost filters: { GraphsAreHad is };

    ghost makes: { SourcesAreHad is };

    /// frames of some streams can go to an output together,
    ghost joins: { (heads : List StreamHead) → AllByRecursion is.IsFrames heads → 1 ≤ length heads → is.CanJoin heads };

    /// each can be coded as an output takes it,
    ghost encodes: { (h : StreamHead) (out : OutputJob) → is.IsFrames h → takes_head out h ≡ true → is.CanEncode h (packed_as out h) };

    /// and written to it: some streams, and no more than its format holds.
    ghost writes: { (hs : List StreamHead) (out : OutputJob) → AllByRecursion (λ h. is.IsFrames h × (takes_head out h ≡ true)) hs
        → 1 ≤ length hs → length hs ≤ most_streams out.format → is.CanMux out (map (λ h. packed_as out h) hs) };

    /// Each node tells of its own source or output alone.
    ghost own: { TellOfThemselves is };

    /// A part that is a source tells that it has exited, and tried no more than its stream and the end.
    ghost exits: { (m : Part) → TellsExit (Part.view m) };

    /// What is held of streams is held of longer ones.
    ghost holds_on: { (out : OutputJob) (coded : List StreamHead) (held : Option (List ℕ)) (rs ss : List Flow) → AllBelow (map opened rs) ss
        → HoldsPart held (is.text out coded rs) (is.file out coded rs) → HoldsPart held (is.text out coded ss) (is.file out coded ss) };
}
