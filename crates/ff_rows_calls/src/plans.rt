//! Calls that plan a command over inputs with given streams.
use crate::maps::streams;
use crate::table::Stop;
use crate::told::Told;
use crate::words::Call;
use ff_frame::{ConfigError, StreamHead};
use ff_lang::Text;
use ff_plan::{Plan, PlanNode, plan};
use ff_plan_layout::{PlanError, is_within_limits};
use ff_plan_rules::GraphRules;
use ff_sched::Way;
use ff_stream::{Edge, Lane};
use ff_words::{Command, Job, read_words};

// A word, and a number after it.
fn tell_numbered(told: &mut Told, what: &str, number: u32) {
    told.text(what);
    told.count(u64::from(number));
}

fn tell_node(told: &mut Told, node: PlanNode) {
    match node {
        PlanNode::Demux { input } => tell_numbered(told, "demux ", input),
        PlanNode::Gen { source } => tell_numbered(told, "gen ", source),
        PlanNode::Dec { stream } => {
            tell_numbered(told, "dec ", stream.input);
            tell_numbered(told, ":", stream.stream);
        }
        PlanNode::Graph { graph } => tell_numbered(told, "graph ", graph),
        PlanNode::Shortest { output } => tell_numbered(told, "shortest ", output),
        PlanNode::Enc { output, stream } => {
            tell_numbered(told, "enc ", output);
            tell_numbered(told, " ", stream);
        }
        PlanNode::Mux { output } => tell_numbered(told, "mux ", output),
    }
}

fn name_of(lane: &Lane) -> &'static str {
    match lane {
        Lane::Frames(_) => "frames",
        Lane::Packets(StreamHead::Audio { codec, .. }) => codec.name(),
        Lane::Packets(StreamHead::Video { .. }) => "rawvideo",
    }
}

fn tell_edge(told: &mut Told, edge: &Edge) {
    told.counts(".", &[u64::from(edge.from), u64::from(edge.out_port)]);
    told.text(" to ");
    told.counts(".", &[u64::from(edge.to), u64::from(edge.in_port)]);
    told.texts(&[" ", name_of(&edge.lane)]);
}

fn tell_way(told: &mut Told, way: Way) {
    match way {
        Way::Source(source) => tell_numbered(told, "source ", source),
        Way::Graph(graph) => tell_numbered(told, "graph ", graph),
    }
}

fn tell_plan(told: &mut Told, plan: &Plan) {
    for node in plan.nodes.as_slice() {
        tell_node(told, *node);
        told.text(", ");
    }
    for edge in plan.edges.as_slice() {
        tell_edge(told, edge);
        told.text(", ");
    }
    tell_numbered(told, "of ", plan.routes.sources);
    for number in 0..plan.routes.streams.len() {
        if let Some(way) = plan.routes.streams.get(number) {
            told.text(", ");
            tell_way(told, way);
        }
    }
}

fn reason(kind: ConfigError) -> &'static str {
    match kind {
        ConfigError::UnknownFilter => "unknown filter",
        ConfigError::UnknownOption => "unknown option",
        ConfigError::BadOption => "bad option",
        ConfigError::Kind => "wrong kind",
        ConfigError::Pads => "wrong number of pads",
        ConfigError::Mismatch => "mismatch",
        ConfigError::BadSize => "bad size",
        ConfigError::NoMemory => "out of memory",
    }
}

fn tell_label(told: &mut Told, before: &str, label: &Text, behind: &str) {
    told.text(before);
    told.text(label.as_str());
    told.text(behind);
}

fn tell_config(told: &mut Told, graph: u32, filter: u32, kind: ConfigError) {
    tell_numbered(told, "graph ", graph);
    tell_numbered(told, " filter ", filter);
    told.texts(&[": ", reason(kind)]);
}

fn tell_error(told: &mut Told, error: PlanError) {
    match error {
        PlanError::NoStream { output, map } => {
            tell_numbered(told, "output ", output);
            tell_numbered(told, " map ", map);
            told.text(": no stream");
        }
        PlanError::NoStreams { output } => {
            tell_numbered(told, "output ", output);
            told.text(": no streams");
        }
        PlanError::UnknownLabel { label } => tell_label(told, "unknown label ", &label, ""),
        PlanError::UnusedLabel { label } => tell_label(told, "unused label ", &label, ""),
        PlanError::LabelTwice { label } => tell_label(told, "label ", &label, " used twice"),
        PlanError::Loop { graph } => tell_numbered(told, "loop in graph ", graph),
        PlanError::Config {
            graph,
            filter,
            kind,
        } => tell_config(told, graph, filter, kind),
        PlanError::Takes { output, stream } => {
            tell_numbered(told, "output ", output);
            tell_numbered(told, " stream ", stream);
            told.text(": not taken");
        }
        PlanError::TooManyStreams => told.text("too many streams"),
        PlanError::TooManyGraphs => told.text("too many graphs"),
        PlanError::TooManySources => told.text("too many sources"),
        PlanError::NoMemory => told.fail(Stop::Broken),
    }
}

fn planned(call: &mut Call, told: &mut Told, job: &Job, heads: &[Vec<StreamHead>]) {
    if !is_within_limits(job, heads) {
        return call.misread();
    }
    match plan(call.alloc, &GraphRules, job, heads) {
        Ok(plan) => tell_plan(told, &plan),
        Err(error) => tell_error(told, error),
    }
}

// The streams of so many inputs, which stand from the second argument on.
fn inputs(call: &mut Call, count: usize) -> Vec<Vec<StreamHead>> {
    let mut heads = Vec::new(call.alloc);
    for at in 0..count {
        let streams = streams(call, at.saturating_add(1));
        call.note(heads.push(streams));
    }
    heads
}

/// `plan INPUTS STREAMS.. WORD..`: the plan of the command of these arguments, where so many inputs have these streams.
pub fn plan_of(call: &mut Call, told: &mut Told) {
    let most = call.len() as u64;
    let count = call.up_to(0, most) as usize;
    let heads = inputs(call, count);
    let mut rest = Vec::new(call.alloc);
    for place in count.saturating_add(1)..call.len() {
        let word = call.text(place);
        let word = call.own(word);
        call.note(rest.push(word));
    }
    match read_words(call.alloc, rest.as_slice()) {
        Ok(Command::Run(job)) => planned(call, told, &job, heads.as_slice()),
        _ => call.misread(),
    }
}
