//! Calls that read and print filtergraphs.
use crate::table::Stop;
use crate::told::Told;
use crate::words::Call;
use ff_lang::{
    Arg, Chain, Filter, Graph, LangError, Sequence, Text, graph_ok, print_graph, read_graph,
};

fn tell_labels(told: &mut Told, labels: &[Text]) {
    for label in labels {
        told.texts(&["<", label.as_str(), ">"]);
    }
}

fn tell_arg(told: &mut Told, arg: &Arg) {
    told.text("{");
    if let Some(key) = &arg.key {
        told.texts(&[key.as_str(), "|"]);
    }
    told.texts(&[arg.value.as_str(), "}"]);
}

fn tell_filter(told: &mut Told, filter: &Filter) {
    told.text(" ");
    tell_labels(told, filter.ins.as_slice());
    told.text(filter.name.as_str());
    for arg in filter.args.as_slice() {
        tell_arg(told, arg);
    }
    tell_labels(told, filter.outs.as_slice());
}

fn tell_chain(told: &mut Told, chain: &Chain) {
    told.text("/");
    for filter in chain.filters.as_slice() {
        tell_filter(told, filter);
    }
}

/// A graph: `/` before each chain, a blank before each filter, a label as `<LABEL>`, an argument as `{VALUE}` or `{KEY|VALUE}`.
pub fn tell_graph(told: &mut Told, graph: &Graph) {
    for chain in graph.chains.as_slice() {
        tell_chain(told, chain);
    }
}

/// `graph TEXT`: the graph of a string.
pub fn graph(call: &mut Call, told: &mut Told) {
    match read_graph(call.alloc, call.text(0)) {
        Ok(graph) => tell_graph(told, &graph),
        Err(LangError::Bad { at }) => {
            told.text("bad at ");
            told.count(at as u64);
        }
        Err(LangError::NoMemory) => call.misread(),
    }
}

/// `print TEXT`: the string that is printed of the graph of a string.
pub fn printed(call: &mut Call, told: &mut Told) {
    let Ok(graph) = read_graph(call.alloc, call.text(0)) else {
        return call.misread();
    };
    match print_graph(call.alloc, &graph) {
        Ok(text) => told.text(text.as_str()),
        Err(_) => told.fail(Stop::Broken),
    }
}

fn word(call: &mut Call, at: usize) -> Text {
    let text = call.text(at);
    Text::of(call.own(text))
}

// `[LABEL]NAME=KEY=1[LABEL]`
fn one_filter(call: &mut Call) -> Filter {
    let (name, key) = (word(call, 0), word(call, 1));
    let mut filter = Filter {
        ins: Sequence::new(call.alloc),
        name,
        args: Sequence::new(call.alloc),
        outs: Sequence::new(call.alloc),
    };
    let value = Text::of(call.own("1"));
    let arg = Arg {
        key: Some(key),
        value,
    };
    call.note(filter.args.push(arg));
    let (label, again) = (word(call, 2), word(call, 2));
    call.note(filter.ins.push(label));
    call.note(filter.outs.push(again));
    filter
}

// The chain of one filter, and after it an empty one where a fourth argument says so.
fn add_chains(call: &mut Call, graph: &mut Graph) {
    let mut filters = Sequence::new(call.alloc);
    let filter = one_filter(call);
    call.note(filters.push(filter));
    call.note(graph.chains.push(Chain { filters }));
    if call.len() > 3 {
        let filters = Sequence::new(call.alloc);
        call.note(graph.chains.push(Chain { filters }));
    }
}

/// `has_text NAME KEY LABEL`: whether the graph `[LABEL]NAME=KEY=1[LABEL]` has a string. `empty` after them adds a
/// chain without filters, and no arguments at all stand for a graph without chains.
pub fn has_text(call: &mut Call, told: &mut Told) {
    let mut graph = Graph {
        chains: Sequence::new(call.alloc),
    };
    if call.len() > 0 {
        add_chains(call, &mut graph);
    }
    told.text(if graph_ok(&graph) { "yes" } else { "no" });
}
