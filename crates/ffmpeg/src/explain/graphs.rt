//! The filter that a number means, in the graphs of a command line.
use crate::explain::line::CommandLine;
use crate::explain::told::Told;
use ff_filters::{FilterName, is_source, named, takes_sound};
use ff_lang::{Arg, Filter, Graph, LangError, read_graph};
use ff_words::Kind;
use std::alloc::{AllocError, Global};

/// How many outputs there may be.
const MOST: u32 = 16;

/// What the inputs of a filter take.
#[derive(Clone, Copy, Debug, PartialEq, Eq)]
pub(crate) enum Takes {
    /// Each takes video.
    Video,
    /// Each takes audio.
    Audio,
    /// The first takes video, the next audio, and so on.
    InTurn,
}

/// A filter as it is written.
#[derive(Drop)]
pub(crate) struct Written {
    /// Its name.
    pub(crate) name: String,
    /// Its name with its arguments.
    pub(crate) text: String,
    /// What its inputs take; nothing where no filter has the name.
    pub(crate) takes: Option<Takes>,
    /// Whether it is a source filter.
    pub(crate) is_source: bool,
}

// The name and the arguments, as in a filtergraph that needs no quotes.
fn tell_text(told: &mut Told, filter: &Filter) {
    told.text(filter.name.as_str());
    for (number, arg) in filter.args.as_slice().iter().enumerate() {
        told.text(if number == 0 { "=" } else { ":" });
        if let Some(key) = &arg.key {
            told.texts(&[key.as_str(), "="]);
        }
        told.text(arg.value.as_str());
    }
}

// The first two inputs tell: a filter takes one kind alone, or video and audio in turn.
fn taken(name: FilterName, args: &[Arg]) -> Takes {
    match (takes_sound(name, args, 0), takes_sound(name, args, 1)) {
        (false, false) => Takes::Video,
        (true, true) => Takes::Audio,
        _ => Takes::InTurn,
    }
}

fn as_written(alloc: Global, filter: &Filter) -> Result<Written, AllocError> {
    let (takes, is_source) = match named(filter.name.as_str()) {
        Some(name) => (Some(taken(name, filter.args.as_slice())), is_source(name)),
        None => (None, false),
    };
    let mut told = Told::new(alloc);
    tell_text(&mut told, filter);
    Ok(Written {
        name: String::from_str(alloc, filter.name.as_str())?,
        text: told.finish()?,
        takes,
        is_source,
    })
}

// The filter of this number, chain after chain.
fn filter_at(graph: &Graph, number: u32) -> Option<&Filter> {
    let mut left = number;
    for chain in graph.chains.as_slice().iter() {
        for filter in chain.filters.as_slice().iter() {
            if left == 0 {
                return Some(filter);
            }
            left -= 1;
        }
    }
    None
}

fn filter_in(alloc: Global, text: &str, number: u32) -> Result<Option<Written>, AllocError> {
    let graph = match read_graph(alloc, text) {
        Ok(graph) => graph,
        Err(LangError::Bad { .. }) => return Ok(None),
        Err(LangError::NoMemory) => return Err(AllocError),
    };
    match filter_at(&graph, number) {
        Some(filter) => Ok(Some(as_written(alloc, filter)?)),
        None => Ok(None),
    }
}

// The simple graphs of the outputs: the last `-vf` of each, and the last `-af`.
fn simple_graphs<'a>(alloc: Global, line: &CommandLine<'a>) -> Result<Vec<&'a str>, AllocError> {
    let mut graphs = Vec::new(alloc);
    for number in 0..MOST {
        let Some(output) = line.output(number) else {
            break;
        };
        if let Some(text) = line.last_value(output, Kind::VideoGraph) {
            graphs.push(text)?;
        }
        if let Some(text) = line.last_value(output, Kind::AudioGraph) {
            graphs.push(text)?;
        }
    }
    Ok(graphs)
}

// The filter of this number in a simple graph, of a name that there is or isn't. Which graph it is isn't known without the
// heads of the inputs: so it is told only where there is one such filter alone, or all are written alike.
fn simple_filter(
    alloc: Global,
    line: &CommandLine,
    number: u32,
    is_named: bool,
) -> Result<Option<Written>, AllocError> {
    let mut found: Option<Written> = None;
    for text in simple_graphs(alloc, line)?.iter() {
        let Some(filter) = filter_in(alloc, text, number)? else {
            continue;
        };
        if filter.takes.is_some() != is_named {
            continue;
        }
        if let Some(other) = &found
            && other.text.as_str() != filter.text.as_str()
        {
            return Ok(None);
        }
        found = Some(filter);
    }
    Ok(found)
}

/// A filter by its graph and its number there: the graphs over several streams come first.
pub(crate) fn filter_of(
    alloc: Global,
    line: &CommandLine,
    graph: u32,
    number: u32,
    is_named: bool,
) -> Result<Option<Written>, AllocError> {
    match line.value(Kind::Complex, graph) {
        Some(text) => filter_in(alloc, text, number),
        None => simple_filter(alloc, line, number, is_named),
    }
}
