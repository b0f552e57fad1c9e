//! A row, run on its filter.
use crate::play::{Play, Steps};
use crate::row::{Line, Row, add_problem};
use crate::sources::run_source;
use crate::table::Stop;
use crate::told::Told;
use ff_afilter::{ANull, ASetPts, ASplit, ChannelSplit, LastingATrim};
use ff_concat::Concat;
use ff_filter::Filter;
use ff_frame::{ConfigError, StreamHead};
use ff_fsync::{HStack, VStack};
use ff_joins::Join;
use ff_lang::{Filter as Named, SourceName, read_graph};
use ff_node_sync::Shortest;
use ff_vfilter::{Crop, Fps, HFlip, LastingTrim, Null, Pad, SetPts, Split, VFlip};
use std::alloc::{AllocError, Global};

// Why a filter is refused, as a line of a table.
fn refusal(error: ConfigError) -> &'static str {
    match error {
        ConfigError::UnknownFilter => "refused unknown filter\n",
        ConfigError::UnknownOption => "refused unknown option\n",
        ConfigError::BadOption => "refused bad option\n",
        ConfigError::Kind => "refused wrong kind\n",
        ConfigError::Pads => "refused wrong number of pads\n",
        ConfigError::Mismatch => "refused mismatch\n",
        ConfigError::BadSize => "refused bad size\n",
        ConfigError::NoMemory => "refused no memory\n",
    }
}

/// Whether what came is the row's answer of `configure`. Where it isn't, that is noted.
pub fn check_answer(row: &Row, problems: &mut Told, came: Result<String, Stop>) -> bool {
    match came {
        Ok(came) if came == row.answer => true,
        Ok(came) => {
            add_problem(problems, row.number, &[row.answer.as_str()], came.as_str());
            false
        }
        Err(stop) => {
            problems.fail(stop);
            false
        }
    }
}

// Does what a line says, and answers whether the row can go on.
fn do_step<P: Steps>(row: &Row, problems: &mut Told, play: &mut P, line: Line) -> bool {
    let mut told = Told::new(row.alloc);
    play.step(&mut told, line.kind, line.rest);
    let Line { number, kind, rest } = line;
    match told.finish() {
        Ok(came) => {
            if came.as_str() != rest {
                add_problem(problems, number, &[kind, " ", rest], came.as_str());
            }
            true
        }
        Err(Stop::Unreadable) => {
            let why = "a line that can't be done";
            add_problem(problems, number, &[kind, " ", rest], why);
            false
        }
        Err(Stop::Broken) => {
            problems.fail(Stop::Broken);
            false
        }
    }
}

/// Does what the lines of a row say, up to the first that can't be done.
pub fn do_steps<P: Steps>(row: &Row, problems: &mut Told, play: &mut P) {
    for line in row.steps.iter() {
        if !do_step(row, problems, play, *line) {
            return;
        }
    }
}

// Says what comes of the row on this filter.
fn play<F: Filter>(row: &Row, problems: &mut Told, filter: F, outs: Vec<StreamHead>)
where
    F: Drop,
{
    let mut play = Play {
        alloc: row.alloc,
        filter,
        ins: row.ins.as_slice(),
        outs,
    };
    let mut heads = Told::new(row.alloc);
    play.tell_heads(&mut heads);
    if check_answer(row, problems, heads.finish()) {
        do_steps(row, problems, &mut play);
    }
}

/// A filter that the row has refused, and that is refused.
pub fn end_refused(row: &Row, problems: &mut Told, error: ConfigError) {
    let came = String::from_str(row.alloc, refusal(error));
    if check_answer(row, problems, came.map_err(Stop::from)) && !row.steps.is_empty() {
        add_problem(problems, row.number, &["steps"], "a filter that is refused");
    }
}

// Runs a row on what `configure` made of it.
fn run<F: Filter>(row: &Row, problems: &mut Told, made: Result<(F, Vec<StreamHead>), ConfigError>)
where
    F: Drop,
{
    match made {
        Ok((filter, outs)) => play(row, problems, filter, outs),
        Err(error) => end_refused(row, problems, error),
    }
}

// The streams of one output, each up to the end of the shortest.
fn shortest(
    alloc: Global,
    heads: &[StreamHead],
) -> Result<(Shortest, Vec<StreamHead>), AllocError> {
    let machine = Shortest::new(alloc, heads.to_vec(alloc)?)?;
    Ok((machine, heads.to_vec(alloc)?))
}

// The row's filter can't be read.
fn add_unreadable(row: &Row, problems: &mut Told) {
    let why = "a filter that can't be read";
    add_problem(problems, row.number, &[row.filter], why);
}

// A row of the streams of one output.
fn run_shortest(row: &Row, problems: &mut Told) {
    match shortest(row.alloc, row.ins.as_slice()) {
        Ok(made) => run(row, problems, Ok(made)),
        Err(_) => problems.fail(Stop::Broken),
    }
}

// A row of a filter of several inputs.
fn run_several(row: &Row, problems: &mut Told, named: &Named) {
    let (alloc, args, heads) = (row.alloc, named.args.as_slice(), row.ins.as_slice());
    match named.name.as_str() {
        "hstack" => run(row, problems, HStack::configure(alloc, args, heads)),
        "vstack" => run(row, problems, VStack::configure(alloc, args, heads)),
        "concat" => run(row, problems, Concat::configure(alloc, args, heads)),
        "join" => run(row, problems, Join::configure(alloc, args, heads)),
        "shortest" => run_shortest(row, problems),
        _ => add_unreadable(row, problems),
    }
}

// A row of an audio filter with one input, or of several inputs.
fn run_sound(row: &Row, problems: &mut Told, named: &Named) {
    let (alloc, args, heads) = (row.alloc, named.args.as_slice(), row.ins.as_slice());
    match named.name.as_str() {
        "anull" => run(row, problems, ANull::configure(alloc, args, heads)),
        "atrim" => run(row, problems, LastingATrim::configure(alloc, args, heads)),
        "asetpts" => run(row, problems, ASetPts::configure(alloc, args, heads)),
        "asplit" => run(row, problems, ASplit::configure(alloc, args, heads)),
        "channelsplit" => run(row, problems, ChannelSplit::configure(alloc, args, heads)),
        _ => run_several(row, problems, named),
    }
}

// A row of any filter that is no source.
fn run_any(row: &Row, problems: &mut Told, named: &Named) {
    let (alloc, args, heads) = (row.alloc, named.args.as_slice(), row.ins.as_slice());
    match named.name.as_str() {
        "null" => run(row, problems, Null::configure(alloc, args, heads)),
        "trim" => run(row, problems, LastingTrim::configure(alloc, args, heads)),
        "setpts" => run(row, problems, SetPts::configure(alloc, args, heads)),
        "crop" => run(row, problems, Crop::configure(alloc, args, heads)),
        "pad" => run(row, problems, Pad::configure(alloc, args, heads)),
        "hflip" => run(row, problems, HFlip::configure(alloc, args, heads)),
        "vflip" => run(row, problems, VFlip::configure(alloc, args, heads)),
        "split" => run(row, problems, Split::configure(alloc, args, heads)),
        "fps" => run(row, problems, Fps::configure(alloc, args, heads)),
        _ => run_sound(row, problems, named),
    }
}

fn run_named(row: &Row, problems: &mut Told, named: &Named) {
    match SourceName::read(named.name.as_str()) {
        Some(name) => run_source(row, problems, name, named.args.as_slice()),
        None => run_any(row, problems, named),
    }
}

/// Runs a row on the one filter that its string names, and notes what doesn't hold.
pub fn run_row(row: &Row, problems: &mut Told) {
    let Ok(graph) = read_graph(row.alloc, row.filter) else {
        return add_unreadable(row, problems);
    };
    let [chain] = graph.chains.as_slice() else {
        return add_unreadable(row, problems);
    };
    match chain.filters.as_slice() {
        [named] => run_named(row, problems, named),
        _ => add_unreadable(row, problems),
    }
}
