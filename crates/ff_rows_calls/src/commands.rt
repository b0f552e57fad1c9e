//! Calls that read a command line.
use crate::lang::tell_graph;
use crate::maps::tell_map;
use crate::table::Stop;
use crate::told::Told;
use crate::words::Call;
use ff_format::{FORMATS, FileFormat, Rf64};
use ff_frame::{Codec, Format, HashKind};
use ff_lang::Graph;
use ff_time::TimeCut;
use ff_words::{Asked, Command, InputJob, Job, OutputJob, Solo, WordError, WordKind, read_words};

fn name_of_format(format: FileFormat) -> &'static str {
    for (name, _ending, listed, _read, _written) in FORMATS.iter() {
        if *listed == format {
            return *name;
        }
    }
    "unknown"
}

fn tell_if(told: &mut Told, holds: bool, word: &str) {
    if holds {
        told.texts(&[" ", word]);
    }
}

fn tell_cut(told: &mut Told, cut: TimeCut) {
    if cut.start > 0 {
        told.text(" from ");
        told.count(cut.start);
    }
    if let Some(length) = cut.length {
        told.text(" for ");
        told.count(length);
    }
}

fn tell_input(told: &mut Told, input: &InputJob) {
    told.texts(&["; in <", input.name.as_str(), ">"]);
    if let Some(format) = input.format {
        told.texts(&[" ", name_of_format(format)]);
    }
    tell_cut(told, input.cut);
}

fn tell_codec(told: &mut Told, kind: &str, codec: Option<Codec>) {
    if let Some(codec) = codec {
        told.texts(&[" ", kind]);
        told.texts(&[" ", codec.name()]);
    }
}

fn tell_named_graph(told: &mut Told, kind: &str, graph: &Graph) {
    told.texts(&[" ", kind, " ("]);
    tell_graph(told, graph);
    told.text(")");
}

fn tell_simple(told: &mut Told, kind: &str, graph: &Option<Graph>) {
    if let Some(graph) = graph {
        tell_named_graph(told, kind, graph);
    }
}

fn tell_maps(told: &mut Told, output: &OutputJob) {
    for map in output.maps.as_slice() {
        told.text(" map (");
        tell_map(told, map);
        told.text(")");
    }
}

fn tell_number(told: &mut Told, what: &str, number: Option<u32>) {
    if let Some(number) = number {
        told.text(what);
        told.count(u64::from(number));
    }
}

fn pixels_name(pixels: Format) -> &'static str {
    match pixels {
        Format::C420 => " yuv420p",
        Format::C422 => " yuv422p",
        Format::C444 => " yuv444p",
        Format::Mono => " gray",
    }
}

// What the streams of an output are asked to be; frames a second are told by their time base.
fn tell_asked(told: &mut Told, asked: Asked) {
    tell_number(told, " rate ", asked.rate);
    tell_number(told, " channels ", asked.channels);
    if let Some(pixels) = asked.pixels {
        told.text(pixels_name(pixels));
    }
    if let Some(base) = asked.base {
        told.text(" base ");
        told.number(base.num());
        told.text("/");
        told.number(base.den());
    }
    if let Some(size) = asked.size {
        told.text(" size ");
        told.count(u64::from(size.width));
        told.text("x");
        told.count(u64::from(size.height));
    }
}

fn tell_output(told: &mut Told, output: &OutputJob) {
    told.texts(&["; out <", output.name.as_str(), "> "]);
    told.text(name_of_format(output.format));
    tell_maps(told, output);
    tell_codec(told, "audio", output.audio);
    tell_codec(told, "video", output.video);
    tell_simple(told, "vf", &output.vf);
    tell_simple(told, "af", &output.af);
    tell_if(told, output.no_audio, "no-audio");
    tell_if(told, output.no_video, "no-video");
    tell_cut(told, output.cut);
    if let Some(frames) = output.frames {
        told.text(" frames ");
        told.count(u64::from(frames));
    }
    tell_asked(told, output.asked);
    tell_if(told, output.shortest, "shortest");
    tell_if(told, output.hash == HashKind::Md5, "md5");
    tell_if(told, output.rf64 == Rf64::Auto, "rf64-auto");
    tell_if(told, output.rf64 == Rf64::Always, "rf64-always");
}

// What concerns the whole command, then the inputs, then the outputs; of an output its digest is told where it is MD5,
// and RF64 where it may be.
fn tell_job(told: &mut Told, job: &Job) {
    told.text("queue ");
    told.count(u64::from(job.queue));
    if let Some(trace) = &job.trace {
        told.texts(&[" trace <", trace.as_str(), ">"]);
    }
    tell_if(told, job.keeps, "keeps");
    for graph in job.graphs.as_slice() {
        tell_named_graph(told, "graph", graph);
    }
    for input in job.inputs.as_slice() {
        tell_input(told, input);
    }
    for output in job.outputs.as_slice() {
        tell_output(told, output);
    }
}

fn tell_place(told: &mut Told, what: &str, at: usize) {
    told.text(what);
    told.count(at as u64);
}

fn tell_kind(told: &mut Told, kind: WordKind) {
    match kind {
        WordKind::UnknownOption => told.text("unknown option"),
        WordKind::MissingValue => told.text("missing value"),
        WordKind::BadValue => told.text("bad value"),
        WordKind::BadTime { at } => tell_place(told, "bad time at ", at),
        WordKind::BadMap { at } => tell_place(told, "bad map at ", at),
        WordKind::BadGraph { at } => tell_place(told, "bad graph at ", at),
        WordKind::Misplaced => told.text("misplaced option"),
        WordKind::TooMany => told.text("too many"),
        WordKind::NoInput => told.text("no input"),
        WordKind::NoOutput => told.text("no output"),
        WordKind::SameName => told.text("same name"),
    }
}

fn tell_solo(told: &mut Told, solo: Solo) {
    match solo {
        Solo::Help => told.text("help"),
        Solo::Version => told.text("version"),
        Solo::SelfRun(seconds) => {
            told.text("selfrun ");
            told.count(u64::from(seconds));
        }
    }
}

fn tell_read(told: &mut Told, read: Result<Command, WordError>) {
    match read {
        Ok(Command::Run(job)) => tell_job(told, &job),
        Ok(Command::Solo(solo)) => tell_solo(told, solo),
        Err(WordError::At { word, kind }) => {
            told.text("word ");
            told.count(u64::from(word));
            told.text(": ");
            tell_kind(told, kind);
        }
        Err(WordError::NoMemory) => told.fail(Stop::Broken),
    }
}

/// `command WORD..`: what the arguments ask for.
pub fn command(call: &mut Call, told: &mut Told) {
    tell_read(told, read_words(call.alloc, call.all()));
}

// So many arguments of a string more.
fn add_words(call: &mut Call, out: &mut Vec<String>, at: usize) {
    let times = call.number(at);
    let Ok(text) = String::from_utf8(call.bytes(at.saturating_add(1))) else {
        return call.misread();
    };
    for _ in 0..times {
        let text = call.own(text.as_str());
        if !call.note(out.push(text)) {
            return;
        }
    }
}

/// `command_of TIMES BYTES ..`: the same of so many arguments of a string, then so many of the next, and so on. Each
/// string is told as bytes are.
pub fn made(call: &mut Call, told: &mut Told) {
    let mut made = Vec::new(call.alloc);
    for pair in 0..call.len() / 2 {
        add_words(call, &mut made, pair * 2);
    }
    tell_read(told, read_words(call.alloc, made.as_slice()));
}
