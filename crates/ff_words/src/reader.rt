//! The state of the one pass over the arguments.
ghost use Rattle.std.specs.Prelude.{◌≡◌, ◌<◌, ◌≤◌, ◌+◌, OnOk, None, [], List, length};
ghost use Rattle.ff_words.specs.laws.Reading.{Ended, written_names, word_at, Steps, token_at, width, full, Given, pending_format, with_output, repeats_from};
ghost use Rattle.ff_words.specs.laws.Reading.{output_wrong as wrong_output, input_wrong as wrong_input, with_input, Taken, pending, reader, noted, valued};
ghost use Rattle.ff_words.specs.laws.Reading.{optioned, place_unless, early_in};
ghost use Rattle.ff_words.specs.Words.{none_asked, repeats, texts, is_too_much as never_too_much, is_dashed as dashed};
ghost use Rattle.ff_words.specs.Words.{is_twice, lacks_input, name_as as name_by_format, job_name as name_of_job, is_output as can_be_output, file_names, output_file, Entry};
ghost use Rattle.ff_words.specs.Names.{stdin};
ghost use Rattle.ff_words.specs.Words.{not_before_input as never_before_input, not_before_output as never_before_output, not_at_end as never_at_end, word_count};
ghost use Rattle.ff_words.specs.Values.{switched};
ghost use Rattle.std.specs.Prelude.{map, option_map, option_to_list, ◌&&◌, ◌||◌};
ghost use Rattle.ff_format.specs.Formats.{has_file};
ghost use Rattle.std.specs.List.{list_any};
ghost use Rattle.std.specs.Str.{bytes_eq};
ghost use Rattle.ff_lang.specs.Sources.{has_source as has_source_by};
ghost use Rattle.ff_words.specs.declared.job.InputJob.{InputJob};
ghost use Rattle.ff_words.specs.declared.job.OutputJob.{OutputJob};

use crate::cuts::{CutEnd, cut, early_end};
use crate::error::{Fault, WordError, WordKind};
use crate::job::{Asked, Command, InputJob, Job, OutputJob, Solo};
use crate::maps::MapSpec;
use crate::naming::output_name;
use crate::read_value::{read_value, text_of};
use crate::table::{Concern, Kind, Rule, find_option, format_ending};
use crate::value::{Micros, Value};
use ff_format::{FileFormat, Rf64};
use ff_frame::{Codec, HashKind};
use ff_lang::{Graph, Sequence, Text, has_source};
use std::alloc::{AllocError, Global};
use std::mem;

// How many inputs, outputs, maps of an output and graphs there may be.
const MOST: usize = 16;

/// The options that wait for their file.
#[derive(Drop)]
pub(crate) struct Pending {
    // The first that can't stand before an input, before an output, and at the end.
    before_input: Option<u32>,
    before_output: Option<u32>,
    at_end: Option<u32>,
    format: Option<FileFormat>,
    // The place of the format's value where no input has it, and where no output has.
    unreadable: Option<u32>,
    unwritable: Option<u32>,
    start: Option<Micros>,
    length: Option<Micros>,
    end: Option<CutEnd>,
    maps: Sequence<MapSpec>,
    audio: Option<Codec>,
    video: Option<Codec>,
    vf: Option<Graph>,
    af: Option<Graph>,
    no_audio: bool,
    no_video: bool,
    frames: Option<u32>,
    asked: Asked,
    shortest: bool,
    hash: Option<HashKind>,
    rf64: Option<Rf64>,
}

/// All that was read.
#[derive(Drop)]
pub(crate) struct Reader {
    queue: u32,
    trace: Option<Text>,
    keeps: bool,
    solo: Option<Solo>,
    graphs: Sequence<Graph>,
    inputs: Sequence<InputJob>,
    outputs: Sequence<OutputJob>,
    pending: Pending,
}

fn not_before_input(concern: Concern) -> bool
    ensures { result ≡ never_before_input concern }
{
    match concern {
        Concern::Alone | Concern::Output => true,
        _ => false,
    }
}

fn not_before_output(concern: Concern) -> bool
    ensures { result ≡ never_before_output concern }
{
    match concern {
        Concern::Alone => true,
        _ => false,
    }
}

fn not_at_end(concern: Concern) -> bool
    ensures { result ≡ never_at_end concern }
{
    match concern {
        Concern::All | Concern::Itself => false,
        _ => true,
    }
}

// The place of a format's value, unless the format can be had.
fn unless(done: bool, at: u32) -> Option<u32>
    requires { at < 1024 }
    ensures { result ≡ place_unless done at }
{
    if done { None } else { Some(at + 1) }
}

// What the streams of an output are asked to be without an option for it.
fn nothing_asked() -> Asked
    ensures { result ≡ none_asked }
{
    Asked {
        rate: None,
        channels: None,
        pixels: None,
        base: None,
        size: None,
    }
}

impl Pending {
    fn new(alloc: Global) -> Pending
        ensures { result ≡ pending [] }
    {
        Pending {
            before_input: None,
            before_output: None,
            at_end: None,
            format: None,
            unreadable: None,
            unwritable: None,
            start: None,
            length: None,
            end: None,
            maps: Sequence::new(alloc),
            audio: None,
            video: None,
            vf: None,
            af: None,
            no_audio: false,
            no_video: false,
            frames: None,
            asked: nothing_asked(),
            shortest: false,
            hash: None,
            rf64: None,
        }
    }

    // An option by its concern.
    fn note(&mut self, at: u32, concern: Concern)
        ensures { self.new ≡ noted at concern self.old }
    {
        if self.before_input.is_none() && not_before_input(concern) {
            self.before_input = Some(at);
        }
        if self.before_output.is_none() && not_before_output(concern) {
            self.before_output = Some(at);
        }
        if self.at_end.is_none() && not_at_end(concern) {
            self.at_end = Some(at);
        }
    }

    // What is wrong with the end of the cut.
    fn early_end(&self) -> Option<Fault>
        ensures { result ≡ early_in self.now }
    {
        early_end(self.start, self.length, self.end)
    }

    // An option by its value; one that doesn't concern a file changes nothing.
    fn set(&mut self, at: u32, value: Value) -> Result<(), AllocError>
        requires { at < 1024 }
        ensures { OnOk result (self.new ≡ valued at value self.old) }
    {
        match value {
            Value::Format {
                format,
                read,
                written,
            } => {
                self.format = Some(format);
                self.unreadable = unless(read, at);
                self.unwritable = unless(written, at);
            }
            Value::Start(us) => self.start = Some(us),
            Value::Length(us) => self.length = Some(us),
            Value::End { end, len } => {
                let word = at + 1;
                self.end = Some(CutEnd { end, word, len });
            }
            Value::Map(map) => self.maps.push(map)?,
            Value::AudioCodec(codec) => self.audio = Some(codec),
            Value::VideoCodec(codec) => self.video = Some(codec),
            Value::VideoGraph(graph) => self.vf = Some(graph),
            Value::AudioGraph(graph) => self.af = Some(graph),
            Value::NoAudio => self.no_audio = true,
            Value::NoVideo => self.no_video = true,
            Value::Shortest => self.shortest = true,
            Value::Frames(frames) => self.frames = Some(frames),
            Value::Rate(rate) => self.asked.rate = Some(rate),
            Value::Channels(channels) => self.asked.channels = Some(channels),
            Value::Pixels(pixels) => self.asked.pixels = Some(pixels),
            Value::FrameRate(base) => self.asked.base = Some(base),
            Value::Size(size) => self.asked.size = Some(size),
            Value::Hash(hash) => self.hash = Some(hash),
            Value::Rf64(rf64) => self.rf64 = Some(rf64),
            _value => {}
        }
        Ok(())
    }
}

impl Reader {
    /// A reader that has read nothing.
    pub(crate) fn new(alloc: Global) -> Reader
        ensures { result ≡ reader [] }
    {
        Reader {
            queue: 8,
            trace: None,
            keeps: false,
            solo: None,
            graphs: Sequence::new(alloc),
            inputs: Sequence::new(alloc),
            outputs: Sequence::new(alloc),
            pending: Pending::new(alloc),
        }
    }

    // One more option.
    fn add(&mut self, at: u32, concern: Concern, value: Value) -> Result<(), AllocError>
        requires { at < 1024 }
        ensures { OnOk result (self.new ≡ optioned (record { at = at; concern = concern; value = value }) self.old) }
    {
        self.pending.note(at, concern);
        match value {
            Value::Queue(size) => self.queue = size,
            Value::Trace(name) => self.trace = Some(name),
            Value::Keeps(keeps) => self.keeps = keeps,
            Value::Solo(solo) => self.solo = Some(solo),
            Value::Complex(graph) => self.graphs.push(graph)?,
            value => self.pending.set(at, value)?,
        }
        Ok(())
    }

    // What is wrong with an input here.
    fn input_wrong(&self, at: u32) -> Option<Fault>
        requires { at < 1024 }
        ensures { result ≡ wrong_input at self.now }
    {
        if let Some(word) = self.pending.before_input {
            return Some(Fault {
                word,
                kind: WordKind::Misplaced,
            });
        }
        if self.inputs.as_slice().len() >= MOST {
            return Some(Fault {
                word: at + 1,
                kind: WordKind::TooMany,
            });
        }
        if let Some(fault) = self.pending.early_end() {
            return Some(fault);
        }
        match self.pending.unreadable {
            Some(word) => Some(Fault {
                word,
                kind: WordKind::BadValue,
            }),
            None => None,
        }
    }

    // An input with the options that wait.
    fn add_input(&mut self, alloc: Global, name: Text) -> Result<(), AllocError>
        ensures { OnOk result (self.new ≡ with_input name self.old) }
    {
        let own = mem::replace(&mut self.pending, Pending::new(alloc));
        self.inputs.push(InputJob {
            name,
            format: own.format,
            cut: cut(own.start, own.length, own.end),
        })
    }

    // The format of an output whose name's ending tells this one.
    fn output_format(&self, ending: Option<FileFormat>) -> Option<FileFormat>
        ensures { result ≡ pending_format self.now.pending ending }
    {
        match self.pending.format {
            Some(format) => Some(format),
            None => ending,
        }
    }

    // What is wrong with an output here.
    fn output_wrong(&self, at: u32, word: &str, ending: Option<FileFormat>) -> Option<Fault>
        ensures { result ≡ wrong_output at word.now ending self.now }
    {
        if let Some(word) = self.pending.before_output {
            return Some(Fault {
                word,
                kind: WordKind::Misplaced,
            });
        }
        if self.outputs.as_slice().len() >= MOST {
            return Some(Fault {
                word: at,
                kind: WordKind::TooMany,
            });
        }
        if let Some(fault) = self.pending.early_end() {
            return Some(fault);
        }
        if let Some(word) = self.pending.unwritable {
            return Some(Fault {
                word,
                kind: WordKind::BadValue,
            });
        }
        if is_output(word, self.output_format(ending)) {
            None
        } else {
            Some(Fault {
                word: at,
                kind: WordKind::BadValue,
            })
        }
    }

    // An output with the options that wait.
    fn add_output(
        &mut self,
        alloc: Global,
        word: Text,
        format: FileFormat,
    ) -> Result<(), AllocError>
        ensures { OnOk result (self.new ≡ with_output (name_of_job format word) format self.old) }
    {
        let name = text_of(alloc, job_name(format, word.as_str()))?;
        let own = mem::replace(&mut self.pending, Pending::new(alloc));
        self.outputs.push(OutputJob {
            name,
            format,
            maps: own.maps,
            audio: own.audio,
            video: own.video,
            vf: own.vf,
            af: own.af,
            no_audio: own.no_audio,
            no_video: own.no_video,
            cut: cut(own.start, own.length, own.end),
            frames: own.frames,
            asked: own.asked,
            shortest: own.shortest,
            hash: own.hash.unwrap_or(format.default_hash()),
            rf64: own.rf64.unwrap_or(Rf64::Never),
        })
    }

    // A value after what was read.
    fn take(
        &mut self,
        alloc: Global,
        at: u32,
        concern: Concern,
        value: Value,
    ) -> Result<(), WordError>
        requires { at < 1024 }
        ensures { (es : List Entry) → self.old ≡ reader es → Taken es at concern value result self.new }
    {
        match value {
            Value::Input(name) => {
                match self.input_wrong(at) {
                    Some(fault) => return Err(fault.error()),
                    None => {}
                }
                self.add_input(alloc, name)?;
                Ok(())
            }
            Value::Output(word, ending) => {
                match self.output_wrong(at, word.as_str(), ending) {
                    Some(fault) => return Err(fault.error()),
                    None => {}
                }
                match self.output_format(ending) {
                    Some(format) => self.add_output(alloc, word, format)?,
                    None => {}
                }
                Ok(())
            }
            value => {
                self.add(at, concern, value)?;
                Ok(())
            }
        }
    }

    // Whether one more of this kind is the 17th of those that add up.
    fn is_full(&self, kind: Kind) -> bool
        ensures { result ≡ full kind self.now }
    {
        match kind {
            Kind::Map => self.pending.maps.as_slice().len() >= MOST,
            Kind::Complex => self.graphs.as_slice().len() >= MOST,
            _ => false,
        }
    }

    // The value of an option.
    fn given(&mut self, alloc: Global, at: u32, rule: Rule, text: &str) -> Result<(), WordError>
        requires bound { at < 1024 }
        requires valued { switched rule.kind ≡ None }
        ensures { (es : List Entry) → self.old ≡ reader es → Given es at rule text.now result self.new }
    {
        if self.is_full(rule.kind) {
            return Err(WordError::At {
                word: at,
                kind: WordKind::TooMany,
            });
        }
        if is_too_much(at as usize + 1, text) {
            return Err(WordError::At {
                word: at + 1,
                kind: WordKind::TooMany,
            });
        }
        match read_value(alloc, rule.kind, text)? {
            Ok(value) => self.take(alloc, at, rule.concern, value),
            Err(kind) => Err(WordError::At { word: at + 1, kind }),
        }
    }

    /// The token at a place, after what was read.
    pub(crate) fn token(
        &mut self,
        alloc: Global,
        words: &[String],
        at: usize,
    ) -> Result<(), WordError>
        requires there { at < length words.now }
        requires bound { at ≤ 1025 }
        ensures step { (es : List Entry) → self.old ≡ reader es → Steps es (token_at (texts words.now) at) result self.new }
        ensures bound { OnOk result (at < 1024) }
    {
        let word = word_text(words, at);
        if is_too_much(at, word) {
            return Err(WordError::At {
                word: at as u32,
                kind: WordKind::TooMany,
            });
        }
        if !is_dashed(word) {
            let ending = format_ending(word);
            let name = text_of(alloc, word)?;
            return self.take(
                alloc,
                at as u32,
                Concern::Itself,
                Value::Output(name, ending),
            );
        }
        match find_option(word) {
            None => Err(WordError::At {
                word: at as u32,
                kind: WordKind::UnknownOption,
            }),
            Some(rule) => match valueless(rule.kind) {
                Some(value) => self.take(alloc, at as u32, rule.concern, value),
                None => {
                    if at + 1 < words.len() {
                        let text = word_text(words, at + 1);
                        self.given(alloc, at as u32, rule, text)
                    } else {
                        Err(WordError::At {
                            word: at as u32,
                            kind: WordKind::MissingValue,
                        })
                    }
                }
            },
        }
    }

    // Whether no file is read, and no graph makes a stream.
    fn lacks_input(&self) -> bool
        ensures { result ≡ lacks_input self.now.inputs self.now.graphs }
    {
        self.inputs.as_slice().len() == 0 && !has_sources(self.graphs.as_slice())
    }

    // Whether what is written has a name twice, or that of what is read.
    fn same_name(&self) -> bool
        ensures { result ≡ repeats (written_names self.now) (map (λ (i : InputJob). i.name) self.now.inputs) }
    {
        let outputs = self.outputs.as_slice();
        let mut at = 0;
        'outputs: while at < outputs.len() {
            let output = &outputs[at];
            if self.is_file_repeated(at + 1, output) {
                return true;
            }
            at += 1;
        }
        self.trace_is_read()
    }

    // The same, or that standard input is read twice.
    fn shares_name(&self) -> bool
        ensures { result ≡ (repeats (written_names self.now) (map (λ (i : InputJob). i.name) self.now.inputs)
            || is_twice stdin (map (λ (i : InputJob). i.name) self.now.inputs)) }
    {
        self.same_name() || is_input_twice(self.inputs.as_slice(), "/dev/stdin")
    }

    fn trace_is_read(&self) -> bool
        ensures { result ≡ repeats (option_to_list self.now.trace) (map (λ (i : InputJob). i.name) self.now.inputs) }
    {
        match &self.trace {
            Some(name) => is_input_name(self.inputs.as_slice(), name.as_str()),
            None => false,
        }
    }

    // Whether an output is a file whose name one of the outputs from a place on, the trace or an input has.
    fn is_file_repeated(&self, from: usize, output: &OutputJob) -> bool
        requires { from ≤ length self.now.outputs }
        ensures { result ≡ (has_file output.now.format && repeats_from self.now from output.now.name) }
    {
        output.format.has_file() && self.is_repeated(from, output.name.as_str())
    }

    // Whether one of the files of the outputs from a place on, the trace or an input has this name.
    fn is_repeated(&self, from: usize, name: &str) -> bool
        requires { from ≤ length self.now.outputs }
        ensures { result ≡ repeats_from self.now from name.now }
    {
        is_output_name(&self.outputs.as_slice()[from..], name)
            || self.is_trace(name)
            || is_input_name(self.inputs.as_slice(), name)
    }

    fn is_trace(&self, name: &str) -> bool
        ensures { result ≡ list_any (λ m. bytes_eq m name.now) (option_to_list self.now.trace) }
    {
        match &self.trace {
            Some(trace) => trace.as_str() == name,
            None => false,
        }
    }

    /// The command, or what is wrong at the end of so many arguments.
    pub(crate) fn end(self, count: usize) -> Result<Command, WordError>
        requires { count ≤ 1025 }
        ensures { Ended count self result }
    {
        if let Some(solo) = self.solo {
            if count == word_count_of(solo) {
                return Ok(Command::Solo(solo));
            }
        }
        if let Some(word) = self.pending.at_end {
            return Err(WordError::At {
                word,
                kind: WordKind::Misplaced,
            });
        }
        if let Some(solo) = self.solo {
            return Ok(Command::Solo(solo));
        }
        if self.lacks_input() {
            return Err(WordError::At {
                word: count as u32,
                kind: WordKind::NoInput,
            });
        }
        if self.outputs.as_slice().len() == 0 {
            return Err(WordError::At {
                word: count as u32,
                kind: WordKind::NoOutput,
            });
        }
        if self.shares_name() {
            return Err(WordError::At {
                word: count as u32,
                kind: WordKind::SameName,
            });
        }
        Ok(Command::Run(Job {
            queue: self.queue,
            trace: self.trace,
            keeps: self.keeps,
            graphs: self.graphs,
            inputs: self.inputs,
            outputs: self.outputs,
        }))
    }
}

// How many arguments such an option is, with its value.
fn word_count_of(solo: Solo) -> usize
    ensures { result ≡ word_count solo }
{
    match solo {
        Solo::Help | Solo::Version => 1,
        Solo::SelfRun(_) => 2,
    }
}

// Whether some graph makes a stream.
fn has_sources(graphs: &[Graph]) -> bool
    ensures { result ≡ list_any has_source_by graphs.now }
{
    for graph in graphs.iter() {
        if has_source(graph) {
            return true;
        }
    }
    false
}

// Whether an output is a file of this name.
fn is_file_of(output: &OutputJob, name: &str) -> bool
    ensures { result ≡ list_any (λ m. bytes_eq m name.now) (option_to_list (output_file output.now)) }
{
    output.format.has_file() && output.name.as_str() == name
}

fn is_output_name(outputs: &[OutputJob], name: &str) -> bool
    ensures { result ≡ list_any (λ m. bytes_eq m name.now) (file_names outputs.now) }
{
    for output in outputs.iter() {
        if is_file_of(output, name) {
            return true;
        }
    }
    false
}

fn is_input_name(inputs: &[InputJob], name: &str) -> bool
    ensures { result ≡ list_any (λ m. bytes_eq m name.now) (map (λ (i : InputJob). i.name) inputs.now) }
{
    for input in inputs.iter() {
        if input.name.as_str() == name {
            return true;
        }
    }
    false
}

// Whether two inputs have this name.
fn is_input_twice(inputs: &[InputJob], name: &str) -> bool
    ensures { result ≡ is_twice name.now (map (λ (i : InputJob). i.name) inputs.now) }
{
    let mut seen = false;
    for input in inputs.iter() {
        if input.name.as_str() == name {
            if seen {
                return true;
            }
            seen = true;
        }
    }
    false
}

// The name of an output of this format, of its word.
fn name_as(format: FileFormat, word: &str) -> Option<&str>
    ensures { option_map (λ s. s.now) result ≡ name_by_format format word.now }
{
    if format.has_file() {
        output_name(word)
    } else {
        Some(word)
    }
}

// The same, and where the word gives no name the word.
fn job_name(format: FileFormat, word: &str) -> &str
    ensures { result.now ≡ name_of_job format word.now }
{
    match name_as(format, word) {
        Some(name) => name,
        None => word,
    }
}

// Whether the word is an output of this format.
fn is_output(word: &str, format: Option<FileFormat>) -> bool
    ensures { result ≡ can_be_output word.now format }
{
    match format {
        Some(format) => match name_as(format, word) {
            Some(name) => name.len() != 0,
            None => false,
        },
        None => false,
    }
}

fn word_text(words: &[String], place: usize) -> &str
    requires { place < length words.now }
    ensures { result.now ≡ word_at (texts words.now) place }
{
    words[place].as_str()
}

/// Where reading goes on after the token at a place.
pub(crate) fn next_place(words: &[String], at: usize) -> usize
    requires there { at < length words.now }
    requires bound { at < 1024 }
    ensures { result ≡ at + width (token_at (texts words.now) at).value }
{
    match find_option(words[at].as_str()) {
        None => at + 1,
        Some(rule) => match valueless(rule.kind) {
            Some(_value) => at + 1,
            None => match words.get(at + 1) {
                None => at + 1,
                Some(_text) => at + 2,
            },
        },
    }
}

// Whether an argument is beyond the 1,024th, or has more than 65,536 bytes.
fn is_too_much(at: usize, word: &str) -> bool
    ensures { result ≡ never_too_much at word.now }
{
    at >= 1024 || word.len() > 65536
}

// Whether an argument begins with `-`, and goes on.
fn is_dashed(word: &str) -> bool
    ensures { result ≡ dashed word.now }
{
    match word.as_bytes() {
        [] => false,
        [_] => false,
        [first, ..] => *first == b'-',
    }
}

// What an option reads as that has no value.
fn valueless(kind: Kind) -> Option<Value>
    ensures { result ≡ switched kind }
{
    match kind {
        Kind::Nothing | Kind::NoStats => Some(Value::Nothing),
        Kind::Keeps => Some(Value::Keeps(true)),
        Kind::Replaces => Some(Value::Keeps(false)),
        Kind::NoVideo => Some(Value::NoVideo),
        Kind::NoAudio => Some(Value::NoAudio),
        Kind::Shortest => Some(Value::Shortest),
        Kind::Help => Some(Value::Solo(Solo::Help)),
        Kind::Version => Some(Value::Solo(Solo::Version)),
        _ => None,
    }
}
