//! The strings that say what is wrong.
ghost use Rattle.std.specs.Prelude.{◌≡◌, ◌≢◌, ◌++◌, IfOk, codes, decimal, string_bytes};
ghost use Rattle.ff_lists.specs.Text.{line};
ghost use Rattle.ff_command.specs.Texts.{word_fault, filter_fault, plan_fault, status_fault, fault_text};

use crate::report::Status;
use ff_frame::ConfigError;
use ff_plan_layout::PlanError;
use ff_words::WordKind;
use std::alloc::{AllocError, Global};

fn fixed(alloc: Global, text: &str) -> Result<String, AllocError>
    ensures { IfOk result (λ made. string_bytes made ≡ text.now) }
{
    String::from_str(alloc, text)
}

fn at_place(alloc: Global, what: &str, at: usize) -> Result<String, AllocError>
    ensures { IfOk result (λ text. string_bytes text ≡ what.now ++ decimal at) }
{
    format!(in alloc; "{what}{at}")
}

fn with_label(alloc: Global, before: &str, label: &str, behind: &str) -> Result<String, AllocError>
    ensures { IfOk result (λ text. string_bytes text ≡ before.now ++ label.now ++ behind.now) }
{
    format!(in alloc; "{before}{label}{behind}")
}

fn of_number(alloc: Global, what: &str, number: u32, why: &str) -> Result<String, AllocError>
    ensures { IfOk result (λ text. string_bytes text ≡ what.now ++ decimal number ++ why.now) }
{
    format!(in alloc; "{what}{number}{why}")
}

fn of_two(
    alloc: Global,
    what: &str,
    first: u32,
    between: &str,
    second: u32,
    why: &str,
) -> Result<String, AllocError>
    ensures { IfOk result (λ text. string_bytes text ≡ what.now ++ decimal first ++ between.now ++ decimal second ++ why.now) }
{
    format!(in alloc; "{what}{first}{between}{second}{why}")
}

fn at_offset(alloc: Global, input: u32, what: &str, offset: u64) -> Result<String, AllocError>
    ensures { IfOk result (λ text. string_bytes text ≡ codes "input " ++ decimal input ++ what.now ++ decimal offset) }
{
    format!(in alloc; "input {input}{what}{offset}")
}

// What is wrong at an argument.
fn word_text(alloc: Global, kind: WordKind) -> Result<String, AllocError>
    ensures { IfOk result (λ text. string_bytes text ≡ word_fault kind) }
{
    match kind {
        WordKind::UnknownOption => fixed(alloc, "unknown option"),
        WordKind::MissingValue => fixed(alloc, "missing value"),
        WordKind::BadValue => fixed(alloc, "bad value"),
        WordKind::BadTime { at } => at_place(alloc, "bad time at ", at),
        WordKind::BadMap { at } => at_place(alloc, "bad map at ", at),
        WordKind::BadGraph { at } => at_place(alloc, "bad graph at ", at),
        WordKind::Misplaced => fixed(alloc, "misplaced option"),
        WordKind::TooMany => fixed(alloc, "too many"),
        WordKind::NoInput => fixed(alloc, "no input"),
        WordKind::NoOutput => fixed(alloc, "no output"),
        WordKind::SameName => fixed(alloc, "same name"),
    }
}

// Why a filter can't be had.
fn filter_text(kind: ConfigError) -> &'static str
    ensures { result.now ≡ filter_fault kind }
{
    match kind {
        ConfigError::UnknownFilter => "unknown filter",
        ConfigError::UnknownOption => "unknown option",
        ConfigError::BadOption => "bad option",
        ConfigError::Kind => "wrong kind",
        ConfigError::Pads => "wrong number of pads",
        ConfigError::Mismatch => "mismatch",
        ConfigError::BadSize => "bad size",
        ConfigError::NoMemory => "out of memory",
    }
}

fn config_text(
    alloc: Global,
    graph: u32,
    filter: u32,
    kind: ConfigError,
) -> Result<String, AllocError>
    ensures { IfOk result (λ text. string_bytes text
        ≡ codes "graph " ++ decimal graph ++ codes " filter " ++ decimal filter ++ codes ": " ++ filter_fault kind) }
{
    let why = filter_text(kind);
    format!(in alloc; "graph {graph} filter {filter}: {why}")
}

// Why there is no plan.
fn plan_text(alloc: Global, why: &PlanError) -> Result<String, AllocError>
    ensures { IfOk result (λ text. string_bytes text ≡ plan_fault why.now) }
{
    match why {
        PlanError::NoStream { output, map } => {
            of_two(alloc, "output ", *output, " map ", *map, ": no stream")
        }
        PlanError::NoStreams { output } => of_number(alloc, "output ", *output, ": no streams"),
        PlanError::UnknownLabel { label } => {
            with_label(alloc, "unknown label ", label.as_str(), "")
        }
        PlanError::UnusedLabel { label } => with_label(alloc, "unused label ", label.as_str(), ""),
        PlanError::LabelTwice { label } => {
            with_label(alloc, "label ", label.as_str(), " used twice")
        }
        PlanError::Loop { graph } => of_number(alloc, "loop in graph ", *graph, ""),
        PlanError::Config {
            graph,
            filter,
            kind,
        } => config_text(alloc, *graph, *filter, *kind),
        PlanError::Takes { output, stream } => {
            of_two(
                alloc,
                "output ",
                *output,
                " stream ",
                *stream,
                ": not taken",
            )
        }
        PlanError::TooManyStreams => fixed(alloc, "too many streams"),
        PlanError::TooManyGraphs => fixed(alloc, "too many graphs"),
        PlanError::TooManySources => fixed(alloc, "too many sources"),
        PlanError::NoMemory => fixed(alloc, "out of memory"),
    }
}

fn words_text(alloc: Global, word: u32, kind: WordKind) -> Result<String, AllocError>
    ensures { IfOk result (λ text. string_bytes text ≡ codes "word " ++ decimal word ++ codes ": " ++ word_fault kind) }
{
    let why = word_text(alloc, kind)?;
    of_number_and(alloc, word, why.as_str())
}

fn of_number_and(alloc: Global, word: u32, why: &str) -> Result<String, AllocError>
    ensures { IfOk result (λ text. string_bytes text ≡ codes "word " ++ decimal word ++ codes ": " ++ why.now) }
{
    format!(in alloc; "word {word}: {why}")
}

fn refusal_text(alloc: Global, why: &PlanError) -> Result<String, AllocError>
    ensures { IfOk result (λ text. string_bytes text ≡ codes "plan: " ++ plan_fault why.now) }
{
    let why = plan_text(alloc, why)?;
    with_label(alloc, "plan: ", why.as_str(), "")
}

// What is wrong.
fn status_text(alloc: Global, status: &Status, name: &str) -> Result<String, AllocError>
    requires due { status.now ≢ Status.Fine }
    ensures { IfOk result (λ text. string_bytes text ≡ status_fault status.now name.now) }
{
    match status {
        Status::Fine => unreachable!(),
        Status::Words { word, kind } => words_text(alloc, *word, *kind),
        Status::Plan(why) => refusal_text(alloc, why),
        Status::Device { .. } => with_label(alloc, "device fault on ", name, ""),
        Status::Damaged { input, offset } => {
            at_offset(alloc, *input, ": damaged at offset ", *offset)
        }
        Status::TooLong { node } => of_number(alloc, "node ", *node, ": stream too long"),
        Status::TooLarge { output } => of_number(alloc, "output ", *output, ": file too large"),
        Status::Unsupported { input, offset } => {
            at_offset(alloc, *input, ": unsupported at offset ", *offset)
        }
        Status::NoMemory => fixed(alloc, "out of memory"),
    }
}

fn line_of(alloc: Global, text: &str) -> Result<String, AllocError>
    ensures { IfOk result (λ made. string_bytes made ≡ line (codes "ffmpeg: " ++ text.now)) }
{
    format!(in alloc; "ffmpeg: {text}\n")
}

/// The line of a fault, with LF at its end. The status isn't `Fine`; where it is `Device`, the name is that of its file.
pub fn fault_line(alloc: Global, status: &Status, name: &str) -> Result<Vec<u8>, AllocError>
    requires due { status.now ≢ Status.Fine }
    ensures { IfOk result (λ bytes. bytes.items ≡ fault_text status.now name.now) }
{
    let text = status_text(alloc, status, name)?;
    Ok(line_of(alloc, text.as_str())?.into_bytes())
}
