//! The report of a run.
ghost use Rattle.std.specs.Prelude.{◌≡◌};
ghost use Rattle.ff_command.specs.Texts.{number_of, exit_number_of};

use crate::history::History;
use ff_plan_layout::PlanError;
use ff_words::WordKind;

/// A file that a command names.
#[derive(Clone, Copy, Debug, PartialEq, Eq)]
pub enum FileRef {
    /// An input, by its number from 0.
    Input(u32),
    /// An output, by its number from 0.
    Output(u32),
    /// The file of the trace.
    Trace,
}

/// How a run ended. Arguments, inputs, outputs and nodes have numbers from 0.
#[derive(Debug, Drop)]
pub enum Status {
    /// All was done.
    Fine,
    /// The arguments ask for nothing: what is wrong first, and at which argument; it is the number of arguments where they end too early.
    Words { word: u32, kind: WordKind },
    /// There is no plan for the heads of the inputs. It isn't for want of memory.
    Plan(PlanError),
    /// Opening, reading or closing an input failed, or creating, writing or closing an output or the trace.
    Device { file: FileRef },
    /// The head of an input, or what follows it, breaks its format at this offset in bytes.
    Damaged { input: u32, offset: u64 },
    /// The stream of a node has more items than a stream may have, or one that ends too late.
    TooLong { node: u32 },
    /// The head of an input is of a kind that isn't read, found at this offset in bytes.
    Unsupported { input: u32, offset: u64 },
    /// An output passes the greatest size of its format.
    TooLarge { output: u32 },
    /// There was no memory to go on.
    NoMemory,
}

/// What became of the line of a fault, or of a string that was asked for.
#[derive(Clone, Copy, Debug, PartialEq, Eq)]
pub enum Line {
    /// All of a job was done, and there is no line.
    NotDue,
    /// The log gained the line.
    Whole,
    /// The log failed, and gained a prefix of the line.
    Failed,
    /// There was no memory for the line, and the log is as it was.
    NoMemory,
}

/// What a run answers.
#[derive(Drop)]
pub struct Report {
    /// How the run ended.
    pub status: Status,
    /// What the scheduler granted and was told; nothing for any other status than `Fine`.
    pub history: History,
    /// For each input the places in `history`, from 0 on, of some grants, in order. Under these its source tried a
    /// packet or found the end. There is no list for any other status than `Fine`.
    pub reads: Vec<Vec<u64>>,
    /// What became of the line of the fault, or of the string that was asked for; with status `Fine` never `NoMemory`.
    pub line: Line,
}

/// The number of a status.
pub fn status_number(status: &Status) -> u8
    ensures { result ≡ number_of status.now }
{
    match status {
        Status::Fine => 0,
        Status::Words { .. } => 1,
        Status::Plan(_) => 2,
        Status::Device { .. } => 3,
        Status::Damaged { .. } => 4,
        Status::TooLong { .. } => 5,
        Status::Unsupported { .. } => 6,
        Status::TooLarge { .. } => 7,
        Status::NoMemory => 9,
    }
}

/// The number that the program ends with: that of the status, or 3 where a string that was asked for couldn't be logged.
pub fn exit_number(report: &Report) -> u8
    ensures { result ≡ exit_number_of report.now.status report.now.line }
{
    match &report.status {
        Status::Fine => match report.line {
            Line::Failed => 3,
            _ => 0,
        },
        status => status_number(status),
    }
}
