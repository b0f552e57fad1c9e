//! The ends of a command over files.
ghost use Rattle.std.specs.Prelude.{◌≡◌};
ghost use Rattle.ff_files.specs.Ends.{end_of_input, end_of_plan as end_by_plan, end_of_output as end_by_output, end_after};

use crate::head::InputEnd;
use crate::work::{PlanEnd, WorkEnd};
use ff_host::HostError;

/// How a command over files ends: what refuses its plan is an `R`, what of the bytes ends its run an `F`.
#[derive(Debug, Drop)]
pub enum RunEnd<R: Drop, F: Copy> {
    /// All was done.
    Fine,
    /// Opening or reading this input failed.
    InputFailed { input: u32 },
    /// Creating, writing or closing this output failed. The trace is the one after the outputs.
    OutputFailed { output: u32 },
    /// The head of this input breaks its format at this offset.
    Damaged { input: u32, offset: u64 },
    /// The head of this input is of a kind that isn't read, found at this offset.
    Unsupported { input: u32, offset: u64 },
    /// There is no plan for the heads.
    Refused(R),
    /// Something of the inputs' bytes ended the run.
    Broken(F),
    /// There was no memory to go on.
    NoMemory,
}

/// How a command over files ended, and what its run logged.
#[derive(Drop)]
pub struct Outcome<R: Drop, F: Copy, L: Drop> {
    /// How it ended.
    pub end: RunEnd<R, F>,
    /// None where nothing was run, or there was no memory for it.
    pub log: Option<L>,
}

/// The end of an input without a head.
pub(crate) fn end_of<R: Drop, F: Copy>(input: u32, end: InputEnd) -> RunEnd<R, F>
    ensures { result ≡ end_of_input input end }
{
    match end {
        InputEnd::Failed => RunEnd::InputFailed { input },
        InputEnd::Damaged { offset } => RunEnd::Damaged { input, offset },
        InputEnd::Unsupported { offset } => RunEnd::Unsupported { input, offset },
        InputEnd::NoMemory => RunEnd::NoMemory,
    }
}

/// The end where there is no plan.
pub(crate) fn end_of_plan<R: Drop, F: Copy>(end: PlanEnd<R>) -> RunEnd<R, F>
    ensures { result ≡ end_by_plan end }
{
    match end {
        PlanEnd::Refused(why) => RunEnd::Refused(why),
        PlanEnd::NoMemory => RunEnd::NoMemory,
    }
}

/// The end where an output wasn't created.
pub(crate) fn end_of_output<R: Drop, F: Copy>(output: u32, end: HostError) -> RunEnd<R, F>
    ensures { result ≡ end_by_output output end }
{
    match end {
        HostError::Failed => RunEnd::OutputFailed { output },
        HostError::NoMemory => RunEnd::NoMemory,
    }
}

/// The end of a run: its own, or that of the first sink whose closing failed.
pub(crate) fn end_with<R: Drop, F: Copy>(end: WorkEnd<F>, unclosed: Option<u32>) -> RunEnd<R, F>
    ensures { result ≡ end_after end unclosed }
{
    match end {
        WorkEnd::Fine => match unclosed {
            None => RunEnd::Fine,
            Some(output) => RunEnd::OutputFailed { output },
        },
        WorkEnd::Input { input } => RunEnd::InputFailed { input },
        WorkEnd::Output { output } => RunEnd::OutputFailed { output },
        WorkEnd::Broken(why) => RunEnd::Broken(why),
        WorkEnd::NoMemory => RunEnd::NoMemory,
    }
}
