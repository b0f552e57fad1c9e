//! The calls of a command on its host, which fail each once in a run of its own.
use crate::counting_host::CountingHost;
use crate::runs::log_of;
use ff_command::{FileRef, Status};
use ff_host::{FailAt, HostCall, MemHost};
use ff_run::ffmpeg;
use std::alloc::{AllocError, Global};
use std::sync::Wait;
use std::thread::Threads;

/// The kinds of call.
const KINDS: [HostCall; 6] = [
    HostCall::OpenSource,
    HostCall::Read,
    HostCall::Create,
    HostCall::Append,
    HostCall::Patch,
    HostCall::CloseSink,
];

/// A command over files in memory that has one output. The head of each input is within the first piece that is read of it.
#[derive(Drop)]
pub struct Job {
    /// The arguments of the command.
    pub words: Vec<String>,
    /// The inputs: their names and bytes.
    pub inputs: Vec<(String, Vec<u8>)>,
    /// The name of the output.
    pub output: String,
    /// What is appended to the output,
    pub appended: Vec<u8>,
    /// and what it holds at the end.
    pub finished: Vec<u8>,
}

// What a run left.
#[derive(Drop)]
struct Left {
    host: CountingHost,
    status: Status,
    log: Vec<u8>,
}

impl Job {
    // The name of a file that a status names.
    fn name_of(&self, file: &FileRef) -> Option<&str> {
        match file {
            FileRef::Input(number) => match self.inputs.get(*number as usize) {
                Some((name, _)) => Some(name.as_str()),
                None => None,
            },
            FileRef::Output(0) => Some(self.output.as_str()),
            _ => None,
        }
    }

    // Whether the output is left as it may be, where the call of this kind and number failed.
    fn is_left_well(&self, left: Option<&[u8]>, call: HostCall, number: u32) -> bool {
        match (call, number, left) {
            (HostCall::OpenSource | HostCall::Create, _, bytes) => bytes.is_none(),
            (HostCall::Read, 1, bytes) => bytes.is_none(),
            (HostCall::CloseSink, _, Some(bytes)) => bytes == self.finished.as_slice(),
            (_, _, Some(bytes)) => self.appended.starts_with(bytes),
            (_, _, None) => false,
        }
    }
}

impl Left {
    // What the output holds.
    fn output(&self, job: &Job) -> Option<&[u8]> {
        self.host.files().file(job.output.as_str())
    }

    // Whether all is closed, the inputs are as they were, and no other file was made than the output.
    fn keeps_the_rest(&self, job: &Job) -> bool {
        for (name, bytes) in job.inputs.iter() {
            if self.host.files().file(name.as_str()) != Some(bytes.as_slice()) {
                return false;
            }
        }
        self.host.has_all_back() & self.host.makes_only(job.output.as_str())
    }

    // Whether all was done, and nothing failed.
    fn is_done(&self, job: &Job) -> bool {
        let is_fine = matches!(self.status, Status::Fine) & self.log.is_empty();
        is_fine & (self.output(job) == Some(job.finished.as_slice()))
    }

    // Whether the failure of one call on a file of this name is counted once and is what the status and the log tell.
    fn tells(&self, alloc: Global, job: &Job, name: &str) -> Result<bool, AllocError> {
        let Status::Device { file } = &self.status else {
            return Ok(false);
        };
        let counted = match file {
            FileRef::Input(_) => (1, 0),
            _ => (0, 1),
        };
        let files = self.host.files();
        let line = format!(in alloc; "ffmpeg: device fault on {name}\n")?;
        let is_told = self.log.as_slice() == line.as_bytes();
        let faults = (files.in_faults(name), files.out_faults(name));
        Ok((job.name_of(file) == Some(name)) & is_told & (faults == counted))
    }
}

// Runs the command, with these calls planned to fail.
fn left_by<R: Threads + Wait + Sync>(
    rt: &R,
    alloc: Global,
    job: &Job,
    fails: Vec<FailAt>,
) -> Result<Left, AllocError> {
    let inner = MemHost::new(alloc, job.inputs.clone()?, fails)?;
    let mut host = CountingHost::new(alloc, inner);
    let mut log = log_of(alloc, Vec::new(alloc))?;
    let report = ffmpeg(rt, alloc, &job.words, &mut host, &mut log);
    Ok(Left {
        host,
        status: report.status,
        log: log.bytes().to_vec(alloc)?,
    })
}

// Whether a run came to the call that was planned to fail, and whether all that the run came to is right.
fn run_failing<R: Threads + Wait + Sync>(
    rt: &R,
    alloc: Global,
    job: &Job,
    name: &str,
    call: HostCall,
    number: u32,
) -> Result<(bool, bool), AllocError> {
    let mut fails = Vec::new(alloc);
    let own_name = String::from_str(alloc, name)?;
    fails.push(FailAt {
        name: own_name,
        call,
        number,
    })?;
    let left = left_by(rt, alloc, job, fails)?;
    let is_met = left.host.calls(name, call) >= number;
    let is_right = if is_met {
        left.tells(alloc, job, name)? & job.is_left_well(left.output(job), call, number)
    } else {
        left.is_done(job)
    };
    Ok((is_met, is_right & left.keeps_the_rest(job)))
}

// In how many of these runs the planned failure came, where that is this one of so many calls of a kind. None where
// what one of the runs came to isn't right.
fn failures<R: Threads + Wait + Sync>(
    rt: &R,
    alloc: Global,
    job: &Job,
    name: &str,
    call: HostCall,
    calls: u32,
) -> Result<Option<u32>, AllocError> {
    let mut failures = 0u32;
    for number in 1..=calls {
        match run_failing(rt, alloc, job, name, call, number)? {
            (true, true) => failures = failures.saturating_add(1),
            (false, true) => {}
            (_, false) => return Ok(None),
        }
    }
    Ok(Some(failures))
}

// How many calls of a kind are due.
fn number_due(due: &[(HostCall, u32)], call: HostCall) -> u32 {
    for (kind, number) in due {
        if *kind == call {
            return *number;
        }
    }
    0
}

/// Whether a run in which nothing fails makes these calls under a name, and no others but further reads. Of these
/// there may be more in one run than in another. All has to come to what is right in each of as many further runs, in
/// which one of these calls fails.
pub fn fails_well<R: Threads + Wait + Sync>(
    rt: &R,
    alloc: Global,
    job: &Job,
    name: &str,
    due: &[(HostCall, u32)],
) -> Result<bool, AllocError> {
    let whole = left_by(rt, alloc, job, Vec::new(alloc))?;
    let mut is_well = whole.is_done(job) & whole.keeps_the_rest(job);
    for call in KINDS {
        let number = number_due(due, call);
        let failures = failures(rt, alloc, job, name, call, whole.host.calls(name, call))?;
        let has_more = (call == HostCall::Read) & (failures > Some(number));
        is_well = is_well & (has_more | (failures == Some(number)));
    }
    Ok(is_well)
}
