//! The line that is logged: that of a fault, or what is told of the command itself.
ghost use Rattle.std.specs.Prelude.{◌≡◌, ◌≢◌, ℕ, List, None};
ghost use Rattle.std.specs.Io.KnownBytes.{Appends, Keeps};
ghost use Rattle.ff_host.specs.Causes.{Rose};
ghost use Rattle.ff_lists.specs.Appends.{AppendsPrefix};
ghost use Rattle.ff_command.specs.Steps.{IsEndText};
ghost use Rattle.ff_command.specs.Texts.{fault_text};

use crate::report::{Line, Status};
use crate::texts::fault_line;
use ff_host::{Sink, SinkError};
use std::alloc::Global;

// Appends a string in one append.
fn log_text<E: Sink>(text: &[u8], log: &mut E) -> Line
    ensures due { result ≢ Line.NotDue }
    ensures whole { result ≡ Line.Whole → Appends (E.holds log.old) (E.holds log.new) text.now }
    ensures failed { result ≡ Line.Failed → Rose (E.faults log.old) (E.faults log.new)
        × AppendsPrefix (E.holds log.old) (E.holds log.new) text.now }
    ensures no_memory { result ≡ Line.NoMemory → Keeps (E.holds log.old) (E.holds log.new) }
{
    match log.append(text) {
        Ok(()) => Line::Whole,
        Err(SinkError::Failed) => Line::Failed,
        Err(SinkError::NoMemory) => Line::NoMemory,
    }
}

// Appends the line of a fault to the log in one append, where there is one. Where the status is `Device`, the name is that of
// its file.
fn log_fault<E: Sink>(alloc: Global, status: &Status, name: &str, log: &mut E) -> Line
    ensures not_due { (result ≡ Line.NotDue → status.now ≡ Status.Fine) × (status.now ≡ Status.Fine → result ≡ Line.NotDue) }
    ensures not_logged { result ≡ Line.NotDue → Keeps (E.holds log.old) (E.holds log.new) }
    ensures whole { result ≡ Line.Whole → Appends (E.holds log.old) (E.holds log.new) (fault_text status.now name.now) }
    ensures failed { result ≡ Line.Failed → Rose (E.faults log.old) (E.faults log.new)
        × AppendsPrefix (E.holds log.old) (E.holds log.new) (fault_text status.now name.now) }
    ensures no_memory { result ≡ Line.NoMemory → Keeps (E.holds log.old) (E.holds log.new) }
{
    if let Status::Fine = status {
        return Line::NotDue;
    }
    let Ok(line) = fault_line(alloc, status, name) else {
        return Line::NoMemory;
    };
    log_text(&line, log)
}

/// Appends a string that is told, or else the line of the fault, if there is one.
pub(crate) fn log_end<E: Sink>(
    alloc: Global,
    told: &Option<Vec<u8>>,
    status: &Status,
    name: &str,
    log: &mut E,
) -> Line
    ensures not_due { result ≡ Line.NotDue → (told.now ≡ None) × (status.now ≡ Status.Fine) }
    ensures due { status.now ≡ Status.Fine → told.now ≡ None → result ≡ Line.NotDue }
    ensures not_logged { result ≡ Line.NotDue → Keeps (E.holds log.old) (E.holds log.new) }
    ensures whole { result ≡ Line.Whole → (text : List ℕ) × IsEndText told.now status.now name.now text
        × Appends (E.holds log.old) (E.holds log.new) text }
    ensures failed { result ≡ Line.Failed → Rose (E.faults log.old) (E.faults log.new)
        × ((text : List ℕ) × IsEndText told.now status.now name.now text × AppendsPrefix (E.holds log.old) (E.holds log.new) text) }
    ensures no_memory { result ≡ Line.NoMemory → Keeps (E.holds log.old) (E.holds log.new) }
{
    match told {
        Some(text) => log_text(text, log),
        None => log_fault(alloc, status, name, log),
    }
}
