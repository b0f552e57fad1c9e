//! The printer of histories.
ghost use Rattle.std.specs.Prelude.{◌≡◌, ◌++◌, IfOk, OnOk, string_bytes};
ghost use Rattle.ff_sched.specs.Printing.{event_line, one_number, two_numbers, printed};

use crate::history::History;
use ff_frame::Event;
use std::alloc::{AllocError, Global};

fn one(alloc: Global, name: &str, number: u32) -> Result<String, AllocError>
    ensures { IfOk result (λ text. string_bytes text ≡ one_number name.now number) }
{
    format!(in alloc; "{name} {number}\n")
}

fn two(alloc: Global, name: &str, first: u32, second: u64) -> Result<String, AllocError>
    ensures { IfOk result (λ text. string_bytes text ≡ two_numbers name.now first second) }
{
    format!(in alloc; "{name} {first} {second}\n")
}

fn line_of(alloc: Global, event: Event) -> Result<String, AllocError>
    ensures { IfOk result (λ text. string_bytes text ≡ event_line event) }
{
    match event {
        Event::Grant(source) => one(alloc, "grant", source),
        Event::Sent(stream, time) => two(alloc, "sent", stream, time),
        Event::Finished(stream) => one(alloc, "finished", stream),
        Event::Best(graph, input) => two(alloc, "best", graph, input as u64),
        Event::Exited(source) => one(alloc, "exited", source),
    }
}

// Adds the line of an event.
fn add_line(alloc: Global, text: &mut Vec<u8>, event: Event) -> Result<(), AllocError>
    ensures { OnOk result (text.new.items ≡ text.old.items ++ event_line event) }
{
    let line = line_of(alloc, event)?;
    text.extend_from_slice(line.as_bytes())
}

/// A history as a string: a line for each event.
pub fn print_history(alloc: Global, history: &History) -> Result<Vec<u8>, AllocError>
    ensures { IfOk result (λ text. text.items ≡ printed history.now) }
{
    let mut text = Vec::new(alloc);
    for event in history.events() {
        add_line(alloc, &mut text, *event)?;
    }
    Ok(text)
}
