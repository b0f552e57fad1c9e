//! One filter, fed and pulled as the lines of its row say.
use crate::heads::tell_head;
use crate::items::{read_item, tell_item};
use crate::table::{Stop, halves};
use crate::told::Told;
use ff_filter::Filter;
use ff_frame::StreamHead;
use ff_stream::Item;
use std::alloc::Global;

/// So many items at most are taken from an output in one line.
pub const MOST: u64 = 1 << 20;

/// What does the lines of a row.
pub trait Steps {
    /// Does what a line says, and writes the rest that it should have.
    fn step(&mut self, told: &mut Told, kind: &str, rest: &str);
}

/// A filter with the heads of its inputs and of its outputs.
#[derive(Drop)]
pub struct Play<'a, F> {
    /// Where the play takes its memory from.
    pub alloc: Global,
    /// The filter.
    pub filter: F,
    /// The heads of its inputs.
    pub ins: &'a [StreamHead],
    /// The heads of its outputs.
    pub outs: Vec<StreamHead>,
}

// The head of the port of this number, and the port.
fn head_at(heads: &[StreamHead], word: &str) -> Option<(usize, StreamHead)> {
    let port = word.parse::<usize>().ok()?;
    Some((port, *heads.get(port)?))
}

impl<F: Filter> Play<'_, F> {
    /// Writes the heads of its outputs, a line each; then where it doesn't have as many inputs or outputs, that.
    pub fn tell_heads(&self, told: &mut Told) {
        for head in self.outs.iter() {
            told.text("out ");
            tell_head(told, head);
            told.text("\n");
        }
        let (inputs, outputs) = (self.filter.inputs(), self.filter.outputs());
        if inputs != self.ins.len() || outputs != self.outs.len() {
            told.count(inputs as u64);
            told.text(" inputs, ");
            told.count(outputs as u64);
            told.text(" outputs\n");
        }
    }

    // Feeds an input that hasn't closed, and answers whether it is closed as it should be.
    fn is_fed(&mut self, port: usize, item: Item) -> Result<bool, Stop> {
        if port >= self.filter.inputs() || self.filter.is_shut(port) {
            return Err(Stop::Unreadable);
        }
        let closes = item.closes();
        if self.filter.feed(port, item).is_err() {
            return Err(Stop::Broken);
        }
        let shut = port < self.filter.inputs() && self.filter.is_shut(port);
        Ok(shut == closes)
    }

    fn feed(&mut self, told: &mut Told, rest: &str) {
        let (word, text) = halves(rest);
        let Some((port, head)) = head_at(self.ins, word) else {
            return told.fail(Stop::Unreadable);
        };
        let fed = match read_item(self.alloc, &head, text) {
            Ok(item) => self.is_fed(port, item),
            Err(stop) => Err(stop),
        };
        match fed {
            Ok(true) => told.text(rest),
            Ok(false) => told.text("an input that isn't closed so"),
            Err(stop) => told.fail(stop),
        }
    }

    // What is next on an output that is wanted.
    fn pull(&mut self, port: usize) -> Result<Option<Item>, Stop> {
        if port >= self.filter.outputs() || self.filter.is_stopped(port) {
            return Err(Stop::Unreadable);
        }
        match self.filter.pull(port) {
            Ok(item) => Ok(item),
            Err(_) => Err(Stop::Broken),
        }
    }

    // Writes what is next on an output after a blank, and answers whether something was due.
    fn next(&mut self, told: &mut Told, port: usize, head: &StreamHead) -> bool {
        match self.pull(port) {
            Ok(Some(item)) => {
                told.text(" ");
                tell_item(told, head, &item);
                true
            }
            Ok(None) => false,
            Err(stop) => {
                told.fail(stop);
                false
            }
        }
    }

    // Writes all that is due on an output.
    fn all(&mut self, told: &mut Told, port: usize, head: &StreamHead) {
        for _ in 0..MOST {
            if !self.next(told, port, head) {
                return;
            }
        }
        told.fail(Stop::Broken);
    }

    // Writes the line that `next` or `gives` would be.
    fn pulled(&mut self, told: &mut Told, kind: &str, rest: &str) {
        let (word, _) = halves(rest);
        told.text(word);
        match head_at(self.outs.as_slice(), word) {
            None => told.fail(Stop::Unreadable),
            Some((port, head)) => {
                if kind == "gives" {
                    self.all(told, port, &head);
                } else {
                    self.next(told, port, &head);
                }
            }
        }
    }

    // Writes what is due on any output that is wanted.
    fn any(&mut self, told: &mut Told) {
        for port in 0..self.outs.len() {
            if port < self.filter.outputs()
                && !self.filter.is_stopped(port)
                && let Some(head) = self.outs.get(port).copied()
            {
                self.all(told, port, &head);
            }
        }
    }

    // An output isn't wanted any more.
    fn stop(&mut self, told: &mut Told, rest: &str) {
        let Ok(port) = rest.parse::<usize>() else {
            return told.fail(Stop::Unreadable);
        };
        if port >= self.filter.outputs() {
            return told.fail(Stop::Unreadable);
        }
        self.filter.stop(port);
        let stopped = port < self.filter.outputs() && self.filter.is_stopped(port);
        told.text(if stopped {
            rest
        } else {
            "an output that isn't stopped"
        });
    }

    // Of each input whether nothing more of it can matter.
    fn spent(&self, told: &mut Told) {
        for port in 0..self.filter.inputs() {
            told.text(if self.filter.spent(port) { "1" } else { "0" });
        }
    }
}

impl<F: Filter> Steps for Play<'_, F> {
    fn step(&mut self, told: &mut Told, kind: &str, rest: &str) {
        match kind {
            "feed" => self.feed(told, rest),
            "gives" | "next" => self.pulled(told, kind, rest),
            "waits" => self.any(told),
            "stop" => self.stop(told, rest),
            "spent" => self.spent(told),
            _ => told.fail(Stop::Unreadable),
        }
    }
}
