//! A row, run on a source filter.
use crate::configured::{check_answer, do_steps, end_refused};
use crate::heads::tell_head;
use crate::items::tell_item;
use crate::play::{MOST, Steps};
use crate::row::Row;
use crate::table::Stop;
use crate::told::Told;
use ff_frame::StreamHead;
use ff_lang::{Arg, SourceName};
use ff_source::GenSource;

// A source filter with the head of its stream.
#[derive(Drop)]
struct Source {
    source: GenSource,
    head: StreamHead,
    // Whether it said that all frames were given.
    ended: bool,
}

impl Source {
    // Writes the next frame after a blank, or once `end` where all were given, and answers whether there was one of them.
    fn next(&mut self, told: &mut Told) -> bool {
        match self.source.next() {
            Ok(Some(item)) => {
                told.text(" ");
                tell_item(told, &self.head, &item);
                true
            }
            Ok(None) => {
                let ended = self.ended;
                self.ended = true;
                told.text(if ended { "" } else { " end" });
                !ended
            }
            Err(_) => {
                told.fail(Stop::Broken);
                false
            }
        }
    }

    // Writes all frames that it has still to give.
    fn all(&mut self, told: &mut Told) {
        for _ in 0..MOST {
            if !self.next(told) {
                return;
            }
        }
        told.fail(Stop::Broken);
    }
}

impl Steps for Source {
    fn step(&mut self, told: &mut Told, kind: &str, _rest: &str) {
        told.text("0");
        match kind {
            "gives" => self.all(told),
            "next" => {
                self.next(told);
            }
            _ => told.fail(Stop::Unreadable),
        }
    }
}

// Runs a row on a source with this head.
fn play(row: &Row, problems: &mut Told, source: GenSource, head: StreamHead) {
    let mut out = Told::new(row.alloc);
    out.text("out ");
    tell_head(&mut out, &head);
    out.text("\n");
    if check_answer(row, problems, out.finish()) {
        let mut source = Source {
            source,
            head,
            ended: false,
        };
        do_steps(row, problems, &mut source);
    }
}

/// Runs a row on the source filter of this name.
pub fn run_source(row: &Row, problems: &mut Told, name: SourceName, args: &[Arg]) {
    match GenSource::configure(row.alloc, name, args) {
        Err(error) => end_refused(row, problems, error),
        Ok((source, head)) => play(row, problems, source, head),
    }
}
