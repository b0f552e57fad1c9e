//! One row: the string of a filter, the heads of its inputs, and what is done with it and must come.
use crate::heads::read_head;
use crate::table::halves;
use crate::told::Told;
use ff_frame::StreamHead;
use std::alloc::Global;

/// A line of a row, by its number in the table.
#[derive(Clone, Copy)]
pub struct Line<'a> {
    /// Its number in the table.
    pub number: usize,
    /// Its first word.
    pub kind: &'a str,
    /// What stands after that.
    pub rest: &'a str,
}

/// A row as far as it was read.
#[derive(Drop)]
pub struct Row<'a> {
    /// Where the row takes its memory from.
    pub alloc: Global,
    /// Its title.
    pub title: &'a str,
    /// The line of its table in which it begins.
    pub number: usize,
    /// The filter as a graph has it.
    pub filter: &'a str,
    /// The heads of its inputs.
    pub ins: Vec<StreamHead>,
    /// The heads of its outputs, or why it is refused, a line each.
    pub answer: String,
    /// What is done with it, in order.
    pub steps: Vec<Line<'a>>,
}

/// Notes a line that doesn't hold, in pieces, and what came in its place.
pub fn add_problem(problems: &mut Told, number: usize, line: &[&str], came: &str) {
    problems.text("    ");
    problems.count(number as u64);
    problems.text(": ");
    problems.texts(line);
    problems.texts(&["\n    came: ", came, "\n"]);
}

impl<'a> Row<'a> {
    /// A row of this title, that begins in this line of its table.
    pub fn new(alloc: Global, title: &'a str, number: usize) -> Row<'a> {
        Row {
            alloc,
            title,
            number,
            filter: "",
            ins: Vec::new(alloc),
            answer: String::new(alloc),
            steps: Vec::new(alloc),
        }
    }

    // The head of a further input.
    fn add_input(&mut self, problems: &mut Told, number: usize, line: &str, rest: &str) {
        match read_head(rest) {
            Ok(head) => problems.note(self.ins.push(head)),
            Err(_) => add_problem(problems, number, &[line], "a line that can't be read"),
        }
    }

    // A line of the answer.
    fn expect(&mut self, problems: &mut Told, line: &str) {
        problems.note(self.answer.push_str(line));
        problems.note(self.answer.push('\n'));
    }

    /// Takes in a line of the row, and notes the problem where it can't be read.
    pub fn read(&mut self, problems: &mut Told, number: usize, line: &'a str) {
        let (kind, rest) = halves(line);
        match kind {
            "filter" => self.filter = rest,
            "in" => self.add_input(problems, number, line, rest),
            "out" | "refused" => self.expect(problems, line),
            _ => problems.note(self.steps.push(Line { number, kind, rest })),
        }
    }
}
