//! One row: what it gives, what it runs, and what doesn't hold.
use crate::command::{Given, Left, failure_of, given_bytes, run_command, speaks_of_file};
use ff_host::FailAt;
use ff_rows_calls::{Stop, answer, bytes_of, escaped, halves, plain, plain_text, plain_words};
use std::alloc::{AllocError, Global};
use std::mem;
use std::sync::Wait;
use std::thread::Threads;

// What a row ran.
#[derive(Drop)]
enum Ran {
    /// Nothing yet.
    Nothing,
    /// A command, with what its run left.
    Command(Left),
    /// A call of a library, with its answer.
    Call(String),
}

/// A row as far as it was read.
#[derive(Drop)]
pub struct Row {
    alloc: Global,
    title: String,
    line: usize,
    files: Vec<Given>,
    fails: Vec<FailAt>,
    ran: Ran,
    /// Whether a line says what must come.
    expects: bool,
    named: Vec<String>,
    problems: String,
}

// The status that an expectation is said of, where it is said of one alone, and the expectation.
fn condition(line: &str) -> (Option<&str>, &str) {
    match halves(line) {
        ("if", rest) => {
            let (status, line) = halves(rest);
            (Some(status), line)
        }
        _ => (None, line),
    }
}

// What came in place of an expectation on a run, where it doesn't hold.
fn command_differs(
    alloc: Global,
    left: &Left,
    given: &[Given],
    line: &str,
) -> Result<Option<String>, Stop> {
    let (status, line) = condition(line);
    if let Some(number) = status
        && !left.has_status(number)
    {
        return Ok(None);
    }
    let (kind, rest) = halves(line);
    if left.meets(alloc, given, kind, rest)? {
        return Ok(None);
    }
    Ok(Some(left.came(alloc, kind, rest)?))
}

// What came in place of an expectation on a call's answer, where it doesn't hold.
fn call_differs(alloc: Global, text: &str, line: &str) -> Result<Option<String>, Stop> {
    let ("gives", wanted) = halves(line) else {
        return Err(Stop::Unreadable);
    };
    if plain(alloc, wanted)?.as_slice() == text.as_bytes() {
        return Ok(None);
    }
    let text = escaped(alloc, text, false)?;
    Ok(Some(format!(in alloc; "gives {text}")?))
}

impl Row {
    /// A row of this title, that begins in this line of its table.
    pub fn new(alloc: Global, title: &str, line: usize) -> Result<Row, Stop> {
        Ok(Row {
            alloc,
            title: String::from_str(alloc, title)?,
            line,
            files: Vec::new(alloc),
            fails: Vec::new(alloc),
            ran: Ran::Nothing,
            expects: false,
            named: Vec::new(alloc),
            problems: String::new(alloc),
        })
    }

    /// Its title.
    pub fn title(&self) -> &str {
        self.title.as_str()
    }

    /// The line of its table in which it begins.
    pub fn line(&self) -> usize {
        self.line
    }

    /// What doesn't hold, a line of the table and what came a line each.
    pub fn problems(&self) -> &str {
        self.problems.as_str()
    }

    fn add_problem(&mut self, number: usize, line: &str, came: &str) -> Result<(), Stop> {
        let text = format!(in self.alloc; "    {number}: {line}\n    came: {came}\n")?;
        Ok(self.problems.push_str(text.as_str())?)
    }

    fn add_file(&mut self, word: &str, bytes: Vec<u8>) -> Result<(), Stop> {
        let name = plain_text(self.alloc, word)?;
        Ok(self.files.push((name, bytes))?)
    }

    fn run<R: Threads + Wait + Sync>(&mut self, rt: &R, line: &str) -> Result<(), Stop> {
        let Ran::Nothing = self.ran else {
            return Err(Stop::Unreadable);
        };
        let words = plain_words(self.alloc, line)?;
        let fails = mem::replace(&mut self.fails, Vec::new(self.alloc));
        let left = run_command(rt, self.alloc, self.files.clone()?, fails, words.as_slice())?;
        self.ran = Ran::Command(left);
        Ok(())
    }

    fn call(&mut self, line: &str) -> Result<(), Stop> {
        let Ran::Nothing = self.ran else {
            return Err(Stop::Unreadable);
        };
        let (name, rest) = halves(line);
        let words = plain_words(self.alloc, rest)?;
        self.ran = Ran::Call(answer(self.alloc, name, words.as_slice())?);
        Ok(())
    }

    // What came in place of an expectation, where it doesn't hold.
    fn differs(&self, line: &str) -> Result<Option<String>, Stop> {
        match &self.ran {
            Ran::Nothing => Err(Stop::Unreadable),
            Ran::Command(left) => command_differs(self.alloc, left, self.files.as_slice(), line),
            Ran::Call(text) => call_differs(self.alloc, text.as_str(), line),
        }
    }

    fn check(&mut self, number: usize, line: &str) -> Result<(), Stop> {
        if let Some(came) = self.differs(line)? {
            self.add_problem(number, line, came.as_str())?;
        }
        Ok(())
    }

    // Keeps the name of the file that an expectation speaks of.
    fn keep_name(&mut self, line: &str) -> Result<(), Stop> {
        let (kind, rest) = halves(condition(line).1);
        if speaks_of_file(kind) {
            let (word, _) = halves(rest);
            self.named.push(plain_text(self.alloc, word)?)?;
        }
        Ok(())
    }

    fn expect(&mut self, number: usize, line: &str) -> Result<(), Stop> {
        self.expects = true;
        self.keep_name(line)?;
        self.check(number, line)
    }

    fn take_line<R: Threads + Wait + Sync>(
        &mut self,
        rt: &R,
        number: usize,
        line: &str,
    ) -> Result<(), Stop> {
        let (kind, rest) = halves(line);
        let (word, content) = halves(rest);
        match kind {
            "file" => self.add_file(word, bytes_of(self.alloc, content)?),
            "text" => self.add_file(word, plain(self.alloc, content)?),
            "fail" => Ok(self.fails.push(failure_of(self.alloc, rest)?)?),
            "run" => self.run(rt, rest),
            "call" => self.call(rest),
            _ => self.expect(number, line),
        }
    }

    // Of a line that can't be read it keeps that.
    fn note_unreadable(
        &mut self,
        number: usize,
        line: &str,
        done: Result<(), Stop>,
    ) -> Result<(), Stop> {
        match done {
            Err(Stop::Unreadable) => self.add_problem(number, line, "a line that can't be read"),
            _ => done,
        }
    }

    /// Reads a line of the row and does what it says.
    pub fn read<R: Threads + Wait + Sync>(
        &mut self,
        rt: &R,
        number: usize,
        line: &str,
    ) -> Result<(), Stop> {
        let done = self.take_line(rt, number, line);
        self.note_unreadable(number, line, done)
    }

    fn is_named(&self, name: &str) -> bool {
        for named in self.named.iter() {
            if named.as_str() == name {
                return true;
            }
        }
        false
    }

    // Adds an expectation of a name of which no line speaks.
    fn add_unwritten(&self, lines: &mut Vec<String>, kind: &str, name: &str) -> Result<(), Stop> {
        if !self.is_named(name) {
            let word = escaped(self.alloc, name, true)?;
            lines.push(format!(in self.alloc; "{kind} {word}")?)?;
        }
        Ok(())
    }

    // The files that the row gives are as they were.
    fn add_given(&self, lines: &mut Vec<String>) -> Result<(), Stop> {
        for file in self.files.iter() {
            self.add_unwritten(lines, "same", file.0.as_str())?;
        }
        Ok(())
    }

    // No other is made.
    fn add_created(&self, left: &Left, lines: &mut Vec<String>) -> Result<(), Stop> {
        for name in left.created_names() {
            if given_bytes(self.files.as_slice(), name.as_str()).is_none() {
                self.add_unwritten(lines, "absent", name.as_str())?;
            }
        }
        Ok(())
    }

    // What is expected without a line of the table: files of which no line speaks are unchanged, and no other is made.
    fn unwritten(&self) -> Result<Vec<String>, Stop> {
        let mut lines = Vec::new(self.alloc);
        if let Ran::Command(left) = &self.ran {
            self.add_given(&mut lines)?;
            self.add_created(left, &mut lines)?;
        }
        Ok(lines)
    }

    /// Ends the row.
    pub fn end(&mut self) -> Result<(), Stop> {
        if matches!(self.ran, Ran::Nothing) && self.problems.is_empty() {
            return self.add_problem(self.line, "run or call", "nothing");
        }
        if !self.expects {
            return self.add_problem(self.line, "what must come", "nothing");
        }
        for line in self.unwritten()?.iter() {
            self.check(self.line, line)?;
        }
        Ok(())
    }
}
