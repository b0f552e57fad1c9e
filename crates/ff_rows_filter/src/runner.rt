//! The runner of tables, which counts the rows and keeps what is to be printed.
use crate::configured::run_row;
use crate::row::Row;
use crate::table::Stop;
use crate::told::Told;
use std::alloc::Global;
use std::mem;

/// How many rows passed and failed, and the rows that failed as a string.
#[derive(Drop)]
pub struct Runner {
    alloc: Global,
    passed: u64,
    failed: u64,
    told: Told,
    // What doesn't hold of the row in hand: a line of the table, and what came.
    problems: Told,
}

impl Runner {
    /// A runner that has run no row.
    pub fn new(alloc: Global) -> Runner {
        Runner {
            alloc,
            passed: 0,
            failed: 0,
            told: Told::new(alloc),
            problems: Told::new(alloc),
        }
    }

    /// Whether no row failed.
    pub fn has_passed(&self) -> bool {
        self.failed == 0
    }

    /// What is printed: the rows that failed, and the two counts.
    pub fn text(self) -> Result<String, Stop> {
        let Runner {
            passed,
            failed,
            told,
            ..
        } = self;
        let mut told = told;
        told.count(passed);
        told.text(" passed, ");
        told.count(failed);
        told.text(" failed\n");
        told.finish()
    }

    /// Notes that a table can't be read.
    pub fn miss_table(&mut self, table: &str) {
        self.failed = self.failed.saturating_add(1);
        self.told.texts(&[table, ": no table that can be read\n"]);
    }

    fn add_failed(&mut self, table: &str, row: &Row, problems: &str) {
        self.failed = self.failed.saturating_add(1);
        self.told.texts(&[table, ":"]);
        self.told.count(row.number as u64);
        self.told.texts(&[": ", row.title, "\n", problems]);
    }

    // Runs a row that was read to its end, and counts it. What stands before the first row is none, where it is comments alone.
    fn end_row(&mut self, table: &str, row: &Row) {
        let mut problems = mem::replace(&mut self.problems, Told::new(self.alloc));
        if row.number == 0 && row.filter.is_empty() && row.steps.is_empty() {
            return;
        }
        run_row(row, &mut problems);
        match problems.finish() {
            Ok(problems) if problems.is_empty() => self.passed = self.passed.saturating_add(1),
            Ok(problems) => self.add_failed(table, row, problems.as_str()),
            Err(stop) => self.told.fail(stop),
        }
    }

    /// Runs the rows of a table.
    pub fn run_table(&mut self, table: &str, text: &str) {
        let mut row = Row::new(self.alloc, "", 0);
        for (place, line) in text.split('\n').enumerate() {
            let number = place.saturating_add(1);
            match line.split_once(' ') {
                Some(("row", title)) => {
                    self.end_row(table, &row);
                    row = Row::new(self.alloc, title, number);
                }
                _ if line.is_empty() || line.starts_with('#') => {}
                _ => row.read(&mut self.problems, number, line),
            }
        }
        self.end_row(table, &row);
    }
}
