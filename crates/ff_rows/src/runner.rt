//! The runner of tables, which counts the rows and keeps what is to be printed.
use crate::row::Row;
use ff_rows_calls::Stop;
use std::alloc::{AllocError, Global};
use std::sync::Wait;
use std::thread::Threads;

/// How many rows passed and failed, and the rows that failed as a string.
#[derive(Drop)]
pub struct Runner {
    alloc: Global,
    passed: u64,
    failed: u64,
    text: String,
}

impl Runner {
    /// A runner that has run no row.
    pub fn new(alloc: Global) -> Runner {
        Runner {
            alloc,
            passed: 0,
            failed: 0,
            text: String::new(alloc),
        }
    }

    /// Whether no row failed.
    pub fn has_passed(&self) -> bool {
        self.failed == 0
    }

    /// What is printed: the rows that failed, and the two counts.
    pub fn text(&self) -> Result<String, AllocError> {
        let failures = self.text.as_str();
        let (passed, failed) = (self.passed, self.failed);
        format!(in self.alloc; "{failures}{passed} passed, {failed} failed\n")
    }

    /// Notes that a table can't be read.
    pub fn miss_table(&mut self, table: &str) -> Result<(), Stop> {
        self.failed = self.failed.saturating_add(1);
        let text = format!(in self.alloc; "{table}: no table that can be read\n")?;
        Ok(self.text.push_str(text.as_str())?)
    }

    fn add_failed(&mut self, table: &str, row: &Row) -> Result<(), Stop> {
        self.failed = self.failed.saturating_add(1);
        let (line, title, problems) = (row.line(), row.title(), row.problems());
        let text = format!(in self.alloc; "{table}:{line}: {title}\n{problems}")?;
        Ok(self.text.push_str(text.as_str())?)
    }

    // Ends a row and counts it. What stands before the first row is none, and fails where it is more than comments.
    fn end_row(&mut self, table: &str, row: &mut Row) -> Result<(), Stop> {
        if row.line() > 0 {
            row.end()?;
        }
        if !row.problems().is_empty() {
            self.add_failed(table, row)?;
        } else if row.line() > 0 {
            self.passed = self.passed.saturating_add(1);
        }
        Ok(())
    }

    fn read_line<R: Threads + Wait + Sync>(
        &mut self,
        rt: &R,
        table: &str,
        row: &mut Row,
        number: usize,
        line: &str,
    ) -> Result<(), Stop> {
        match line.split_once(' ') {
            Some(("row", title)) => {
                self.end_row(table, row)?;
                *row = Row::new(self.alloc, title, number)?;
                Ok(())
            }
            _ if line.is_empty() || line.starts_with('#') => Ok(()),
            _ => row.read(rt, number, line),
        }
    }

    /// Runs the rows of a table.
    pub fn run_table<R: Threads + Wait + Sync>(
        &mut self,
        rt: &R,
        table: &str,
        text: &str,
    ) -> Result<(), Stop> {
        let mut row = Row::new(self.alloc, "", 0)?;
        for (place, line) in text.split('\n').enumerate() {
            self.read_line(rt, table, &mut row, place.saturating_add(1), line)?;
        }
        self.end_row(table, &mut row)
    }
}
