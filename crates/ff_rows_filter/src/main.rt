//! The runner of tables of rows on filters. Each row configures one by its string and the heads of its inputs, feeds
//! it, pulls, and says what must come.
//!
//! Its arguments name the tables, in the order in which they are run; without arguments one table is read from standard input. It
//! prints each line that doesn't hold with what came in its place, and at last how many rows passed and how many failed.
#![tactic(auto)]

mod configured;
mod fields;
mod heads;
mod items;
mod play;
mod row;
mod runner;
mod sound;
mod sources;
mod table;
mod told;

use runner::Runner;
use std::io::{self, Write};
use std::process::ExitCode;
use std::rt::{Env, Files};
use std::{env, fs};
use table::Stop;

// Runs the tables that the arguments name, and answers whether there was one.
fn run_named<R>(rt: &R, runner: &mut Runner) -> Result<bool, Stop>
where
    R: Env + Files + AllocGlobal,
{
    let mut named = false;
    for name in env::args(rt)?.skip(1) {
        named = true;
        match fs::read_to_string(rt, name.as_str()) {
            Ok(text) => runner.run_table(name.as_str(), text.as_str()),
            Err(_) => runner.miss_table(name.as_str()),
        }
    }
    Ok(named)
}

fn run_input<R>(rt: &R, runner: &mut Runner) -> Result<(), Stop>
where
    R: Input + AllocGlobal,
{
    let text = io::read_to_string(rt.alloc(), rt.reader())?;
    runner.run_table("standard input", text.as_str());
    Ok(())
}

// Runs all tables, and answers whether every row passed.
fn run<R>(rt: &R) -> Result<bool, Stop>
where
    R: Env + Files + Input + Print + AllocGlobal,
{
    let mut runner = Runner::new(rt.alloc());
    if !run_named(rt, &mut runner)? {
        run_input(rt, &mut runner)?;
    }
    let has_passed = runner.has_passed();
    let text = runner.text()?;
    io::writer(rt).write_all(text.as_bytes())?;
    Ok(has_passed)
}

fn main(rt: HostRuntime) -> ExitCode {
    match run(&rt) {
        Ok(true) => ExitCode::from(0),
        _ => ExitCode::from(1),
    }
}
