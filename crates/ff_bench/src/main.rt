//! The program that measures what no command shows by itself: bits, video filters, FLAC's encoder, PCM, the
//! scheduler's cell. What a command takes is measured on the built program (`checks/measure-framehash`). With no
//! argument it prints its usage.
#![tactic(auto)]

mod bits;
mod filters;
mod flac;
mod pcm;
mod sched;

use std::{env, io};

fn main(rt: HostRuntime) -> io::Result<()> {
    let mut words = env::args(&rt)?;
    let _program = words.next();
    match words.next() {
        Some(word) if word.as_str() == "bits" => bits::measure(&rt),
        Some(word) if word.as_str() == "filters" => filters::measure(&rt),
        Some(word) if word.as_str() == "flac" => flac::measure(&rt),
        Some(word) if word.as_str() == "pcm" => pcm::measure(&rt),
        Some(word) if word.as_str() == "sched" => sched::measure(&rt, rt.alloc()),
        _ => println!(rt; "usage: ff_bench bits|filters|flac|pcm|sched"),
    }
}
