//! The library calls that the rows of tables name, and the strings of tables: words, escapes, bytes in hex.
//!
//! A call takes the arguments of its row and answers in one line, in which an independent reader can write what is wanted.
#![tactic(auto)]

mod au;
mod bits;
mod blocks;
mod commands;
mod cuts;
mod cutter;
mod files;
mod flac;
mod framehash;
mod generated;
mod heads;
mod inputs;
mod lang;
mod made;
mod maps;
mod pcm;
mod pictures;
mod plans;
mod residuals;
mod runs;
mod sched;
mod table;
mod time;
mod told;
mod wav;
mod words;

use crate::told::Told;
use crate::words::Call;
use std::alloc::Global;
pub use table::{
    Stop, bytes_of, escaped, halves, plain, plain_text, plain_words, printable, text_of,
};

// Calls of times and of what a command line says.
fn tell(call: &mut Call, told: &mut Told, name: &str) {
    match name {
        "base" => time::base(call, told),
        "common_base" => time::common(call, told),
        "rescale" => time::rescaled(call, told),
        "compare" => time::compared(call, told),
        "least_units" => time::least_units(call, told),
        "duration" => time::duration(call, told),
        "graph" => lang::graph(call, told),
        "print" => lang::printed(call, told),
        "has_text" => lang::has_text(call, told),
        _ => tell_command(call, told, name),
    }
}

fn tell_command(call: &mut Call, told: &mut Told, name: &str) {
    match name {
        "map" => maps::map(call, told),
        "select" => maps::selected(call, told),
        "best" => maps::best(call, told),
        "command" => commands::command(call, told),
        "command_of" => commands::made(call, told),
        "plan" => plans::plan_of(call, told),
        _ => tell_input(call, told, name),
    }
}

fn tell_input(call: &mut Call, told: &mut Told, name: &str) {
    match name {
        "head" => heads::head(call, told),
        "head_fronts" => heads::head_fronts(call, told),
        "input" => inputs::head(call, told),
        "input_fronts" => inputs::head_fronts(call, told),
        "input_pieces" => inputs::pieces(call, told),
        "input_streams" => inputs::streams(call, told),
        "cut" => cuts::cut(call, told),
        "packets" => cuts::packets(call, told),
        "cut_pieces" => cuts::cut_pieces(call, told),
        "cut_fronts" => cuts::cut_fronts(call, told),
        _ => tell_output(call, told, name),
    }
}

fn tell_output(call: &mut Call, told: &mut Told, name: &str) {
    match name {
        "wav_file" => files::wav(call, told),
        "flac_file" => files::flac(call, told),
        "flac_file_told" => files::flac_told(call, told),
        "y4m_file" => files::y4m(call, told),
        "hash_file" => files::hashes(call, told),
        "au_first" => au::first(call, told),
        "au_last" => au::last(call, told),
        "wav_first" => wav::first(call, told),
        "wav_last" => wav::last(call, told),
        _ => tell_codec(call, told, name),
    }
}

fn tell_codec(call: &mut Call, told: &mut Told, name: &str) {
    match name {
        "y4m_line" => pictures::line(call, told),
        "picture" => pictures::picture(call, told),
        "pcm_samples" => pcm::samples(call, told),
        "pcm_bytes" => pcm::bytes(call, told),
        "depth_change" => pcm::depths(call, told),
        "bits" => bits::read(call, told),
        "written" => bits::written(call, told),
        "crc8" => bits::sum_of_8(call, told),
        "crc16" => bits::sum_of_16(call, told),
        _ => tell_flac(call, told, name),
    }
}

fn tell_flac(call: &mut Call, told: &mut Told, name: &str) {
    match name {
        "flac_frame" => flac::frame(call, told),
        "flac_frame_fronts" => flac::frame_fronts(call, told),
        "flac_sound" => flac::sound(call, told),
        "flac_walk" => flac::walk(call, told),
        "residual" => residuals::residual(call, told),
        "subframe" => residuals::subframe(call, told),
        "flac_block" => blocks::encoded(call, told),
        "flac_block_made" => blocks::encoded_made(call, told),
        "flac_totals" => blocks::totals(call, told),
        _ => tell_run(call, told, name),
    }
}

fn tell_run(call: &mut Call, told: &mut Told, name: &str) {
    match name {
        "sched_state" => sched::state(call, told),
        "unchoked" => sched::sources(call, told),
        "scheduled" => sched::scheduled(call, told),
        "generated_wav" => generated::sound(call, told),
        "generated_y4m" => generated::moving(call, told),
        "framehash_sound" => framehash::sound(call, told),
        "framehash_pictures" => framehash::pictures(call, told),
        "framehash_both" => framehash::both(call, told),
        "framehash_line" => framehash::line(call, told),
        _ => call.misread(),
    }
}

/// The answer of the library call of this name on these arguments, as a string.
pub fn answer(alloc: Global, name: &str, arguments: &[String]) -> Result<String, Stop> {
    let mut call = Call::new(alloc, arguments);
    let mut told = Told::new(alloc);
    tell(&mut call, &mut told, name);
    call.end()?;
    told.finish()
}
