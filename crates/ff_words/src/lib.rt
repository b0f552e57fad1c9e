//! The arguments of the command line.
//!
//! ```text
//! args     -ss 1 -i in.wav -filter_complex G -map 0:a -map [v] out.txt
//! (a)      `-ss`+1, `-i`+in.wav, `-filter_complex`+G, `-map`+0:a, `-map`+[v], out.txt
//! (b)      in.wav: `-ss`              out.txt: `-filter_complex`, `-map`, `-map`
//! (c)      inputs: in.wav, cut from 1 s on        outputs: out.txt, maps 0:a and [v]        graphs: G
//! ```
//!
//! `table` has the options as one list, that of `specs/Options`. `specs/Words` says what arguments mean in three
//! layers, each readable alone. (a) The arguments fall into options with their values, inputs and outputs. (b) Each
//! file has the options between it and the file before. (c) The fields of a job are those options' values. It says
//! for each argument, each file and the end what is wrong there by itself; the answer is the first in order of
//! reading. It has no options that wait and no state: `read_words` has them, and goes over the arguments once.
//!
//! `maps`: The strings that are maps, the streams that a map names, and the choice without one.
#![tactic(auto)]

mod cuts;
mod error;
mod job;
mod laws;
/// Stream choices: maps, what they name, and the choice without one.
pub mod maps;
mod naming;
mod numbers;
mod read;
mod read_value;
mod reader;
mod table;
mod value;

pub use error::{WordError, WordKind};
pub use job::{Asked, Command, InputJob, Job, OutputJob, Size, Solo};
pub use laws::{
    a_fault_stays, the_lists_are_as_defined, words_have_one_answer, written_commands_are_read,
    written_jobs_are_short,
};
pub use read::read_words;
pub use read_value::text_of;
pub use table::{AUDIO_CODECS, Concern, FRAME_MODES, Kind, OPTIONS, SYNC_MODES, VIDEO_CODECS};
