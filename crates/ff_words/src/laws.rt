//! Laws of the definition of the command line. Each is a function that does nothing: its clauses hold of all values.
ghost use Rattle.std.specs.Prelude.{◌≡◌, ◌≤◌, ◌++◌, ℕ, length, List, Result, Ok, Err, map};
ghost use Rattle.ff_words.specs.declared.table.TheConstants.{OPTIONS, AUDIO_CODECS, VIDEO_CODECS, LEVELS};
ghost use Rattle.ff_words.specs.Options.{options, audio_codecs, video_codecs, log_levels};
ghost use Rattle.ff_words.specs.Words.{IsAnswer, EndsBetween, FaultOfFront};
ghost use Rattle.ff_words.specs.declared.error.Fault.{Fault};
ghost use Rattle.ff_words.specs.laws.Writing.{IsFineCommand, IsFineJob, IsPlainOutput, command_words, job_words};
ghost use Rattle.ff_words.specs.declared.job.Command.{Command};
ghost use Rattle.ff_words.specs.declared.job.Job.{Job};
ghost use Rattle.std.specs.List.{AllByRecursion};

/// The lists of the code are those of the definition, line by line.
pub fn the_lists_are_as_defined()
    ensures of_options { map (λ line. (line.0.now, line.1, line.2)) OPTIONS ≡ options }
    ensures of_sound { AUDIO_CODECS ≡ audio_codecs }
    ensures of_pictures { VIDEO_CODECS ≡ video_codecs }
    ensures of_levels { map (λ name. name.now) LEVELS ≡ log_levels }
{}

/// Arguments have at most one answer.
pub fn words_have_one_answer()
    ensures { (words : List (List ℕ)) (answer other : Result Command Fault) → IsAnswer words answer
        → IsAnswer words other → answer ≡ other }
{}

/// The arguments that are written of a command are read as that command, where they are at most 1,024.
pub fn written_commands_are_read()
    ensures { (command : Command) → IsFineCommand command → length (command_words command) ≤ 1024
        → IsAnswer (command_words command) (Ok command) }
{}

/// They are as few for every job in which no output is RF64, has `-frames:v` or asks what its streams are.
pub fn written_jobs_are_short()
    ensures { (job : Job) → IsFineJob job → AllByRecursion IsPlainOutput job.outputs → length (job_words job) ≤ 1024 }
{}

/// A fault of a prefix that ends between options is that of any arguments which begin so: nothing after it matters.
pub fn a_fault_stays()
    ensures { (front behind : List (List ℕ)) (fault : Fault) → EndsBetween front
        → FaultOfFront front fault → IsAnswer (front ++ behind) (Err fault) }
{}
