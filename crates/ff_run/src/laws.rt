//! Laws of runs. Each is a function that does nothing: its clauses hold of all values.
ghost use Rattle.std.specs.Prelude.{◌≡◌, ℕ, []};
ghost use Rattle.ff_host.specs.Files.{Files};
ghost use Rattle.ff_words.specs.declared.job.Job.{Job as AJob};
ghost use Rattle.ff_files.specs.Works.{meaning};
ghost use Rattle.ff_command.specs.Command.{over, made_alone};
ghost use Rattle.ff_run.specs.Meaning.{job_means};
ghost use Rattle.ff_run.specs.laws.Telling.{NoneIsEmpty};

/// No history without events is that of a run that did all, where the files are told. Of each output stream of the
/// job it tells at least that this has finished.
pub fn no_history_is_empty()
    ensures { NoneIsEmpty }
{}

/// A job that names no input means the same over any files.
pub fn a_job_without_inputs_means_one_thing()
    ensures { (job : AJob) → job.inputs ≡ [] → (files : Files) (output : ℕ)
        → meaning (over job_means job) files output ≡ made_alone job_means job output }
{}
