//! A law of the command line: a function that does nothing, whose clauses hold of all values.
ghost use Rattle.ff_selfrun.specs.SelfRun.{SecondsAreFew};

/// Arguments that ask for a run over generated input ask for 3,600 seconds at most.
pub fn seconds_are_few()
    ensures { SecondsAreFew }
{}
