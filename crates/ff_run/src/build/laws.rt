//! Laws of the nodes of a plan. Each is a function that does nothing: its clauses hold of all values.
ghost use Rattle.ff_run.specs.build.Parts.{all_kinds};
ghost use Rattle.ff_run_plan.specs.Events.{PlansTellAlone, TellOfThemselves};

/// Each node of a plan tells of itself alone. A demuxer tells that its input has exited, a muxer tells of its output
/// stream, and no other tells anything. So in a plan the events of an output stream are those of one muxer. That an
/// input has exited is told by one demuxer.
pub fn events_of_a_plan()
    ensures own { TellOfThemselves all_kinds }
    ensures alone { PlansTellAlone all_kinds }
{}
