//! The first label of a job's graphs that nothing uses.
ghost use Rattle.std.specs.Prelude.{◌≡◌, ◌⊎◌, ◌++◌, None, IfOk, IfErr};
ghost use Rattle.std.specs.List.{find, flat_map};
ghost use Rattle.ff_graph_links.specs.labels.Labels.{is_one_of};
ghost use Rattle.ff_words.specs.declared.maps.map.MapSpec.{MapSpec};
ghost use Rattle.ff_plan_layout.specs.Labels.{taken_labels};
ghost use Rattle.ff_plan_layout.specs.laws.Mapping.{is_unused, unused_among};
ghost use Rattle.ff_plan_layout.specs.laws.Picking.{used_by};
ghost use Rattle.ff_plan_layout.specs.LaidOut.{labels_of, unused_of};
ghost use Rattle.ff_plan_layout.specs.Streams.{label_in};
ghost use Rattle.ff_plan_layout.specs.laws.Refusals.{IsFault};

use crate::error::PlanError;
use ff_graph_links::{labels_given, takes};
use ff_lang::{Graph, Text};
use ff_words::OutputJob;
use ff_words::maps::{MapFrom, MapSpec};
use std::alloc::Global;

fn map_uses(spec: &MapSpec, label: &str) -> bool
    ensures { result ≡ is_one_of label.now (label_in spec.now.from) }
{
    match &spec.from {
        MapFrom::Label(other) => label == other.as_str(),
        MapFrom::Input { file: _, pick: _ } => false,
    }
}

fn maps_use(maps: &[MapSpec], label: &str) -> bool
    ensures { result ≡ is_one_of label.now (flat_map (λ (m : MapSpec). label_in m.from) maps.now) }
{
    for spec in maps {
        if map_uses(spec, label) {
            return true;
        }
    }
    false
}

// Whether a map of these outputs names a label.
fn outs_use(outs: &[OutputJob], label: &str) -> bool
    ensures { result ≡ is_one_of label.now (flat_map labels_of outs.now) }
{
    for out in outs {
        if maps_use(out.maps.as_slice(), label) {
            return true;
        }
    }
    false
}

// Whether an input pad of these graphs has a label.
fn graphs_take(graphs: &[Graph], label: &str) -> bool
    ensures { result ≡ is_one_of label.now (taken_labels graphs.now) }
{
    for graph in graphs {
        if takes(graph, label) {
            return true;
        }
    }
    false
}

// Whether a label is used at all.
#[tactic(auto, using(crate::proofs::UsedLabels::is_used_at_all))]
fn is_taken(graphs: &[Graph], outs: &[OutputJob], label: &str) -> bool
    ensures { result ≡ is_one_of label.now (taken_labels graphs.now ++ flat_map labels_of outs.now) }
{
    graphs_take(graphs, label) || outs_use(outs, label)
}

/// Whether a graph, a map of an earlier output or an earlier map uses a label.
#[tactic(auto, using(crate::proofs::UsedLabels::is_used_before))]
pub(crate) fn is_used(
    graphs: &[Graph],
    earlier: &[OutputJob],
    maps: &[MapSpec],
    label: &str,
) -> bool
    ensures { result ≡ is_one_of label.now (used_by graphs.now earlier.now maps.now) }
{
    graphs_take(graphs, label) || outs_use(earlier, label) || maps_use(maps, label)
}

fn unused(alloc: Global, label: &Text) -> PlanError
    ensures { (result ≡ PlanError.NoMemory) ⊎ (result ≡ PlanError.UnusedLabel label.now) }
{
    match String::from_str(alloc, label.as_str()) {
        Ok(copy) => PlanError::UnusedLabel {
            label: Text::of(copy),
        },
        Err(_) => PlanError::NoMemory,
    }
}

// Looks for one of these labels that nothing uses, the first.
fn first_unused(
    alloc: Global,
    graphs: &[Graph],
    outs: &[OutputJob],
    given: &[Text],
) -> Result<(), PlanError>
    ensures fine { IfOk result (λ _. unused_of (find (is_unused graphs.now outs.now) given.now) ≡ None) }
    ensures fault { IfErr result (IsFault (unused_of (find (is_unused graphs.now outs.now) given.now))) }
{
    for label in given {
        if !is_taken(graphs, outs, label.as_str()) {
            return Err(unused(alloc, label));
        }
    }
    Ok(())
}

/// Looks for a label of a graph that neither graphs nor outputs use, the first written.
pub(crate) fn check_unused(
    alloc: Global,
    graphs: &[Graph],
    outs: &[OutputJob],
) -> Result<(), PlanError>
    ensures fine { IfOk result (λ _. unused_among graphs.now outs.now ≡ None) }
    ensures fault { IfErr result (IsFault (unused_among graphs.now outs.now)) }
{
    let given = labels_given(alloc, graphs)?;
    first_unused(alloc, graphs, outs, given.as_slice())
}
