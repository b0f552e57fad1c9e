//! The streams of an output before its codecs, with the pads of complex graphs.
ghost use Rattle.std.specs.Prelude.{◌≡◌, ◌⊎◌, ◌^◌, ◌<◌, [], IfOk, IfErr, Ok, length};
ghost use Rattle.ff_plan_layout.specs.Labels.{giver as number_of_giver, is_given as seems_given};
ghost use Rattle.ff_plan_layout.specs.laws.Refusals.{IsRefused};
ghost use Rattle.ff_plan_layout.specs.Streams.{mapped as pads_mapped, all_mapped as all_pads_mapped, automatic as chosen_by_itself};
ghost use Rattle.ff_plan_layout.specs.Streams.{asked as pads_asked, chosen as pads_chosen};
ghost use Rattle.ff_plan_layout.specs.laws.Picking.{inside_of, label_mapped, pad_given as the_pad_given, used_before, used_by};

use crate::choosing::{at_most_one, kept, shown, unknown};
use crate::error::PlanError;
use crate::layout::InPad;
use crate::making::labelled_pad;
use crate::mapping::is_used;
use crate::ready::Ready;
use crate::takes::looks_for;
use crate::wanting::giver;
use ff_graph_links::gives;
use ff_lang::{Graph, Text};
use ff_words::OutputJob;
use ff_words::maps::{Kind, MapFrom, MapSpec, best_streams, select};
use std::alloc::{AllocError, Global};

fn is_given(graphs: &[Graph], label: &str) -> bool
    ensures { result ≡ seems_given graphs.now label.now }
{
    for graph in graphs {
        if gives(graph, label) {
            return true;
        }
    }
    false
}

fn twice(alloc: Global, label: &Text) -> PlanError
    ensures { (result ≡ PlanError.NoMemory) ⊎ (result ≡ PlanError.LabelTwice label.now) }
{
    match String::from_str(alloc, label.as_str()) {
        Ok(copy) => PlanError::LabelTwice {
            label: Text::of(copy),
        },
        Err(_) => PlanError::NoMemory,
    }
}

// The pad of the graph that gives a label.
fn pad_given(ready: &Ready<'_>, label: &str) -> Option<InPad>
    ensures { result ≡ the_pad_given (inside_of ready.now) label.now (number_of_giver ready.now.graphs.now label.now) }
{
    match giver(ready.graphs, label) {
        Some(graph) => labelled_pad(ready.made, graph, label),
        None => None,
    }
}

// The pad that a label in a map names.
fn labelled(
    alloc: Global,
    ready: &Ready<'_>,
    used: bool,
    label: &Text,
) -> Result<Vec<InPad>, PlanError>
    ensures made { IfOk result (λ pads. label_mapped (inside_of ready.now) used label.now ≡ Ok pads.items) }
    ensures refused { IfErr result (IsRefused (label_mapped (inside_of ready.now) used label.now)) }
{
    if !is_given(ready.graphs, label.as_str()) {
        return Err(unknown(alloc, label));
    }
    if used {
        return Err(twice(alloc, label));
    }
    Ok(at_most_one(alloc, pad_given(ready, label.as_str()))?)
}

// The streams of one map, after earlier outputs and maps.
fn mapped(
    alloc: Global,
    ready: &Ready<'_>,
    earlier: &[OutputJob],
    out: &OutputJob,
    before: &[MapSpec],
    spec: &MapSpec,
) -> Result<Vec<InPad>, PlanError>
    requires outputs { length earlier.now < 2 ^ 32 }
    requires maps { length before.now < 2 ^ 32 }
    ensures made { IfOk result (λ pads. pads_mapped (inside_of ready.now) out.now (length earlier.now) (length before.now)
        (used_by ready.now.graphs.now earlier.now before.now) spec.now.optional spec.now.from ≡ Ok pads.items) }
    ensures refused { IfErr result (IsRefused (pads_mapped (inside_of ready.now) out.now (length earlier.now) (length before.now)
        (used_by ready.now.graphs.now earlier.now before.now) spec.now.optional spec.now.from)) }
{
    match &spec.from {
        MapFrom::Input { file, pick: _ } => {
            let refs = select(alloc, spec, ready.heads)?;
            let missing = refs.is_empty() && !spec.optional;
            if ready.heads.len() <= *file as usize || missing {
                return Err(PlanError::NoStream {
                    output: earlier.len() as u32,
                    map: before.len() as u32,
                });
            }
            Ok(kept(alloc, ready.heads, out, refs.as_slice())?)
        }
        MapFrom::Label(label) => {
            let used = is_used(ready.graphs, earlier, before, label.as_str());
            labelled(alloc, ready, used, label)
        }
    }
}

// The streams of all maps in order.
fn all_mapped(
    alloc: Global,
    ready: &Ready<'_>,
    earlier: &[OutputJob],
    out: &OutputJob,
) -> Result<Vec<InPad>, PlanError>
    requires outputs { length earlier.now < 2 ^ 32 }
    requires maps { length out.now.maps < 2 ^ 32 }
    ensures made { IfOk result (λ pads. all_pads_mapped (inside_of ready.now) out.now (length earlier.now) 0
        (used_before ready.now.graphs.now earlier.now) out.now.maps ≡ Ok pads.items) }
    ensures refused { IfErr result (IsRefused (all_pads_mapped (inside_of ready.now) out.now (length earlier.now) 0
        (used_before ready.now.graphs.now earlier.now) out.now.maps)) }
{
    let maps = out.maps.as_slice();
    let mut pads = Vec::new(alloc);
    for (number, spec) in maps.iter().enumerate() {
        let more = mapped(alloc, ready, earlier, out, &maps[..number], spec)?;
        pads.extend_from_slice(more.as_slice())?;
    }
    Ok(pads)
}

// The automatic choice, beside pads that are there already.
fn automatic(
    alloc: Global,
    ready: &Ready<'_>,
    out: &OutputJob,
    before: &[InPad],
) -> Result<Vec<InPad>, AllocError>
    ensures { IfOk result (λ pads. pads.items ≡ chosen_by_itself (inside_of ready.now) out.now before.now) }
{
    let video = looks_for(out, before, Kind::Video);
    let audio = looks_for(out, before, Kind::Audio);
    let refs = best_streams(alloc, ready.heads, video, audio)?;
    shown(alloc, ready.heads, refs.as_slice())
}

fn asked(
    alloc: Global,
    ready: &Ready<'_>,
    earlier: &[OutputJob],
    out: &OutputJob,
    before: &[InPad],
) -> Result<Vec<InPad>, PlanError>
    requires outputs { length earlier.now < 2 ^ 32 }
    requires maps { length out.now.maps < 2 ^ 32 }
    ensures made { IfOk result (λ pads. pads_asked (inside_of ready.now) out.now (length earlier.now) (used_before ready.now.graphs.now earlier.now)
        before.now out.now.maps ≡ Ok pads.items) }
    ensures refused { IfErr result (IsRefused (pads_asked (inside_of ready.now) out.now (length earlier.now) (used_before ready.now.graphs.now earlier.now)
        before.now out.now.maps)) }
{
    if out.maps.as_slice().is_empty() {
        Ok(automatic(alloc, ready, out, before)?)
    } else {
        all_mapped(alloc, ready, earlier, out)
    }
}

/// The streams of an output after earlier ones: those of unlabelled pads that it gets, then those of its maps, or the automatic
/// choice.
pub(crate) fn chosen(
    alloc: Global,
    ready: &Ready<'_>,
    earlier: &[OutputJob],
    out: &OutputJob,
    before: &[InPad],
) -> Result<Vec<InPad>, PlanError>
    requires outputs { length earlier.now < 2 ^ 32 }
    requires maps { length out.now.maps < 2 ^ 32 }
    ensures made { IfOk result (λ pads. pads_chosen (inside_of ready.now) out.now (length earlier.now) (used_before ready.now.graphs.now earlier.now)
        before.now ≡ Ok pads.items) }
    ensures refused { IfErr result (IsRefused (pads_chosen (inside_of ready.now) out.now (length earlier.now)
        (used_before ready.now.graphs.now earlier.now) before.now)) }
{
    let more = asked(alloc, ready, earlier, out, before)?;
    let mut pads = Vec::from_slice(alloc, before)?;
    pads.extend_from_slice(more.as_slice())?;
    if pads.is_empty() {
        Err(PlanError::NoStreams {
            output: earlier.len() as u32,
        })
    } else {
        Ok(pads)
    }
}
