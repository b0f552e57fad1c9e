//! The streams of all outputs with their simple graphs, and how many there may be.
ghost use Rattle.std.specs.Prelude.{◌≡◌, ◌+◌, ◌^◌, ◌<◌, ◌≤◌, ◌++◌, ◌∷◌, [], List, None, Ok, IfOk, IfErr, OnOk, vec_len, length};
ghost use Rattle.std.specs.List.{AllByRecursion, flat_map};
ghost use Rattle.ff_plan_layout.specs.Labels.{taken_labels};
ghost use Rattle.ff_plan_layout.specs.laws.Passing.{count_fault};
ghost use Rattle.ff_plan_layout.specs.laws.Picking.{inside_of, front_of};
ghost use Rattle.ff_plan_layout.specs.laws.Refusals.{IsRefused, IsFault};
ghost use Rattle.ff_plan_layout.specs.laws.Limits.{HasShortGraphs};
ghost use Rattle.ff_plan_layout.specs.LaidOut.{outputs_from, simple_graphs};
ghost use Rattle.ff_plan_layout.specs.Streams.{Passed as Through};

use crate::error::PlanError;
use crate::filtering::Filtering;
use crate::layout::{InPad, Passed};
use crate::passing::{all_passed, graphs_in};
use crate::picking::chosen;
use crate::ready::Ready;
use ff_lang::Sequence;
use ff_words::OutputJob;
use std::alloc::{AllocError, Global};

// The unlabelled pads that an output gets: the first all of them.
fn front(pads: &[InPad], output: usize) -> &[InPad]
    ensures { result.now ≡ front_of output pads.now }
{
    if output == 0 { pads } else { &[] }
}

fn add_row(rows: &mut Vec<Sequence<Passed>>, row: Sequence<Passed>) -> Result<(), AllocError>
    ensures items { OnOk result (rows.new.items ≡ rows.old.items ++ row ∷ []) }
    ensures len { OnOk result (vec_len rows.new ≡ vec_len rows.old + 1) }
{
    rows.push(row)?;
    Ok(())
}

/// The streams of all outputs, in their order, where the first gets these pads.
pub(crate) fn output_rows<F: Filtering>(
    alloc: Global,
    filtering: &F,
    ready: &Ready<'_>,
    outs: &[OutputJob],
    pads: &[InPad],
) -> Result<Vec<Sequence<Passed>>, PlanError>
    requires outputs { length outs.now ≤ 16 }
    requires maps { AllByRecursion (λ out. length out.maps ≤ 16) outs.now }
    requires short { AllByRecursion HasShortGraphs outs.now }
    ensures made { IfOk result (λ rows. outputs_from (F.rules filtering.now) (inside_of ready.now) 0 (length ready.now.graphs.now)
        (taken_labels ready.now.graphs.now) pads.now outs.now ≡ Ok rows.items) }
    ensures refused { IfErr result (IsRefused (outputs_from (F.rules filtering.now) (inside_of ready.now) 0 (length ready.now.graphs.now)
        (taken_labels ready.now.graphs.now) pads.now outs.now)) }
    ensures few { IfOk result (λ rows. AllByRecursion (λ (row : List Through). length row ≤ 16) rows.items) }
    ensures same { IfOk result (λ rows. vec_len rows ≡ length outs.now) }
{
    let mut rows = Vec::new(alloc);
    let mut number = ready.graphs.len() as u32;
    for (output, out) in outs.iter().enumerate() {
        let chosen = chosen(alloc, ready, &outs[..output], out, front(pads, output))?;
        let row = all_passed(
            alloc,
            filtering,
            out,
            output as u32,
            number,
            chosen.as_slice(),
        )?;
        number += graphs_in(row.as_slice());
        add_row(&mut rows, row)?;
    }
    Ok(rows)
}

fn streams_in(rows: &[Sequence<Passed>]) -> usize
    requires count { length rows.now ≤ 16 }
    requires few { AllByRecursion (λ (row : List Through). length row ≤ 16) rows.now }
    ensures { result ≡ length (flat_map (λ (row : List Through). row) rows.now) }
{
    let mut count = 0;
    for row in rows {
        count += row.as_slice().len();
    }
    count
}

fn graphs_of_all(rows: &[Sequence<Passed>]) -> usize
    requires count { length rows.now ≤ 16 }
    requires few { AllByRecursion (λ (row : List Through). length row ≤ 16) rows.now }
    ensures count { result ≡ simple_graphs rows.now }
    ensures few { result ≤ 256 }
{
    let mut count = 0;
    for row in rows {
        count += graphs_in(row.as_slice()) as usize;
    }
    count
}

/// Looks whether there are too many streams, or with so many complex graphs too many graphs.
pub(crate) fn check_counts(graphs: usize, rows: &[Sequence<Passed>]) -> Result<(), PlanError>
    requires graphs { graphs ≤ 16 }
    requires count { length rows.now ≤ 16 }
    requires few { AllByRecursion (λ (row : List Through). length row ≤ 16) rows.now }
    ensures fine { IfOk result (λ _. count_fault graphs rows.now ≡ None) }
    ensures fault { IfErr result (IsFault (count_fault graphs rows.now)) }
{
    if streams_in(rows) > 16 {
        return Err(PlanError::TooManyStreams);
    }
    if graphs + graphs_of_all(rows) > 16 {
        return Err(PlanError::TooManyGraphs);
    }
    Ok(())
}
