//! The configuration of `hstack` and `vstack` by their arguments and the heads of their inputs.
ghost use Rattle.std.specs.Prelude.{◌≡◌, ◌<◌, IfOk, IfErr, length};
ghost use Rattle.ff_filter.specs.Options.{IsMade, IsRefused};
ghost use Rattle.ff_frame.specs.declared.config.ConfigError.TheVariants.{NoMemory};
ghost use Rattle.ff_fsync.specs.stacks.Bases.{bases_of};
ghost use Rattle.ff_fsync.specs.stacks.Heads.{with_length as head_with_length};
ghost use Rattle.ff_fsync.specs.stacks.Shapes.{shape_of};
ghost use Rattle.ff_fsync.specs.laws.stacks.Stacked.{seen};
ghost use Rattle.ff_fsync.specs.stacks.Stacks.{IsStack, IsPlanned, stack_view, stack_by, planned_by, head_of};

use crate::Framesync;
use crate::stacks::bases::{bases, units};
use crate::stacks::heads::{all_alike, all_video, has_size, inputs_for, total};
use crate::stacks::options::{StackSettings, count_inputs};
use crate::stacks::plan::Plan;
use crate::stacks::shape::{Direction, Shape};
use crate::stacks::stacked::Stacked;
use crate::stacks::stacking::Stacking;
use ff_filter::{Filter, read_args};
use ff_frame::{ConfigError, Format, StreamHead};
use ff_lang::Arg;
use ff_stream::with_base;
use ff_time::{Rational, common_base};
use std::alloc::{AllocError, Global};

// The head with so many columns, or rows.
fn with_length(direction: Direction, length: u32, head: &StreamHead) -> StreamHead
    ensures { result ≡ head_with_length direction length head.now }
{
    match *head {
        StreamHead::Audio { .. } => *head,
        StreamHead::Video {
            tb,
            format,
            width,
            height,
            sar_num,
            sar_den,
        } => {
            let (width, height) = match direction {
                Direction::Beside => (length, height),
                Direction::Below => (width, length),
            };
            StreamHead::Video {
                tb,
                format,
                width,
                height,
                sar_num,
                sar_den,
            }
        }
    }
}

// How frames are stacked into those of a head.
fn shape_for(direction: Direction, head: &StreamHead) -> Shape
    ensures { result ≡ shape_of direction head.now }
{
    match *head {
        StreamHead::Audio { .. } => Shape {
            direction,
            format: Format::Mono,
            width: 0,
            height: 0,
        },
        StreamHead::Video {
            format,
            width,
            height,
            ..
        } => Shape {
            direction,
            format,
            width,
            height,
        },
    }
}

// The stack of these streams, of which the first is given too, and their bases.
fn plan_for(
    direction: Direction,
    first: &StreamHead,
    heads: &[StreamHead],
    bases: &[Rational],
    shortest: bool,
) -> Result<Plan, ConfigError>
    requires some { 0 < length heads.now }
    requires bases { bases.now ≡ bases_of heads.now }
    ensures { IsPlanned direction first.now heads.now shortest (planned_by heads.now result) }
{
    let Some(base) = common_base(bases) else {
        return Err(ConfigError::Mismatch);
    };
    if !all_alike(direction, first, heads) {
        return Err(ConfigError::Mismatch);
    }
    if !has_size(direction, first, heads) {
        return Err(ConfigError::BadSize);
    }
    let length = total(direction, heads) as u32;
    let head = with_length(direction, length, &with_base(base, first));
    let shape = shape_for(direction, &head);
    Ok(Plan {
        shape,
        head,
        shortest,
    })
}

// The stack by its arguments, and the heads and the bases of its inputs.
fn planned(
    direction: Direction,
    args: &[Arg],
    heads: &[StreamHead],
    bases: &[Rational],
) -> Result<Plan, ConfigError>
    requires { bases.now ≡ bases_of heads.now }
    ensures { IsStack direction args.now heads.now (planned_by heads.now result) }
{
    if heads.len() != count_inputs(args) {
        return Err(ConfigError::Pads);
    }
    if !all_video(heads) {
        return Err(ConfigError::Kind);
    }
    match read_args(StackSettings::DEFAULT, args) {
        Err(error) => Err(error),
        Ok(settings) => match heads {
            [] => Err(ConfigError::Pads),
            [first, ..] => plan_for(direction, first, heads, bases, settings.shortest),
        },
    }
}

// The machine of a stack, to which nothing came.
fn machine_for(alloc: Global, plan: &Plan, heads: &[StreamHead]) -> Result<Stacked, AllocError>
    ensures { IfOk result (λ m. seen m ≡ stack_view (stack_by plan.now heads.now)) }
{
    let inputs = inputs_for(alloc, heads)?;
    let units = units(alloc, heads, &plan.head)?;
    Ok(Stacked {
        units,
        sync: Framesync {
            stack: Stacking {
                shape: plan.shape,
                alloc,
            },
            head: plan.head,
            inputs,
            shortest: plan.shortest,
            from: 0,
            ended: false,
            stopped: false,
            alloc,
        },
        before: 0,
    })
}

/// A stack by its arguments and the heads of its inputs; the head of its output beside it.
pub(crate) fn stack_for(
    direction: Direction,
    alloc: Global,
    args: &[Arg],
    heads: &[StreamHead],
) -> Result<(Stacked, Vec<StreamHead>), ConfigError>
    ensures made { IfOk result (λ r. IsMade (IsStack direction args.now heads.now) stack_view head_of (⟦<Stacked as Filter>⟧.view r.0) r.1.items) }
    ensures refused { IfErr result (IsRefused (IsStack direction args.now heads.now)) }
{
    let Ok(bases) = bases(alloc, heads) else {
        return Err(ConfigError::NoMemory);
    };
    match planned(direction, args, heads, bases.as_slice()) {
        Err(error) => Err(error),
        Ok(plan) => match machine_for(alloc, &plan, heads) {
            Err(_) => Err(ConfigError::NoMemory),
            Ok(machine) => {
                let head = plan.head;
                let mut shown = Vec::new(alloc);
                match shown.push(head) {
                    Err(_) => Err(ConfigError::NoMemory),
                    Ok(()) => Ok((machine, shown)),
                }
            }
        },
    }
}
