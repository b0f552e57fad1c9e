//! Any filter by its name, its arguments and the heads of its inputs.
ghost use Rattle.std.specs.Prelude.{◌≡◌, ◌⊎◌, Ok, Err, IfOk, IfErr};
ghost use Rattle.ff_frame.specs.declared.config.ConfigError.TheVariants.{NoMemory};
ghost use Rattle.ff_filters.specs.Makes.{Makes, Refuses, configured_as};

use crate::any::AnyFilter;
use crate::name::FilterName;
use crate::step::{IntoAny, stepping};
use ff_afilter::{ANull, ASetPts, ASplit, ChannelSplit, LastingATrim};
use ff_concat::Concat;
use ff_filter::{Filter, Limited, Stepper};
use ff_frame::{ConfigError, StreamHead};
use ff_fsync::{HStack, VStack};
use ff_joins::Join;
use ff_lang::Arg;
use ff_vfilter::{Crop, Fps, HFlip, LastingTrim, Null, Pad, SetPts, Split, VFlip};
use std::alloc::Global;

/// The filter of this name by its arguments and the heads of its inputs; the heads of its outputs beside it. It refuses as the
/// filter does: `Pads`, `Kind`, `UnknownOption` and `BadOption` by argument, `Mismatch`, `BadSize`. Name, arguments and heads
/// determine all of that, as the function `configured_as` says: only memory may be wanting besides.
pub fn configure(
    alloc: Global,
    name: FilterName,
    args: &[Arg],
    heads: &[StreamHead],
) -> Result<(AnyFilter, Vec<StreamHead>), ConfigError>
    ensures made { IfOk result (λ r. Makes name args.now heads.now (⟦<AnyFilter as Filter>⟧.view r.0) r.1.items) }
    ensures refused { IfErr result (Refuses name args.now heads.now) }
    ensures determined { IfOk result (λ r. configured_as name args.now heads.now ≡ Ok (record { view = ⟦<AnyFilter as Filter>⟧.view r.0; outs = r.1.items })) }
    ensures refusal_determined { IfErr result (λ e. (e ≡ NoMemory) ⊎ (configured_as name args.now heads.now ≡ Err e)) }
{
    by_name(alloc, name, args, heads)
}

// A filter that is a function of one stream, as it is configured.
fn single<A: IntoAny>(
    name: FilterName,
    args: &[Arg],
    heads: &[StreamHead],
    made: Result<(Stepper<Limited<A>>, Vec<StreamHead>), ConfigError>,
) -> Result<(AnyFilter, Vec<StreamHead>), ConfigError>
    requires made { IfOk made (λ r. Makes name args.now heads.now (⟦<Stepper<Limited<A>> as Filter>⟧.view r.0) r.1.items) }
    requires refused { IfErr made (Refuses name args.now heads.now) }
    ensures made { IfOk result (λ r. Makes name args.now heads.now (⟦<AnyFilter as Filter>⟧.view r.0) r.1.items) }
    ensures refused { IfErr result (Refuses name args.now heads.now) }
{
    match made {
        Ok((filter, heads)) => Ok((AnyFilter::Step(stepping(filter)), heads)),
        Err(error) => Err(error),
    }
}

// The filter of this name, as each is configured.
fn by_name(
    alloc: Global,
    name: FilterName,
    args: &[Arg],
    heads: &[StreamHead],
) -> Result<(AnyFilter, Vec<StreamHead>), ConfigError>
    ensures made { IfOk result (λ r. Makes name args.now heads.now (⟦<AnyFilter as Filter>⟧.view r.0) r.1.items) }
    ensures refused { IfErr result (Refuses name args.now heads.now) }
{
    match name {
        FilterName::Null => single(name, args, heads, Null::configure(alloc, args, heads)),
        FilterName::Trim => single(
            name,
            args,
            heads,
            LastingTrim::configure(alloc, args, heads),
        ),
        FilterName::SetPts => single(name, args, heads, SetPts::configure(alloc, args, heads)),
        FilterName::Crop => single(name, args, heads, Crop::configure(alloc, args, heads)),
        FilterName::Pad => single(name, args, heads, Pad::configure(alloc, args, heads)),
        FilterName::HFlip => single(name, args, heads, HFlip::configure(alloc, args, heads)),
        FilterName::VFlip => single(name, args, heads, VFlip::configure(alloc, args, heads)),
        FilterName::Fps => match Fps::configure(alloc, args, heads) {
            Ok((filter, heads)) => Ok((AnyFilter::Rate(filter), heads)),
            Err(error) => Err(error),
        },
        FilterName::Split => match Split::configure(alloc, args, heads) {
            Ok((filter, heads)) => Ok((AnyFilter::Copies(filter), heads)),
            Err(error) => Err(error),
        },
        FilterName::ANull => single(name, args, heads, ANull::configure(alloc, args, heads)),
        FilterName::ATrim => single(
            name,
            args,
            heads,
            LastingATrim::configure(alloc, args, heads),
        ),
        FilterName::ASetPts => single(name, args, heads, ASetPts::configure(alloc, args, heads)),
        FilterName::ASplit => match ASplit::configure(alloc, args, heads) {
            Ok((filter, heads)) => Ok((AnyFilter::Copies(filter), heads)),
            Err(error) => Err(error),
        },
        FilterName::ChannelSplit => match ChannelSplit::configure(alloc, args, heads) {
            Ok((filter, heads)) => Ok((AnyFilter::Channels(filter), heads)),
            Err(error) => Err(error),
        },
        FilterName::HStack => match HStack::configure(alloc, args, heads) {
            Ok((filter, heads)) => Ok((AnyFilter::Stacked(filter), heads)),
            Err(error) => Err(error),
        },
        FilterName::VStack => match VStack::configure(alloc, args, heads) {
            Ok((filter, heads)) => Ok((AnyFilter::Stacked(filter), heads)),
            Err(error) => Err(error),
        },
        FilterName::Concat => match Concat::configure(alloc, args, heads) {
            Ok((filter, heads)) => Ok((AnyFilter::Concat(filter), heads)),
            Err(error) => Err(error),
        },
        FilterName::Join => match Join::configure(alloc, args, heads) {
            Ok((filter, heads)) => Ok((AnyFilter::Join(filter), heads)),
            Err(error) => Err(error),
        },
        FilterName::Color => single(name, args, heads, Null::configure(alloc, &[], heads)),
        FilterName::ANullSrc => single(name, args, heads, ANull::configure(alloc, &[], heads)),
    }
}
