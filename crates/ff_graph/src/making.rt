//! Filters made one by one, each by the heads that those before it give.
ghost use Rattle.std.specs.Prelude.{◌≡◌, ◌⊎◌, ◌<◌, IfOk, IfErr, OnOk, Ok, Err, [], ◌∷◌, ◌++◌, map, length, replicate, slice_get, slice_index_or, slice_set};
ghost use Rattle.std.specs.Option.{option_map};
ghost use Rattle.ff_frame.specs.declared.config.ConfigError.TheVariants as fault;
ghost use Rattle.ff_filter.specs.Views.{View};
ghost use Rattle.ff_graph_links.specs.pads.Links.{seen, all_seen, pads_in};
ghost use Rattle.ff_graph.specs.Opens.{sources_in, open_pads};
ghost use Rattle.ff_graph.specs.Configured.{Made, heads_into as heads_to, made_on, made_of, make_from, none_made};
ghost use Rattle.ff_graph.specs.laws.Pads.{heads_in, filtered_by, made_by, IsRefusal};

use crate::fitting::{is_misfit, is_surplus};
use crate::heads::heads_into;
use crate::refusal::{Refusal, refuse};
use ff_filter::Filter;
use ff_filters::{AnyFilter, FilterName, configure, named};
use ff_frame::{ConfigError, StreamHead};
use ff_graph_links::{Drawn, Pad, open_inputs, sources};
use std::alloc::{AllocError, Global};

// The heads of what comes to the input pads of a filter. None where one has no stream.
fn heads_at(
    alloc: Global,
    sources: &[Vec<Option<Pad>>],
    opens: &[Pad],
    given: &[Option<StreamHead>],
    heads: &[Vec<StreamHead>],
    filter: usize,
) -> Result<Option<Vec<StreamHead>>, AllocError>
    ensures { IfOk result (λ o. option_map (λ v. v.items) o
        ≡ heads_to opens.now given.now (heads_in heads.now) filter 0 (slice_index_or (pads_in sources.now) filter [])) }
{
    if filter >= sources.len() {
        return Ok(Some(Vec::new(alloc)));
    }
    heads_into(alloc, opens, given, heads, filter, &sources[filter])
}

// A filter of this name by the heads of what comes to its input pads, and the heads of its output pads.
fn make_on(
    alloc: Global,
    name: FilterName,
    own: &Drawn<'_>,
    heads: Option<Vec<StreamHead>>,
) -> Result<(AnyFilter, Vec<StreamHead>), ConfigError>
    ensures made { IfOk result (λ r. made_on name (seen own.now) (option_map (λ v. v.items) heads) ≡ Ok (filtered_by (⟦<AnyFilter as Filter>⟧.view r.0) r.1)) }
    ensures refused { IfErr result (λ e. (e ≡ fault.NoMemory) ⊎ (made_on name (seen own.now) (option_map (λ v. v.items) heads) ≡ Err e)) }
{
    match heads {
        None => Err(ConfigError::Pads),
        Some(heads) => {
            if is_surplus(name, own, &heads) {
                Err(ConfigError::Pads)
            } else {
                configure(alloc, name, own.filter.args.as_slice(), &heads)
            }
        }
    }
}

// The filter of this number by the heads that are there, and the heads of its output pads.
fn make(
    alloc: Global,
    drawn: &[Drawn<'_>],
    sources: &[Vec<Option<Pad>>],
    opens: &[Pad],
    given: &[Option<StreamHead>],
    heads: &[Vec<StreamHead>],
    filter: usize,
) -> Result<(AnyFilter, Vec<StreamHead>), ConfigError>
    requires fed { pads_in sources.now ≡ sources_in (all_seen drawn.now) }
    requires open { opens.now ≡ open_pads (all_seen drawn.now) }
    ensures there { OnOk result (filter < length drawn.now) }
    ensures made { IfOk result (λ r. made_of (all_seen drawn.now) given.now (heads_in heads.now) filter (slice_get (all_seen drawn.now) filter)
        ≡ Ok (filtered_by (⟦<AnyFilter as Filter>⟧.view r.0) r.1)) }
    ensures refused { IfErr result (λ e. (e ≡ fault.NoMemory)
        ⊎ (made_of (all_seen drawn.now) given.now (heads_in heads.now) filter (slice_get (all_seen drawn.now) filter) ≡ Err e)) }
{
    if filter >= drawn.len() {
        return Err(ConfigError::UnknownFilter);
    }
    let own = &drawn[filter];
    match named(own.filter.name.as_str()) {
        None => Err(ConfigError::UnknownFilter),
        Some(name) => {
            if is_misfit(drawn, sources, opens, filter, own) {
                return Err(ConfigError::Pads);
            }
            match heads_at(alloc, sources, opens, given, heads, filter) {
                Err(_) => Err(ConfigError::NoMemory),
                Ok(found) => make_on(alloc, name, own, found),
            }
        }
    }
}

// Keeps a filter that was made, and its heads by its number.
fn keep(
    filters: &mut Vec<AnyFilter>,
    heads: &mut [Vec<StreamHead>],
    filter: usize,
    made: (AnyFilter, Vec<StreamHead>),
) -> Result<(), AllocError>
    requires { filter < length heads.old }
    ensures filters { OnOk result (filters.new.items ≡ filters.old.items ++ made.0 ∷ []) }
    ensures heads { OnOk result (heads_in heads.new ≡ slice_set (heads_in heads.old) filter made.1.items) }
{
    let (machine, outs) = made;
    filters.push(machine)?;
    heads[filter] = outs;
    Ok(())
}

// So many filters, none of which has heads.
fn no_heads(alloc: Global, count: usize) -> Result<Vec<Vec<StreamHead>>, AllocError>
    ensures size { IfOk result (λ heads. length heads.items ≡ count) }
    ensures empty { IfOk result (λ heads. heads_in heads.items ≡ replicate count []) }
{
    let mut heads = Vec::new(alloc);
    'filters: for _number in 0..count {
        heads.push(Vec::new(alloc))?;
    }
    Ok(heads)
}

/// The filters of this order one by one, each by the heads of what those before it give. Beside them stand the heads
/// of the output pads of each, by its number.
pub fn make_all(
    alloc: Global,
    drawn: &[Drawn<'_>],
    given: &[Option<StreamHead>],
    order: &[usize],
) -> Result<(Vec<AnyFilter>, Vec<Vec<StreamHead>>), Refusal>
    ensures made { IfOk result (λ r. make_from (all_seen drawn.now) given.now (none_made (all_seen drawn.now)) order.now
        ≡ Ok (made_by (⟦<AnyFilter as Filter>⟧.view) r.0 r.1)) }
    ensures size { IfOk result (λ r. length r.1.items ≡ length drawn.now) }
    ensures refused { IfErr result (IsRefusal (make_from (all_seen drawn.now) given.now (none_made (all_seen drawn.now)) order.now)) }
{
    let fed = sources(alloc, drawn)?;
    let opens = open_inputs(alloc, &fed)?;
    let mut filters = Vec::new(alloc);
    let mut heads = no_heads(alloc, drawn.len())?;
    'order: for at in 0..order.len() {
        match make(alloc, drawn, &fed, &opens, given, &heads, order[at]) {
            Err(kind) => return Err(refuse(order[at], kind)),
            Ok(made) => keep(&mut filters, &mut heads, order[at], made)?,
        }
    }
    Ok((filters, heads))
}
