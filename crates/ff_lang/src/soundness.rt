//! The check whether a filtergraph has a string.
ghost use Rattle.std.specs.Prelude.{◌↔◌, ◌<◌, ◌≤◌, IsTrue, length};
ghost use Rattle.std.specs.List.{AllByRecursion};
ghost use Rattle.ff_lang.specs.Grammar.{IsWord, IsLabel};
ghost use Rattle.ff_lang.specs.declared.graph.Arg.{Arg};
ghost use Rattle.ff_lang.specs.laws.Printing.{IsSoundKey, IsSoundFilter, IsSoundChain, IsSound};

use crate::graph::{Arg, Chain, Filter, Graph};
use crate::letters::{LONGEST, is_label, is_word};
use crate::lists::Text;

fn fits(text: &Text) -> bool
    ensures { IsTrue result ↔ (0 < length text.now) × (length text.now ≤ 64) }
{
    0 < text.len() && text.len() <= LONGEST
}

fn word_ok(text: &Text) -> bool
    ensures { IsTrue result ↔ IsWord text.now }
{
    fits(text)
        && text
            .as_str()
            .as_bytes()
            .iter()
            .all(|b| is_word(char::from(*b)))
}

fn label_ok(text: &Text) -> bool
    ensures { IsTrue result ↔ IsLabel text.now }
{
    fits(text)
        && text
            .as_str()
            .as_bytes()
            .iter()
            .all(|b| is_label(char::from(*b)))
}

fn key_ok(key: &Option<Text>) -> bool
    ensures { IsTrue result ↔ IsSoundKey key.now }
{
    match key {
        Some(key) => word_ok(key),
        None => true,
    }
}

fn labels_ok(labels: &[Text]) -> bool
    ensures { IsTrue result ↔ AllByRecursion IsLabel labels.now }
{
    labels.iter().all(label_ok)
}

fn keys_ok(args: &[Arg]) -> bool
    ensures { IsTrue result ↔ AllByRecursion (λ (arg : Arg). IsSoundKey arg.key) args.now }
{
    args.iter().all(|arg| key_ok(&arg.key))
}

fn filter_ok(filter: &Filter) -> bool
    ensures { IsTrue result ↔ IsSoundFilter filter.now }
{
    labels_ok(filter.ins.as_slice())
        && word_ok(&filter.name)
        && keys_ok(filter.args.as_slice())
        && labels_ok(filter.outs.as_slice())
}

fn chain_ok(chain: &Chain) -> bool
    ensures { IsTrue result ↔ IsSoundChain chain.now }
{
    let filters = chain.filters.as_slice();
    !filters.is_empty() && filters.iter().all(filter_ok)
}

/// Whether a graph has a string. Then there is a chain, none is empty, and each name, key and label is one of the
/// language (ffmpeg-filters, "Filtergraph syntax").
pub fn graph_ok(graph: &Graph) -> bool
    ensures { IsTrue result ↔ IsSound graph.now }
{
    let chains = graph.chains.as_slice();
    !chains.is_empty() && chains.iter().all(chain_ok)
}
