//! Filtergraphs as values: chains of filters, each with its labels and arguments.
ghost use Rattle.std.specs.Prelude.{◌≡◌};
ghost use Rattle.ff_lang.specs.laws.Reading.{empty_arg, empty_filter, empty_chain};

use crate::lists::{Sequence, Text};
use std::alloc::Global;

/// An argument of a filter: `key=value`, or a value alone.
#[derive(Debug, Drop)]
pub struct Arg {
    /// The key; `None` where the value stands alone.
    pub key: Option<Text>,
    /// The value as it is meant, without quotes and escapes.
    pub value: Text,
}

impl Arg {
    /// The empty value without a key.
    pub(super) fn new(alloc: Global) -> Arg
        ensures { result ≡ empty_arg }
    {
        Arg {
            key: None,
            value: Text::new(alloc),
        }
    }
}

/// A filter with the labels of its first input pads, its arguments and the labels of its first output pads.
#[derive(Debug, Drop)]
pub struct Filter {
    /// The labels of its first input pads.
    pub ins: Sequence<Text>,
    /// Its name.
    pub name: Text,
    /// Its arguments in the order of writing.
    pub args: Sequence<Arg>,
    /// The labels of its first output pads.
    pub outs: Sequence<Text>,
}

impl Filter {
    /// A filter without name, labels and arguments.
    pub(super) fn new(alloc: Global) -> Filter
        ensures { result ≡ empty_filter }
    {
        Filter {
            ins: Sequence::new(alloc),
            name: Text::new(alloc),
            args: Sequence::new(alloc),
            outs: Sequence::new(alloc),
        }
    }
}

/// Filters one after another.
#[derive(Debug, Drop)]
pub struct Chain {
    /// Its filters, each of which feeds the next.
    pub filters: Sequence<Filter>,
}

impl Chain {
    /// A chain without filters.
    pub(super) fn new(alloc: Global) -> Chain
        ensures { result ≡ empty_chain }
    {
        Chain {
            filters: Sequence::new(alloc),
        }
    }
}

/// A filtergraph: its chains in the order of writing.
#[derive(Debug, Drop)]
pub struct Graph {
    /// Its chains in the order of writing.
    pub chains: Sequence<Chain>,
}
