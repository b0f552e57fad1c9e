//! Source filters, which make their stream: a graph that has one needs no input.
ghost use Rattle.std.specs.Prelude.{◌≡◌};
ghost use Rattle.ff_lang.specs.Sources.{source_named, is_source as is_source_by, feeds_itself as feeds_itself_by, has_source as has_source_by};

use crate::graph::{Chain, Filter, Graph};

/// The source filters that there are.
#[derive(Clone, Copy, Debug, PartialEq, Eq)]
pub enum SourceName {
    /// `color`: pictures of one colour.
    Color,
    /// `anullsrc`: silence.
    ANullSrc,
}

impl SourceName {
    /// The source filter of this name.
    pub fn read(name: &str) -> Option<SourceName>
        ensures { result ≡ source_named name.now }
    {
        if name == "color" {
            Some(SourceName::Color)
        } else if name == "anullsrc" {
            Some(SourceName::ANullSrc)
        } else {
            None
        }
    }
}

fn is_source(filter: &Filter) -> bool
    ensures { result ≡ is_source_by filter.now }
{
    SourceName::read(filter.name.as_str()).is_some()
}

fn feeds_itself(chain: &Chain) -> bool
    ensures { result ≡ feeds_itself_by chain.now }
{
    chain.filters.as_slice().iter().any(is_source)
}

/// Whether some filter of a graph is a source filter.
pub fn has_source(graph: &Graph) -> bool
    ensures { result ≡ has_source_by graph.now }
{
    graph.chains.as_slice().iter().any(feeds_itself)
}
