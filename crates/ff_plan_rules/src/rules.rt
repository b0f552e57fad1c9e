//! The rules of the filters that there are, and of maps.
ghost use Rattle.std.specs.Prelude.{◌≡◌};
ghost use Rattle.ff_plan_rules.specs.Rules.{graph_rules};

use crate::in_pads::input_pads;
use crate::maps::map_of;
use crate::out_pads::configured;
use crate::sources::refused_source;
use ff_frame::StreamHead;
use ff_graph::{has_loop, is_known};
use ff_lang::{Graph, Sequence};
use ff_plan_layout::{Filtering, OpenIn, OpenOut, Refused};
use ff_words::maps::MapSpec;
use std::alloc::{AllocError, Global};

/// The rules of the filters that there are, and of maps.
#[derive(Clone, Copy, Debug, Drop)]
pub struct GraphRules;

impl Filtering for GraphRules {
    ghost rules = { λ r. graph_rules };

    fn is_known(&self, name: &str) -> bool {
        is_known(name)
    }

    fn has_loop(&self, alloc: Global, graph: &Graph) -> Result<bool, AllocError> {
        has_loop(alloc, graph)
    }

    fn open_inputs(&self, alloc: Global, graph: &Graph) -> Result<Sequence<OpenIn>, AllocError> {
        input_pads(alloc, graph)
    }

    fn source_fault(&self, alloc: Global, graph: &Graph) -> Result<Option<Refused>, AllocError> {
        refused_source(alloc, graph)
    }

    fn configured(
        &self,
        alloc: Global,
        graph: &Graph,
        heads: &[Option<StreamHead>],
    ) -> Result<Result<Sequence<OpenOut>, Refused>, AllocError> {
        configured(alloc, graph, heads)
    }

    fn map_of(&self, alloc: Global, text: &str) -> Result<Option<MapSpec>, AllocError> {
        map_of(alloc, text)
    }
}
