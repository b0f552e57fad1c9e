//! The trait of what a plan asks of filters and maps.
use crate::open_pads::{OpenIn, OpenOut, Refused};
use ff_frame::StreamHead;
use ff_lang::{Graph, Sequence};
use ff_words::maps::MapSpec;
use std::alloc::{AllocError, Global};

/// What a plan asks of filters and maps: `Rules` of `specs/Rules`, as code.
pub trait Filtering {
    ghost use Rattle.std.specs.Prelude.{◌≡◌, ◌^◌, ◌≤◌, IfOk, length};
    ghost use Rattle.ff_plan_layout.specs.Rules.{Rules};

    /// The rules that it goes by.
    ghost rules: { Self → Rules };

    /// Whether there is a filter of this name.
    fn is_known(&self, name: &str) -> bool
        ensures { result ≡ (rules self.now).known name.now };

    /// Whether the filters of a graph feed each other in a circle.
    fn has_loop(&self, alloc: Global, graph: &Graph) -> Result<bool, AllocError>
        ensures { IfOk result (λ is. is ≡ (rules self.now).loops graph.now) };

    /// The open input pads of a graph, in the order of writing.
    fn open_inputs(&self, alloc: Global, graph: &Graph) -> Result<Sequence<OpenIn>, AllocError>
        ensures pads { IfOk result (λ pads. pads ≡ (rules self.now).open_ins graph.now) }
        ensures few { IfOk result (λ pads. length pads ≤ 2 ^ 20) };

    /// The refusal of the first source filter of a graph, in the order of writing, whose arguments are refused.
    fn source_fault(&self, alloc: Global, graph: &Graph) -> Result<Option<Refused>, AllocError>
        ensures { IfOk result (λ fault. fault ≡ (rules self.now).source_fault graph.now) };

    /// The open output pads of a graph whose open input pads have these heads, none where a pad found no stream. Else
    /// it is the refusal that comes first.
    fn configured(
        &self,
        alloc: Global,
        graph: &Graph,
        heads: &[Option<StreamHead>],
    ) -> Result<Result<Sequence<OpenOut>, Refused>, AllocError>
        ensures pads { IfOk result (λ outs. outs ≡ (rules self.now).configured graph.now heads.now) }
        ensures few { IfOk result (λ outs. IfOk outs (λ pads. length pads ≤ 2 ^ 20)) };

    /// The map that a string is, if it is one.
    fn map_of(&self, alloc: Global, text: &str) -> Result<Option<MapSpec>, AllocError>
        ensures { IfOk result (λ map. map ≡ (rules self.now).map_of text.now) };
}
