//! The first source filter that is refused, as plans have it.
ghost use Rattle.std.specs.Prelude.{◌≡◌, IfOk};
ghost use Rattle.ff_plan_rules.specs.Rules.{source_fault as fault_in};

use crate::out_pads::refused;
use ff_graph::source_fault;
use ff_lang::Graph;
use ff_plan_layout::Refused;
use std::alloc::{AllocError, Global};

/// The refusal of the first source filter of a graph whose arguments are refused.
pub(crate) fn refused_source(alloc: Global, graph: &Graph) -> Result<Option<Refused>, AllocError>
    ensures { IfOk result (λ fault. fault ≡ fault_in graph.now) }
{
    match source_fault(alloc, graph)? {
        None => Ok(None),
        Some(fault) => Ok(Some(refused(fault.filter, fault.kind)?)),
    }
}
