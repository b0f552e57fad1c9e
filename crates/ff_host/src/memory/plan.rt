//! Plans of the calls of a host in memory that fail.
ghost use Rattle.std.specs.Prelude.{◌≡◌, ◌↔◌, ◌==◌, IfOk, IsTrue};
ghost use Rattle.std.specs.List.{list_any};
ghost use Rattle.ff_host.specs.Causes.{added};
ghost use Rattle.ff_host.specs.laws.memory.Plan.{numbers_of, FailsNext, IsPlannedNext};

use std::alloc::{AllocError, Global};

/// A kind of call of a host, a source or a sink.
#[derive(Clone, Copy, Debug, PartialEq, Eq)]
pub enum HostCall {
    /// `Host::open_source`.
    OpenSource,
    /// `Source::read`.
    Read,
    /// `Host::create_sink`.
    Create,
    /// `Sink::append`.
    Append,
    /// `Sink::patch`.
    Patch,
    /// `Host::close_sink`.
    CloseSink,
}

/// A call that is planned to fail: the one of this kind and number under this name.
///
/// Numbers count from 1: calls on the host by name and kind, and reads, appends and patches anew in each opened
/// object. A call that ended for want of memory isn't counted.
#[derive(Debug, Drop)]
pub struct FailAt {
    /// The name that is opened or created, or that the object was opened or created on.
    pub name: String,
    /// The kind of the call.
    pub call: HostCall,
    /// Its number among the calls of that kind; 0 plans none.
    pub number: u32,
}

/// The numbers of the calls of this kind under this name that are planned to fail.
pub(crate) fn planned_numbers(
    alloc: Global,
    plan: &[FailAt],
    name: &str,
    call: HostCall,
) -> Result<Vec<u64>, AllocError>
    ensures { IfOk result (λ v. v.items ≡ numbers_of plan.now name.now call) }
{
    plan.iter()
        .filter(|f| f.name.as_str() == name && f.call == call)
        .map(|f| u64::from(f.number))
        .collect(alloc)
}

// Whether a plan has this number for a call of this kind under this name.
fn is_planned(plan: &[FailAt], name: &str, call: HostCall, number: u64) -> bool
    ensures { result ≡ list_any (λ n. number == n) (numbers_of plan.now name.now call) }
{
    plan.iter()
        .filter(|f| f.name.as_str() == name && f.call == call)
        .map(|f| u64::from(f.number))
        .any(|n| number == n)
}

/// Whether the next call of this kind under this name after so many is planned to fail.
pub(crate) fn is_planned_next(plan: &[FailAt], name: &str, call: HostCall, calls: u64) -> bool
    ensures { IsTrue result ↔ IsPlannedNext plan.now name.now call calls }
{
    is_planned(plan, name, call, one_more(calls))
}

/// Whether the next call on an object after so many fails: it failed before, or that call is planned to.
pub(crate) fn fails_next(failed: bool, planned: &[u64], calls: u64) -> bool
    ensures { IsTrue result ↔ FailsNext failed planned.now calls }
{
    failed || planned.contains(&one_more(calls))
}

/// A count after one more. It stops at its last value, above each number that a plan can have.
pub(crate) fn one_more(count: u64) -> u64
    ensures { result ≡ added count 1 }
{
    count.saturating_add(1)
}
