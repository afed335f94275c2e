//! The first fault of checks made in order: the definitions that the contracts of the crates above cite, and their laws.
#![tactic(auto)]

ghost use Rattle.first_faults.specs.Laws.{NoFaultIsNowhere, FaultIsFirst};

/// Checks in order have no fault exactly when none of them has one; otherwise their fault is that of the first that has one. The
/// contracts that name a first fault do so by a recursion over the checks. The function does nothing: its contract is the law.
pub fn law_of_checks<F>()
    ensures none { NoFaultIsNowhere F }
    ensures first { FaultIsFirst F }
{}
