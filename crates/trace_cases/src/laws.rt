//! Laws of the reports that are compared with expectations. Each function does nothing, and its contract is the law.
ghost use Rattle.trace_cases.specs.Laws.{AuditIsReported};
ghost use Rattle.trace_cases.specs.Meaning.{UnmissedIsMet};

use std::alloc::Allocator;

/// The reports of the lines of an audited trace, and then the finding, are the report of an audit, except for its last
/// line if that is no fault.
pub fn audit_is_reported<A: Allocator>()
    ensures { AuditIsReported A }
{}

/// The expectation of a step that may be made in any order has no miss if and only if it is met: each outcome's reply
/// to the step is a listed text, unless others may come, too, and each listed text comes in some outcome.
pub fn unmissed_is_met()
    ensures { UnmissedIsMet }
{}
