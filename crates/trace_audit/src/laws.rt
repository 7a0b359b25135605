//! Laws of audits. Each function does nothing, and its contract is the law.
ghost use Rattle.trace_audit.specs.Laws.{AuditReplays, AuditReports, FirstKeeps, LegalReports, NextKeeps};

use std::alloc::Allocator;

/// An audit of a trace without a poke has the report of a replay, and no disagreement.
pub fn audit_replays<A: Allocator>()
    ensures { AuditReplays A }
{}

/// The report of a poked world has a difference exactly if there is one, and then the first.
pub fn audit_reports<A: Allocator>()
    ensures { AuditReports A }
{}

/// With legality asked for, the report of a poked world says why the walked state isn't legal exactly if it isn't.
pub fn legal_reports<A: Allocator>()
    ensures { LegalReports A }
{}

/// A poke leaves each tree but one, and all the state beside the trees.
pub fn poke_keeps<A: Allocator>()
    ensures first { FirstKeeps A }
    ensures next { NextKeeps A }
{}
