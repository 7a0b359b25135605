//! Auditing from a reader to a writer of std.
ghost use Rattle.std.specs.Prelude.{◌≡◌, IfErr, IfOk, IfSome, false, true};
ghost use Rattle.trace_audit.specs.Audited.{IsAuditBegun, IsAuditReported};

use crate::auditing::LegalAudit;
use crate::poked::Audit;
use std::alloc::{Allocator, Global};
use std::io::{Read, Write};
use trace_reader::Outcome;
use trace_text::{Stopped, play_buffered};

/// Audits a trace, and gives the writer back with the whole report written to it. The report goes through a buffer,
/// which is written out even if the audit stops early. `legal` is that of `audit`.
pub fn audit_buffered<A: Allocator + Copy, R: Read + Drop, W: Write + Drop>(
    global: Global,
    alloc: A,
    reader: R,
    writer: W,
    legal: bool,
) -> Result<(Outcome, W), Stopped<W>>
    ensures report { IfOk result
        (λ r. IsAuditReported A legal (R.remaining reader) (W.contents writer)
        (W.contents r.1) r.0) }
    ensures begun { IfErr result
        (λ s. IfSome s.writer
        (λ w. IsAuditBegun A legal (R.remaining reader) (W.contents writer) (W.contents w))) }
{
    if legal {
        told_buffered(global, alloc, reader, writer)
    } else {
        found_buffered(global, alloc, reader, writer)
    }
}

/// An audit that says nothing of legality.
fn found_buffered<A: Allocator + Copy, R: Read + Drop, W: Write + Drop>(
    global: Global,
    alloc: A,
    reader: R,
    writer: W,
) -> Result<(Outcome, W), Stopped<W>>
    ensures report { IfOk result
        (λ r. IsAuditReported A false (R.remaining reader) (W.contents writer)
        (W.contents r.1) r.0) }
    ensures begun { IfErr result
        (λ s. IfSome s.writer
        (λ w. IsAuditBegun A false (R.remaining reader) (W.contents writer) (W.contents w))) }
{
    let mut audit = Audit::new(global, alloc);
    let answer = play_buffered(global, &mut audit, reader, writer);
    // As in `audit_found`.
    drop(audit);
    answer
}

/// An audit that also says why the walked state isn't legal.
fn told_buffered<A: Allocator + Copy, R: Read + Drop, W: Write + Drop>(
    global: Global,
    alloc: A,
    reader: R,
    writer: W,
) -> Result<(Outcome, W), Stopped<W>>
    ensures report { IfOk result
        (λ r. IsAuditReported A true (R.remaining reader) (W.contents writer)
        (W.contents r.1) r.0) }
    ensures begun { IfErr result
        (λ s. IfSome s.writer
        (λ w. IsAuditBegun A true (R.remaining reader) (W.contents writer) (W.contents w))) }
{
    let mut legal = LegalAudit::new(global, alloc);
    let answer = play_buffered(global, &mut legal, reader, writer);
    // As in `audit_found`.
    drop(legal);
    answer
}
