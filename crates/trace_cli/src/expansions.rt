//! The texts of `check --expand` and `check --record`: a trace with values in place of its names.
ghost use Rattle.std.specs.Prelude.{◌≡◌, IfOk};
ghost use Rattle.trace_cli.specs.Status.{HasExpanded, HasRecorded, outcome_of_text};
ghost use Rattle.trace_values.specs.View.{expansion_in};

use crate::telling::no_memory;
use crate::texts::{whole, write};
use std::io;
use std::str::from_utf8;
use trace_race::Halted;
use trace_reader::Outcome;
use trace_values::{Expansion, Spot, add_spot, expand, record};

/// Writes a trace with values in place of its names.
pub fn expanded<R: AllocGlobal + Print + Eprint, F: io::Read + Drop>(
    rt: &R,
    path: &str,
    file: F,
) -> Result<Outcome, Halted>
    ensures { IfOk result (HasExpanded (F.remaining file)) }
{
    let trace = whole(rt, file)?;
    let Ok(expansion) = expand(rt.alloc(), rt.alloc(), trace.as_slice()) else {
        return Err(no_memory());
    };
    put(rt, path, &expansion)
}

/// Writes it with its expectations filled in.
pub fn recorded<R: AllocGlobal + Print + Eprint, F: io::Read + Drop>(
    rt: &R,
    path: &str,
    file: F,
) -> Result<Outcome, Halted>
    ensures { IfOk result (HasRecorded (F.remaining file)) }
{
    let trace = whole(rt, file)?;
    let Ok(expansion) = record(rt.alloc(), rt.alloc(), trace.as_slice()) else {
        return Err(no_memory());
    };
    put(rt, path, &expansion)
}

/// Writes a text to standard output, or the place of a name's fault to standard error.
fn put<R: AllocGlobal + Print + Eprint>(
    rt: &R,
    path: &str,
    expansion: &Expansion,
) -> Result<Outcome, Halted>
    ensures { IfOk result (λ outcome. outcome ≡ outcome_of_text (expansion_in expansion.now)) }
{
    match expansion {
        Expansion::Text(text) => {
            write(rt, text.as_slice())?;
            Ok(Outcome::Clean)
        }
        Expansion::Fault(spot) => {
            report_spot(rt, path, spot)?;
            Ok(Outcome::Fault)
        }
    }
}

/// Writes the place of a name's fault to standard error. Err if memory was refused.
fn report_spot<R: AllocGlobal + Eprint>(rt: &R, path: &str, spot: &Spot) -> Result<(), Halted> {
    let mut text = Vec::new(rt.alloc());
    if add_spot(&mut text, rt.alloc(), path, spot).is_err() {
        return Err(no_memory());
    }
    if let Ok(said) = from_utf8(text.as_slice()) {
        let _ = eprint!(rt; "{said}");
    }
    Ok(())
}
