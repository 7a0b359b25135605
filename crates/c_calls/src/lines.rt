//! The lines of a trace that records what a hypervisor did.
ghost use Rattle.std.specs.Prelude.{◌≡◌, ◌++◌, codes, map, IfErr, IfOk, OnErr, OnOk, Some, string_bytes};
ghost use Rattle.c_calls.specs.Boots.{CanBootPlain, IsUnbooted};
ghost use Rattle.c_calls.specs.Lines.{config_lines, end_lines, region_line, text_of_lines, text_of_start, IsLineOf, IsUnwritten};
ghost use Rattle.c_calls.specs.Texts.{IsOffered};

use crate::boot_state::{Unbooted, booted};
use crate::text::offered;
use c_states::{PlainCall, PlainLayout, PlainRegion};
use c_words::step_of;
use std::alloc::{AllocError, Global};
use std::fmt;
use std::fmt::Write;
use trace_generate::StepLine;
use trace_generate::laws::lines_are_read;

/// Why a call has no line. The first that is true is answered.
#[derive(Clone, Copy, PartialEq)]
pub enum Unwritten {
    /// The call, or one of its arguments that is no number, is unknown.
    Step,
    /// The layout hasn't the CPU.
    Cpu,
    /// Memory was refused.
    NoMemory,
}

/// A line of a region.
#[derive(Clone, Copy)]
struct RegionLine(PlainRegion);

impl fmt::Display for RegionLine {
    ghost output = { λ line. Some (region_line line.0) };

    fn fmt<W: fmt::Write>(&self, f: &mut fmt::Formatter<W>) -> fmt::Result {
        let PlainRegion { kind, first, count } = self.0;
        let word = if kind == 0 { "memory" } else { "device" };
        write!(f, "{word} 0x{first:x} {count}")
    }
}

/// Adds the line of a region.
fn add_region(text: &mut String, region: PlainRegion) -> Result<(), AllocError>
    ensures { OnOk result
        (string_bytes text.new ≡ string_bytes text.old ++ (region_line region ++ codes "\n")) }
{
    let line = RegionLine(region);
    writeln!(text, "{line}")
}

/// Adds the lines of regions.
fn add_regions(text: &mut String, regions: &[PlainRegion]) -> Result<(), AllocError>
    ensures { OnOk result
        (string_bytes text.new
        ≡ string_bytes text.old ++ text_of_lines (map region_line regions.now)) }
{
    for region in regions {
        add_region(text, *region)?;
    }
    Ok(())
}

/// The lines before those of regions. Each log has room for 1,048,576 calls, the most that a log can have, so that a trace may grow.
fn config_text(alloc: Global, bits: u64, cpus: u64) -> Result<String, AllocError>
    ensures { IfOk result (λ t. string_bytes t ≡ text_of_lines (config_lines bits cpus)) }
{
    format!(in alloc; "geometry {bits}\ncpus {cpus}\nlog 1048576\n")
}

/// Adds the lines after those of regions.
fn add_end(text: &mut String, first: u64, count: u64) -> Result<(), AllocError>
    ensures { OnOk result
        (string_bytes text.new ≡ string_bytes text.old ++ text_of_lines (end_lines first count)) }
{
    write!(text, "carve 0x{first:x} {count}\nboot\n")
}

/// The lines up to the boot.
fn start_text(alloc: Global, layout: &PlainLayout<'_>) -> Result<String, AllocError>
    ensures { IfOk result (λ t. string_bytes t ≡ text_of_start layout.now layout.now.regions.now) }
{
    let mut text = config_text(alloc, layout.address_bits, layout.cpus)?;
    add_regions(&mut text, layout.regions)?;
    add_end(&mut text, layout.carve_first, layout.carve_count)?;
    Ok(text)
}

/// Writes the lines of a layout's settings and its boot into the front of `text`, if that has room for all of them, and returns
/// their length in bytes.
pub fn write_start(
    alloc: Global,
    layout: &PlainLayout<'_>,
    text: &mut [u8],
) -> Result<usize, Unbooted>
    ensures written { IfOk result (IsOffered (text_of_start layout.now layout.now.regions.now) text.old text.new) }
    ensures can { OnOk result (CanBootPlain layout.now layout.now.regions.now) }
    ensures fault { IfErr result (IsUnbooted layout.now layout.now.regions.now) }
    ensures err { OnErr result (text.new ≡ text.old) }
{
    drop(booted(alloc, layout)?);
    match start_text(alloc, layout) {
        Ok(told) => Ok(offered(told.as_bytes(), text)),
        Err(_) => Err(Unbooted::NoMemory),
    }
}

/// Writes the line of a call into the front of `text`, if that has room for all of it, and returns its length in bytes.
pub fn write_call(
    alloc: Global,
    layout: &PlainLayout<'_>,
    call: &PlainCall,
    text: &mut [u8],
) -> Result<usize, Unwritten>
    ensures written { IfOk result (IsLineOf layout.now call.now text.old text.new) }
    ensures fault { IfErr result (IsUnwritten layout.now call.now) }
    ensures err { OnErr result (text.new ≡ text.old) }
{
    lines_are_read();
    let Some(step) = step_of(call.step) else {
        return Err(Unwritten::Step);
    };
    if call.cpu >= layout.cpus {
        return Err(Unwritten::Cpu);
    }
    let line = StepLine {
        cpu: call.cpu,
        step,
    };
    match format!(in alloc; "{line}\n") {
        Ok(told) => Ok(offered(told.as_bytes(), text)),
        Err(_) => Err(Unwritten::NoMemory),
    }
}
