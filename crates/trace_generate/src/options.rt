//! What a trace is made with, and the settings that follow from it.
ghost use Rattle.std.specs.Prelude.{◌≡◌, ◌≤◌, ◌+◌, OnOk, IfErr, Ok, Err};
ghost use Rattle.trace_generate.specs.Machine.{IsFault, IsInRange, carve_range, asked_config, memory_range};

use page_state::{Config, Page, PageRange};
use thiserror::Error;

/// The first page of memory.
pub(crate) const FIRST_PAGE: u64 = 0x40000;

/// The most steps, so that a trace has no more lines than are read.
const MOST_STEPS: u64 = 1_000_000;

/// The most pages of memory (profile).
const MOST_PAGES: u64 = 524_288;

/// What the machine of a trace is, and how many of its calls are refused.
#[derive(Clone, Copy, PartialEq, Debug)]
pub struct Options {
    /// The number of CPUs: 1 to 64.
    pub cpus: u64,
    /// The pages of memory, which are one region from page 0x40000 on: 1 to 524,288. The carve-out is the last of them.
    pub pages: u64,
    /// The width of input addresses in bits: 39 or 48.
    pub geometry: u64,
    /// The number of calls to be refused, of a hundred: 0 to 100.
    pub hostile: u64,
}

/// Why no trace is made. The first that is true is answered, in the order of the variants.
#[derive(Clone, Copy, PartialEq, Debug, Error)]
pub enum GenerateFault {
    /// Over 1,000,000 steps.
    #[error("over 1000000 steps")]
    Steps,
    /// CPUs that aren't 1 to 64.
    #[error("the number of CPUs is not 1 to 64")]
    Cpus,
    /// A width that is neither 39 nor 48.
    #[error("the width of addresses is neither 39 nor 48")]
    Geometry,
    /// A percentage over 100.
    #[error("the share of refused calls is over 100 percent")]
    Hostile,
    /// Over 524,288 pages of memory.
    #[error("over 524288 pages of memory")]
    Pages,
    /// With so few pages of memory no machine boots.
    #[error("too few pages of memory to boot")]
    NoBoot,
    /// Memory was refused.
    #[error("out of memory")]
    NoMemory,
}

/// The first fault of the settings, if there is one; too few pages are found at boot.
pub(crate) fn tested(steps: u64, options: Options) -> Result<(), GenerateFault>
    ensures ok { OnOk result (IsInRange steps options) }
    ensures fault { IfErr result (λ f. IsFault f steps options) }
    ensures memory { (result ≡ Err GenerateFault.NoMemory) → ⊥ }
{
    if steps > MOST_STEPS {
        return Err(GenerateFault::Steps);
    }
    if options.cpus < 1 || options.cpus > 64 {
        return Err(GenerateFault::Cpus);
    }
    if options.geometry != 39 && options.geometry != 48 {
        return Err(GenerateFault::Geometry);
    }
    if options.hostile > 100 {
        return Err(GenerateFault::Hostile);
    }
    if options.pages > MOST_PAGES {
        return Err(GenerateFault::Pages);
    }
    Ok(())
}

/// The memory.
pub(crate) fn memory(options: Options) -> PageRange
    ensures { result ≡ memory_range options }
{
    PageRange {
        first: Page(FIRST_PAGE),
        count: options.pages,
    }
}

/// The carve-out: the last pages of memory, one in 32 of them, but at least 16 and at most 1,024.
pub(crate) fn carve(options: Options) -> PageRange
    requires { options.pages ≤ 524288 }
    ensures { result ≡ carve_range options }
{
    let count = (options.pages / 32).max(16).min(1024);
    PageRange {
        first: Page(FIRST_PAGE + options.pages.saturating_sub(count)),
        count,
    }
}

/// The configuration: logs with room for every step.
pub(crate) fn config(steps: u64, options: Options) -> Config
    ensures { result ≡ asked_config steps options }
{
    Config {
        cpus: options.cpus,
        log: steps.max(1),
        geometry: options.geometry,
    }
}
