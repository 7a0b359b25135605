//! A trace that is made.
ghost use Rattle.std.specs.Prelude.{◌≡◌, ◌++◌, ◌≤◌, codes, IfOk, IfErr, OnOk, string_bytes};
ghost use Rattle.page_state.specs.LayoutView.{layout_of};
ghost use Rattle.trace_generate.specs.Lines.{text_of_line, text_of_settings};
ghost use Rattle.trace_generate.specs.Machine.{IsFault, IsInRange, IsLayoutOf, settings_of};
ghost use Rattle.trace_generate.specs.Made.{AreCallsMade, IsTrace};

use crate::chance::seeded;
use crate::line::{SettingLines, StepLine};
use crate::options::{GenerateFault, Options, carve, config, memory, tested};
use crate::walk::{booted, is_hostile, next_call};
use crate::wanting::Made;
use ghost_spec::state::Ghost;
use std::alloc::{AllocError, Global};
use std::fmt::Write;
use trace_reader::Progress;

/// A trace of `steps` calls on the machine of these options: its settings, its boot and the steps. The same seed gives
/// the same bytes. `progress` counts each call that is made.
pub fn generate<P: Progress>(
    global: Global,
    seed: u64,
    steps: u64,
    options: &Options,
    progress: &P,
) -> Result<String, GenerateFault>
    ensures trace { IfOk result (λ text. IsTrace steps options.now (string_bytes text)) }
    ensures in_range { OnOk result (IsInRange steps options.now) }
    ensures fault { IfErr result (λ f. IsFault f steps options.now) }
{
    let options = *options;
    tested(steps, options)?;
    let mut text = settings(global, steps, options)?;
    let mut state = booted(global, steps, options)?;
    let made = walked(
        global, &mut state, seed, steps, options, &mut text, progress,
    );
    drop(state);
    match made {
        Ok(()) => Ok(text),
        Err(_) => Err(GenerateFault::NoMemory),
    }
}

/// The lines of the settings.
fn settings(global: Global, steps: u64, options: Options) -> Result<String, GenerateFault>
    requires { IsInRange steps options }
    ensures text { IfOk result
        (λ text. string_bytes text ≡ text_of_settings (settings_of steps options) ++ codes "\n") }
    ensures fault { IfErr result (λ f. IsFault f steps options) }
{
    let lines = SettingLines {
        geometry: options.geometry,
        cpus: options.cpus,
        log: config(steps, options).log,
        memory: memory(options),
        carve: carve(options),
    };
    match format!(in global; "{lines}\n") {
        Ok(text) => Ok(text),
        Err(_) => Err(GenerateFault::NoMemory),
    }
}

/// Writes the lines of the calls.
fn walked<P: Progress>(
    global: Global,
    state: &mut Ghost,
    seed: u64,
    steps: u64,
    options: Options,
    text: &mut String,
    progress: &P,
) -> Result<(), AllocError>
    requires range { IsInRange steps options }
    requires layout { IsLayoutOf steps options (layout_of state.old.layout) }
    ensures { OnOk result
        (AreCallsMade options.hostile steps state.old state.new (string_bytes text.old)
        (string_bytes text.new)) }
{
    let mut chance = seeded(seed);
    let mut made = Made::NONE;
    for number in 0..steps {
        let hostile = is_hostile(options.hostile, number);
        let call = next_call(global, state, memory(options), hostile, made, &mut chance)?;
        write_call(text, call)?;
        progress.advance(1);
        if !hostile {
            made.note(call.step);
        }
    }
    Ok(())
}

fn write_call(text: &mut String, call: StepLine) -> Result<(), AllocError>
    ensures { OnOk result
        (string_bytes text.new ≡ string_bytes text.old ++ (text_of_line call ++ codes "\n")) }
{
    writeln!(text, "{call}")
}
