//! The forms of the words, as clap takes them.
ghost use Rattle.std.specs.Prelude.{◌≡◌, IfOk, codes, false};
ghost use Rattle.clap.specs.Words.{app_of, rule_of};
ghost use Rattle.clap.specs.declared.builder.command.Command.TheViews.{out-Command as fields_of};
ghost use Rattle.trace_command.specs.Words.{
  audit as audit_app,
  check as check_app,
  cover as cover_app,
  draw as draw_app,
  dump as dump_app,
  explain as explain_app,
  files as files_rule,
  flag as flag_rule,
  generate as generate_app,
  needed as needed_rule,
  needed_option as needed_option_rule,
  option as option_rule,
  options as options_rule,
  outcomes as outcomes_app,
  program,
  race as race_app,
  replay as replay_app,
  reporting as reporting_app,
};
ghost use Rattle.clap.specs.Words.{new_app, with_rule, with_subcommand};

use crate::asked::Wanted;
use clap::error::ErrorKind;
use clap::{Arg, ArgAction, Command, Error};
use std::alloc::{AllocError, Global};

/// The text that `--version` shows.
const VERSION: &str = "3.0.0 (rattle-kit-13f)";

/// The name of the program in usage texts.
const PROGRAM: &str = "./run";

/// The text that help shows after the words.
const EXAMPLES: &str =
    "Examples:\n  ./run replay examples/first_share.trace\n  ./run replay examples/first_share.trace --heap 262144\n  ./run race examples/raced/one_vcpu.trace\n  ./run outcomes examples/raced/one_vcpu.trace\n  ./run audit examples/audited/broken_word.trace\n  ./run check examples/expected_replies.trace\n  ./run cover examples/first_share.trace examples/refusals.trace\n  ./run explain examples/first_share.trace\n  ./run generate 1 1000 --cpus 4 --hostile 10\n  ./run draw examples/protected_vm.trace\n\nFILE is a path, or - for standard input.\n\nExit status:\n  0  the report ends without a fault or a disagreement; what a trace expects is met, or nothing is missing\n  1  the report has a fault or a disagreement, an expectation is missed, something never came, or reading, writing, memory or the start of a thread failed\n  2  FILE can't be opened, or has a fault that cover meets, the words are refused, or help was asked for\n\nThe lines of a trace, its report and each fault are explained in docs/TRACES.md, the objects of --json in docs/JSON.md.";

/// The text that help shows after the words. No contract speaks of it; it is a call since a function that names so long a
/// text takes minutes to prove.
fn examples() -> &'static str {
    EXAMPLES
}

/// A required positional value.
fn needed<'a>(global: Global, id: &'a str, help: &'a str) -> Arg<'a>
    ensures rule { rule_of result ≡ needed_rule id.now }
    ensures local { result.global ≡ false }
{
    Arg::new(global, id)
        .required(true)
        .action(ArgAction::Set)
        .help(help)
}

/// Required positional values, one or more.
fn files_arg<'a>(global: Global) -> Arg<'a>
    ensures rule { rule_of result ≡ files_rule }
    ensures local { result.global ≡ false }
{
    Arg::new(global, "FILE")
        .required(true)
        .num_args(1..)
        .action(ArgAction::Append)
        .help("the traces")
}

/// `--ID NAME`.
fn option<'a>(global: Global, id: &'a str, name: &'a str, help: &'a str) -> Arg<'a>
    ensures rule { rule_of result ≡ option_rule id.now }
    ensures local { result.global ≡ false }
{
    Arg::new(global, id)
        .long(id)
        .value_name(name)
        .action(ArgAction::Set)
        .help(help)
}

/// `--ID NAME`, which is required.
fn needed_option<'a>(global: Global, id: &'a str, name: &'a str, help: &'a str) -> Arg<'a>
    ensures rule { rule_of result ≡ needed_option_rule id.now }
    ensures local { result.global ≡ false }
{
    Arg::new(global, id)
        .long(id)
        .value_name(name)
        .required(true)
        .action(ArgAction::Set)
        .help(help)
}

/// `--ID NAME`, which may be given more than once.
fn options<'a>(global: Global, id: &'a str, name: &'a str, help: &'a str) -> Arg<'a>
    ensures rule { rule_of result ≡ options_rule id.now }
    ensures local { result.global ≡ false }
{
    Arg::new(global, id)
        .long(id)
        .value_name(name)
        .action(ArgAction::Append)
        .help(help)
}

/// `--ID`.
fn flag<'a>(global: Global, id: &'a str, help: &'a str) -> Arg<'a>
    ensures rule { rule_of result ≡ flag_rule id.now }
    ensures local { result.global ≡ false }
{
    Arg::new(global, id)
        .long(id)
        .action(ArgAction::SetTrue)
        .help(help)
}

/// A subcommand that takes nothing yet.
fn subcommand<'a>(global: Global, name: &'a str, about: &'a str) -> Command<'a>
    ensures app { app_of result ≡ new_app name.now }
    ensures local { (fields_of result).has_globals ≡ false }
{
    Command::new(global, name)
        .about(about)
        .after_help(examples())
}

/// A subcommand that takes this too.
fn with<'a>(form: Command<'a>, arg: Arg<'a>) -> Result<Command<'a>, AllocError>
    requires form { (fields_of form).has_globals ≡ false }
    requires arg { arg.global ≡ false }
    ensures app { IfOk result (λ more. app_of more ≡ with_rule (app_of form.entry) (rule_of arg.entry)) }
    ensures local { IfOk result (λ more. (fields_of more).has_globals ≡ false) }
{
    form.arg(arg)
}

/// The program's form with this subcommand too.
fn with_form<'a>(form: Command<'a>, more: Command<'a>) -> Result<Command<'a>, AllocError>
    requires more { (fields_of more).has_globals ≡ false }
    ensures app { IfOk result
        (λ whole. app_of whole ≡ with_subcommand (app_of form.entry) (app_of more.entry).top) }
{
    form.subcommand(more)
}

fn file<'a>(global: Global) -> Arg<'a>
    ensures rule { rule_of result ≡ needed_rule (codes "FILE") }
    ensures local { result.global ≡ false }
{
    needed(global, "FILE", "the trace; - is standard input")
}

fn oracle<'a>(global: Global) -> Arg<'a>
    ensures rule { rule_of result ≡ option_rule (codes "oracle") }
    ensures local { result.global ≡ false }
{
    option(
        global,
        "oracle",
        "WHEN",
        "when the oracle checks: 'each' step, or once at the 'end' (default each)",
    )
}

/// A subcommand that also takes how its report is written.
fn reporting<'a>(global: Global, form: Command<'a>) -> Result<Command<'a>, AllocError>
    requires { (fields_of form).has_globals ≡ false }
    ensures app { IfOk result (λ more. app_of more ≡ reporting_app (app_of form.entry)) }
    ensures local { IfOk result (λ more. (fields_of more).has_globals ≡ false) }
{
    let form = with(form, json(global))?;
    with(form, quiet(global))
}

fn json<'a>(global: Global) -> Arg<'a>
    ensures rule { rule_of result ≡ flag_rule (codes "json") }
    ensures local { result.global ≡ false }
{
    flag(global, "json", "writes each line as a JSON object")
}

fn quiet<'a>(global: Global) -> Arg<'a>
    ensures rule { rule_of result ≡ flag_rule (codes "quiet") }
    ensures local { result.global ≡ false }
{
    flag(global, "quiet", "print no report, only set the exit status")
}

fn replay<'a>(global: Global) -> Result<Command<'a>, AllocError>
    ensures app { IfOk result (λ form. app_of form ≡ replay_app) }
    ensures local { IfOk result (λ form. (fields_of form).has_globals ≡ false) }
{
    let form = subcommand(global, "replay", "Run a trace and report each reply");
    let form = with(form, file(global))?;
    let heap = option(
        global,
        "heap",
        "BYTES",
        "size of a heap for page tables, 4096 to 1073741824 (default: the process's memory)",
    );
    let form = with(form, heap)?;
    let form = with(form, oracle(global))?;
    reporting(global, form)
}

fn race<'a>(global: Global) -> Result<Command<'a>, AllocError>
    ensures app { IfOk result (λ form. app_of form ≡ race_app) }
    ensures local { IfOk result (λ form. (fields_of form).has_globals ≡ false) }
{
    let form = subcommand(
        global,
        "race",
        "Run a trace, the steps after 'start' on one thread per CPU, and report each reply",
    );
    let form = with(form, file(global))?;
    let order = flag(
        global,
        "order",
        "also write the order in which the steps after 'start' took effect, by their lines",
    );
    let form = with(form, order)?;
    reporting(global, form)
}

fn audit<'a>(global: Global) -> Result<Command<'a>, AllocError>
    ensures app { IfOk result (λ form. app_of form ≡ audit_app) }
    ensures local { IfOk result (λ form. (fields_of form).has_globals ≡ false) }
{
    let form = subcommand(
        global,
        "audit",
        "Run a trace, overwrite the table words that it pokes, and compare the kept maps with a walk of all tables",
    );
    let form = with(form, file(global))?;
    let legal = flag(
        global,
        "legal",
        "also say why the state that the walk finds isn't legal, with status 1 if it isn't",
    );
    let form = with(form, legal)?;
    reporting(global, form)
}

fn outcomes<'a>(global: Global) -> Result<Command<'a>, AllocError>
    ensures app { IfOk result (λ form. app_of form ≡ outcomes_app) }
    ensures local { IfOk result (λ form. (fields_of form).has_globals ≡ false) }
{
    let form = subcommand(
        global,
        "outcomes",
        "Find all replies that the steps after 'start' may get, in any order of the CPUs",
    );
    let form = with(form, file(global))?;
    let limit = option(
        global,
        "limit",
        "N",
        "give up if more than N states must be kept at once, 1 to 4294967296 (default 100000)",
    );
    let form = with(form, limit)?;
    let observed = option(
        global,
        "observed",
        "REPORT",
        "say whether some order gives the replies of this report",
    );
    let form = with(form, observed)?;
    reporting(global, form)
}

fn check<'a>(global: Global) -> Result<Command<'a>, AllocError>
    ensures app { IfOk result (λ form. app_of form ≡ check_app) }
    ensures local { IfOk result (λ form. (fields_of form).has_globals ≡ false) }
{
    let form = subcommand(
        global,
        "check",
        "Run traces and compare each reply with the comment '#= ..' after its line",
    );
    let form = with(form, files_arg(global))?;
    let record = flag(
        global,
        "record",
        "write the trace with its replies as expectations (one FILE)",
    );
    let form = with(form, record)?;
    let expand = flag(
        global,
        "expand",
        "write the trace with values in place of its names (one FILE)",
    );
    let form = with(form, expand)?;
    let form = with(form, oracle(global))?;
    reporting(global, form)
}

fn cover<'a>(global: Global) -> Result<Command<'a>, AllocError>
    ensures app { IfOk result (λ form. app_of form ≡ cover_app) }
    ensures local { IfOk result (λ form. (fields_of form).has_globals ≡ false) }
{
    let form = subcommand(
        global,
        "cover",
        "Count what traces have tried: calls, refusals, and conditions of frames",
    );
    let files = files_arg(global);
    let form = with(form, files)?;
    let missing = flag(
        global,
        "missing",
        "write only what never came, with status 1 if there is any",
    );
    let form = with(form, missing)?;
    with(form, quiet(global))
}

fn explain<'a>(global: Global) -> Result<Command<'a>, AllocError>
    ensures app { IfOk result (λ form. app_of form ≡ explain_app) }
    ensures local { IfOk result (λ form. (fields_of form).has_globals ≡ false) }
{
    let form = subcommand(
        global,
        "explain",
        "Show a trace line by line: replies, what each step looked at and what it changed",
    );
    let form = with(form, file(global))?;
    let line = option(global, "line", "N", "show only line N");
    let form = with(form, line)?;
    reporting(global, form)
}

fn generate<'a>(global: Global) -> Result<Command<'a>, AllocError>
    ensures app { IfOk result (λ form. app_of form ≡ generate_app) }
    ensures local { IfOk result (λ form. (fields_of form).has_globals ≡ false) }
{
    let form = subcommand(
        global,
        "generate",
        "Generate a random trace of all calls (the same arguments give the same trace)",
    );
    let form = with(form, needed(global, "SEED", "random seed"))?;
    let form = with(form, needed(global, "STEPS", "number of steps"))?;
    let form = with(
        form,
        option(global, "cpus", "N", "number of CPUs, 1 to 64 (default 4)"),
    )?;
    let form = with(
        form,
        option(global, "pages", "N", "pages of memory (default 2048)"),
    )?;
    let form = with(
        form,
        option(
            global,
            "geometry",
            "N",
            "bits of input addresses, 39 or 48 (default 39)",
        ),
    )?;
    with(
        form,
        option(
            global,
            "hostile",
            "N",
            "percentage of calls that the model should refuse (default 0)",
        ),
    )
}

fn draw<'a>(global: Global) -> Result<Command<'a>, AllocError>
    ensures app { IfOk result (λ form. app_of form ≡ draw_app) }
    ensures local { IfOk result (λ form. (fields_of form).has_globals ≡ false) }
{
    let form = subcommand(global, "draw", "Draw page ownership, step by step, as SVG");
    let form = with(form, file(global))?;
    let text = flag(global, "text", "write the final state as text instead");
    with(form, text)
}

fn dump<'a>(global: Global) -> Result<Command<'a>, AllocError>
    ensures app { IfOk result (λ form. app_of form ≡ dump_app) }
    ensures local { IfOk result (λ form. (fields_of form).has_globals ≡ false) }
{
    let form = subcommand(
        global,
        "dump",
        "Read page tables from a memory image: who owns what, and what is unsound",
    );
    let image = needed(
        global,
        "IMAGE",
        "an ELF core of physical memory, or raw bytes with --base",
    );
    let form = with(form, image)?;
    let host = needed_option(
        global,
        "host",
        "ROOT",
        "the host's root table: FRAME[:LEVEL[:PAGES]] (default level 0, 1 page)",
    );
    let form = with(form, host)?;
    let form = with(
        form,
        needed_option(global, "hyp", "ROOT", "the hypervisor's root table"),
    )?;
    let form = with(
        form,
        options(
            global,
            "guest",
            "N=ROOT",
            "the root table of the guest in slot N, 0 to 63",
        ),
    )?;
    let form = with(
        form,
        options(
            global,
            "profile",
            "TREE=NAME",
            "descriptor format of a tree: model, or 6.12 or 7.3, with -fwb or -hvhe, and -lpa2 (TREE: host, hyp or a guest's number)",
        ),
    )?;
    let form = with(
        form,
        options(
            global,
            "skip",
            "TREE=FIRST-LAST",
            "pages of a tree to leave out",
        ),
    )?;
    let base = option(
        global,
        "base",
        "ADDRESS",
        "the image is raw and starts at this physical address",
    );
    let form = with(form, base)?;
    let vmemmap = option(
        global,
        "vmemmap",
        "PAGE",
        "the hypervisor's page where __hyp_vmemmap begins (7.3): states of its pages and the host's",
    );
    let form = with(form, vmemmap)?;
    let drawing = flag(global, "draw", "write a picture (SVG) instead");
    let form = with(form, drawing)?;
    reporting(global, form)
}

/// The form of the words: the program's name and one subcommand.
pub(crate) fn form<'a>(global: Global) -> Result<Command<'a>, AllocError>
    ensures { IfOk result (λ form. app_of form ≡ program) }
{
    let named = Command::new(global, "trace_cli").bin_name(PROGRAM)?;
    let form = named
        .about("Run traces of hypercalls on a model of protected KVM's page ownership")
        .version(VERSION)
        .after_help(examples())
        .subcommand_required(true)
        .arg_required_else_help(true);
    let form = with_form(form, replay(global)?)?;
    let form = with_form(form, race(global)?)?;
    let form = with_form(form, audit(global)?)?;
    let form = with_form(form, outcomes(global)?)?;
    let form = with_form(form, check(global)?)?;
    let form = with_form(form, cover(global)?)?;
    let form = with_form(form, explain(global)?)?;
    let form = with_form(form, generate(global)?)?;
    let form = with_form(form, draw(global)?)?;
    with_form(form, dump(global)?)
}

/// The error for a value that isn't of its form.
pub(crate) fn refusal(global: Global, wanted: Wanted) -> Result<Error, AllocError> {
    let mut form = form(global)?;
    form.error(ErrorKind::ValueValidation, text_of(wanted))
}

fn text_of(wanted: Wanted) -> &'static str {
    match wanted {
        Wanted::Subcommand => "a subcommand is needed",
        Wanted::File => "FILE is needed",
        Wanted::OneFile => "--record takes one FILE",
        Wanted::OneExpanded => "--expand takes one FILE",
        Wanted::OneText => "--record and --expand can't both be given",
        Wanted::Bytes => "BYTES must be a decimal number from 4096 to 1073741824",
        Wanted::When => "WHEN must be each or end",
        Wanted::Number =>
            "SEED, STEPS and each N must be numbers below 2^64, decimal or 0x and hexadecimal",
        Wanted::Limit =>
            "N of --limit must be a number from 1 to 4294967296, decimal or 0x and hexadecimal",
        Wanted::Root => "IMAGE, --host and --hyp are needed",
        Wanted::Address => "ADDRESS must be a number below 2^64, decimal or 0x and hexadecimal",
        Wanted::Page => "PAGE must be a number below 2^64, decimal or 0x and hexadecimal",
        Wanted::OneInput => "FILE and REPORT can't both be standard input",
        Wanted::OneForm => "--draw and --json can't both be given: a picture is no JSON",
        Wanted::Line =>
            "N of --line must be a number from 1 on and below 2^64, decimal or 0x and hexadecimal",
    }
}
