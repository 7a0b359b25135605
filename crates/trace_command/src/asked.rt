//! What the words ask for, once clap has read them.
ghost use Rattle.std.specs.Prelude.{◌≡◌, [], IfOk, codes, map, option_and_then, option_map, unwrap_or};
ghost use Rattle.clap.specs.Words.{all_of, first_of, found_of, rows_of, subcommand_rows_of};
ghost use Rattle.trace_words.specs.Numbers.{number_of as number_said};
ghost use Rattle.trace_command.specs.Asked.{
  HasAsked,
  IsReadAs,
  IsReadUnlessMemory,
  are_both_input as are_both_in,
  asked_in,
  auditing,
  checking,
  covering,
  number_given,
  drawing,
  dump_given,
  dumping,
  expanding,
  explaining,
  finding,
  generating,
  asked_heap,
  is_set as is_set_in,
  asked_limit,
  asked_line,
  asked_looks,
  asked_number,
  output_in,
  racing,
  recording,
  writing,
  replaying,
};

use crate::heap_size::heap_size;
use crate::words::{Dump, Invocation, Looks, Output};
use clap::ArgMatches;
use std::alloc::{AllocError, Global};
use trace_words::number;

/// The CPUs of a generated trace, if no word says it.
const CPUS: u64 = 4;

/// Its pages of memory.
const PAGES: u64 = 2048;

/// The width of its input addresses.
const GEOMETRY: u64 = 39;

/// Of a hundred of its calls, those that are to be refused.
const HOSTILE: u64 = 0;

/// The most points of a step that the search for outcomes comes to, if no word says it.
const POINTS: u64 = 100_000;

/// The greatest number of them that can be asked for.
const MOST_POINTS: u64 = 4_294_967_296;

/// A value that isn't of its form.
#[derive(Clone, Copy, PartialEq)]
pub(crate) enum Wanted {
    Subcommand,
    File,
    OneFile,
    OneExpanded,
    OneText,
    Bytes,
    When,
    Number,
    Limit,
    Line,
    OneInput,
    OneForm,
    Root,
    Address,
    Page,
}

/// Why what clap has read asks for nothing.
#[derive(Clone, Copy)]
pub(crate) enum Unread {
    Word(Wanted),
    NoMemory,
}

impl From<AllocError> for Unread {
    ghost use Rattle.trace_command.specs.declared.asked.Unread.TheVariants.{NoMemory};

    ghost from_gives = { λ _ unread. unread ≡ NoMemory };

    fn from(_error: AllocError) -> Unread {
        Unread::NoMemory
    }
}

/// What the command line asks for.
pub(crate) fn asked<'a>(global: Global, matches: &ArgMatches<'a>) -> Result<Invocation<'a>, Unread>
    ensures { HasAsked (option_and_then asked_in (subcommand_rows_of matches.now)) result }
{
    match matches.subcommand() {
        Some((name, inner)) => asked_of(global, name, inner),
        None => Err(Unread::Word(Wanted::Subcommand)),
    }
}

/// The task of a subcommand, by its words.
fn asked_of<'a>(
    global: Global,
    name: &str,
    inner: &ArgMatches<'a>,
) -> Result<Invocation<'a>, Unread>
    ensures { HasAsked (asked_in (name.now, rows_of (found_of inner.now))) result }
{
    if name == "replay" {
        return replay_asked(inner);
    }
    if name == "race" {
        return race_asked(inner);
    }
    if name == "audit" {
        return audit_asked(inner);
    }
    if name == "outcomes" {
        return outcomes_asked(inner);
    }
    if name == "check" {
        return check_asked(global, inner);
    }
    if name == "cover" {
        return cover_asked(global, inner);
    }
    if name == "explain" {
        return explain_asked(inner);
    }
    if name == "generate" {
        return generate_asked(inner);
    }
    if name == "dump" {
        return dump_asked(global, inner);
    }
    if name == "draw" {
        return draw_asked(inner);
    }
    Err(Unread::Word(Wanted::Subcommand))
}

/// The first value of an argument.
fn value<'a>(inner: &ArgMatches<'a>, id: &str) -> Option<&'a str>
    ensures { option_map (λ word. word.now) result ≡ first_of id.now (rows_of (found_of inner.now)) }
{
    inner.get_str(id)
}

/// The value of FILE, a path.
fn file<'a>(inner: &ArgMatches<'a>) -> Result<&'a str, Unread>
    ensures { IsReadAs (first_of (codes "FILE") (rows_of (found_of inner.now))) (λ path. path.now) result }
{
    match value(inner, "FILE") {
        Some(path) => Ok(path),
        None => Err(Unread::Word(Wanted::File)),
    }
}

/// The heap size given by `--heap`, None without it.
fn heap(inner: &ArgMatches<'_>) -> Result<Option<usize>, Unread>
    ensures { IsReadAs (asked_heap (first_of (codes "heap") (rows_of (found_of inner.now))))
        (λ size. size) result }
{
    let Some(word) = value(inner, "heap") else {
        return Ok(None);
    };
    match heap_size(word) {
        Some(size) => Ok(Some(size)),
        None => Err(Unread::Word(Wanted::Bytes)),
    }
}

/// The value of `--oracle`.
fn looks(inner: &ArgMatches<'_>) -> Result<Looks, Unread>
    ensures { IsReadAs (asked_looks (first_of (codes "oracle") (rows_of (found_of inner.now))))
        (λ looks. looks) result }
{
    let Some(word) = value(inner, "oracle") else {
        return Ok(Looks::Each);
    };
    if word == "each" {
        return Ok(Looks::Each);
    }
    if word == "end" {
        return Ok(Looks::End);
    }
    Err(Unread::Word(Wanted::When))
}

/// Whether a flag is given.
fn is_set(inner: &ArgMatches<'_>, id: &str) -> bool
    ensures { result ≡ is_set_in id.now (rows_of (found_of inner.now)) }
{
    match value(inner, id) {
        Some(word) => word == "true",
        None => false,
    }
}

/// How the report is to be written.
fn output(inner: &ArgMatches<'_>) -> Output
    ensures { result ≡ output_in (rows_of (found_of inner.now)) }
{
    if is_set(inner, "quiet") {
        return Output::Nothing;
    }
    if is_set(inner, "json") {
        return Output::Json;
    }
    Output::Report
}

/// The number given for a required value.
fn number_of(inner: &ArgMatches<'_>, id: &str) -> Result<u64, Unread>
    ensures { IsReadAs (option_and_then number_said (first_of id.now (rows_of (found_of inner.now))))
        (λ value. value) result }
{
    let Some(word) = value(inner, id) else {
        return Err(Unread::Word(Wanted::Number));
    };
    match number(word.as_bytes()) {
        Some(value) => Ok(value),
        None => Err(Unread::Word(Wanted::Number)),
    }
}

/// The number given as an option, or `otherwise` without it.
fn number_or(inner: &ArgMatches<'_>, id: &str, otherwise: u64) -> Result<u64, Unread>
    ensures { IsReadAs (asked_number otherwise (first_of id.now (rows_of (found_of inner.now))))
        (λ value. value) result }
{
    let Some(word) = value(inner, id) else {
        return Ok(otherwise);
    };
    match number(word.as_bytes()) {
        Some(value) => Ok(value),
        None => Err(Unread::Word(Wanted::Number)),
    }
}

/// The points that `--limit` allows.
fn limit(inner: &ArgMatches<'_>) -> Result<u64, Unread>
    ensures { IsReadAs (asked_limit (first_of (codes "limit") (rows_of (found_of inner.now))))
        (λ limit. limit) result }
{
    let Some(word) = value(inner, "limit") else {
        return Ok(POINTS);
    };
    match number(word.as_bytes()) {
        Some(limit) if 1 <= limit && limit <= MOST_POINTS => Ok(limit),
        _ => Err(Unread::Word(Wanted::Limit)),
    }
}

/// The line number given by `--line`, None without it.
fn line(inner: &ArgMatches<'_>) -> Result<Option<u64>, Unread>
    ensures { IsReadAs (asked_line (first_of (codes "line") (rows_of (found_of inner.now))))
        (λ line. line) result }
{
    let Some(word) = value(inner, "line") else {
        return Ok(None);
    };
    match number(word.as_bytes()) {
        Some(line) if 1 <= line => Ok(Some(line)),
        _ => Err(Unread::Word(Wanted::Line)),
    }
}

/// The number given as an option, None without the option.
fn given_number(inner: &ArgMatches<'_>, id: &str, wanted: Wanted) -> Result<Option<u64>, Unread>
    ensures { IsReadAs (number_given (first_of id.now (rows_of (found_of inner.now))))
        (λ number. number) result }
{
    let Some(word) = value(inner, id) else {
        return Ok(None);
    };
    match number(word.as_bytes()) {
        Some(number) => Ok(Some(number)),
        None => Err(Unread::Word(wanted)),
    }
}

/// A word that must be given.
fn word<'a>(inner: &ArgMatches<'a>, id: &str) -> Result<&'a str, Unread>
    ensures { IsReadAs (first_of id.now (rows_of (found_of inner.now))) (λ word. word.now) result }
{
    match value(inner, id) {
        Some(word) => Ok(word),
        None => Err(Unread::Word(Wanted::Root)),
    }
}

/// All words that are given for an id; none if there are none.
fn words<'a>(global: Global, inner: &ArgMatches<'a>, id: &str) -> Result<Vec<&'a str>, AllocError>
    ensures { IfOk result
        (λ words. map (λ word. word.now) words.items
        ≡ unwrap_or (all_of id.now (rows_of (found_of inner.now))) []) }
{
    let Some(given) = inner.get_strs(id) else {
        return Ok(Vec::new(global));
    };
    let mut words = Vec::with_capacity(global, given.len())?;
    words.extend_from_slice(given)?;
    Ok(words)
}

/// All values of FILE, which are paths.
fn files<'a>(global: Global, inner: &ArgMatches<'a>) -> Result<Vec<&'a str>, Unread>
    ensures { IsReadUnlessMemory (all_of (codes "FILE") (rows_of (found_of inner.now)))
        (λ files. map (λ path. path.now) files.items) result }
{
    let Some(given) = inner.get_strs("FILE") else {
        return Err(Unread::Word(Wanted::File));
    };
    let mut files = Vec::with_capacity(global, given.len())?;
    files.extend_from_slice(given)?;
    Ok(files)
}

fn replay_asked<'a>(inner: &ArgMatches<'a>) -> Result<Invocation<'a>, Unread>
    ensures { HasAsked (replaying (rows_of (found_of inner.now))) result }
{
    let file = file(inner)?;
    let heap = heap(inner)?;
    let looks = looks(inner)?;
    Ok(Invocation::Replay {
        file,
        heap,
        looks,
        output: output(inner),
    })
}

fn race_asked<'a>(inner: &ArgMatches<'a>) -> Result<Invocation<'a>, Unread>
    ensures { HasAsked (racing (rows_of (found_of inner.now))) result }
{
    Ok(Invocation::Race {
        file: file(inner)?,
        ordered: is_set(inner, "order"),
        output: output(inner),
    })
}

fn audit_asked<'a>(inner: &ArgMatches<'a>) -> Result<Invocation<'a>, Unread>
    ensures { HasAsked (auditing (rows_of (found_of inner.now))) result }
{
    Ok(Invocation::Audit {
        file: file(inner)?,
        legal: is_set(inner, "legal"),
        output: output(inner),
    })
}

fn outcomes_asked<'a>(inner: &ArgMatches<'a>) -> Result<Invocation<'a>, Unread>
    ensures { HasAsked (finding (rows_of (found_of inner.now))) result }
{
    let file = file(inner)?;
    let limit = limit(inner)?;
    let observed = value(inner, "observed");
    if are_both_input(file, observed) {
        return Err(Unread::Word(Wanted::OneInput));
    }
    Ok(Invocation::Outcomes {
        file,
        limit,
        observed,
        output: output(inner),
    })
}

/// Whether a trace and a report are both standard input.
fn are_both_input(file: &str, observed: Option<&str>) -> bool
    ensures { result ≡ are_both_in file.now (option_map (λ report. report.now) observed.entry) }
{
    match observed {
        Some(report) => file == "-" && report == "-",
        None => false,
    }
}

fn check_asked<'a>(global: Global, inner: &ArgMatches<'a>) -> Result<Invocation<'a>, Unread>
    ensures { HasAsked (checking (rows_of (found_of inner.now))) result }
{
    let files = files(global, inner)?;
    let looks = looks(inner)?;
    let records = is_set(inner, "record");
    let expands = is_set(inner, "expand");
    if records || expands {
        return text_asked(records, expands, files.as_slice());
    }
    Ok(Invocation::Check {
        files,
        looks,
        output: output(inner),
    })
}

/// `check --record` of these files, which are to be one.
fn record_asked<'a>(files: &[&'a str]) -> Result<Invocation<'a>, Unread>
    ensures { HasAsked (recording (map (λ path. path.now) files.now)) result }
{
    match files {
        [file] => Ok(Invocation::Record { file: *file }),
        _ => Err(Unread::Word(Wanted::OneFile)),
    }
}

/// `check --expand` of these files, which are to be one.
fn expand_asked<'a>(files: &[&'a str]) -> Result<Invocation<'a>, Unread>
    ensures { HasAsked (expanding (map (λ path. path.now) files.now)) result }
{
    match files {
        [file] => Ok(Invocation::Expand { file: *file }),
        _ => Err(Unread::Word(Wanted::OneExpanded)),
    }
}

/// One of the two, of which not both may be given.
fn text_asked<'a>(records: bool, expands: bool, files: &[&'a str]) -> Result<Invocation<'a>, Unread>
    ensures { HasAsked (writing records expands (map (λ path. path.now) files.now)) result }
{
    if !records {
        return expand_asked(files);
    }
    if expands {
        return Err(Unread::Word(Wanted::OneText));
    }
    record_asked(files)
}

fn cover_asked<'a>(global: Global, inner: &ArgMatches<'a>) -> Result<Invocation<'a>, Unread>
    ensures { HasAsked (covering (rows_of (found_of inner.now))) result }
{
    let files = files(global, inner)?;
    Ok(Invocation::Cover {
        files,
        missing: is_set(inner, "missing"),
        quiet: is_set(inner, "quiet"),
    })
}

fn explain_asked<'a>(inner: &ArgMatches<'a>) -> Result<Invocation<'a>, Unread>
    ensures { HasAsked (explaining (rows_of (found_of inner.now))) result }
{
    let file = file(inner)?;
    let line = line(inner)?;
    let output = output(inner);
    Ok(Invocation::Explain { file, line, output })
}

fn generate_asked<'a>(inner: &ArgMatches<'a>) -> Result<Invocation<'a>, Unread>
    ensures { HasAsked (generating (rows_of (found_of inner.now))) result }
{
    let seed = number_of(inner, "SEED")?;
    let steps = number_of(inner, "STEPS")?;
    let cpus = number_or(inner, "cpus", CPUS)?;
    let pages = number_or(inner, "pages", PAGES)?;
    let geometry = number_or(inner, "geometry", GEOMETRY)?;
    let hostile = number_or(inner, "hostile", HOSTILE)?;
    Ok(Invocation::Generate {
        seed,
        steps,
        cpus,
        pages,
        geometry,
        hostile,
    })
}

fn dump_words<'a>(global: Global, inner: &ArgMatches<'a>) -> Result<Invocation<'a>, Unread>
    ensures { HasAsked (dump_given (rows_of (found_of inner.now))) result }
{
    let image = word(inner, "IMAGE")?;
    let host = word(inner, "host")?;
    let hyp = word(inner, "hyp")?;
    let base = given_number(inner, "base", Wanted::Address)?;
    let vmemmap = given_number(inner, "vmemmap", Wanted::Page)?;
    let guests = words(global, inner, "guest")?;
    let profiles = words(global, inner, "profile")?;
    let skips = words(global, inner, "skip")?;
    Ok(Invocation::Dump(Dump {
        image,
        host,
        hyp,
        guests,
        profiles,
        skips,
        base,
        vmemmap,
        draw: is_set(inner, "draw"),
        output: output(inner),
    }))
}

fn dump_asked<'a>(global: Global, inner: &ArgMatches<'a>) -> Result<Invocation<'a>, Unread>
    ensures { HasAsked (dumping (rows_of (found_of inner.now))) result }
{
    if is_set(inner, "draw") && is_set(inner, "json") {
        return Err(Unread::Word(Wanted::OneForm));
    }
    dump_words(global, inner)
}

fn draw_asked<'a>(inner: &ArgMatches<'a>) -> Result<Invocation<'a>, Unread>
    ensures { HasAsked (drawing (rows_of (found_of inner.now))) result }
{
    Ok(Invocation::Draw {
        file: file(inner)?,
        text: is_set(inner, "text"),
    })
}
