//! The forms of the lines of each report. A line is of the first form that it has.
use crate::forms::Kind::{Hexadecimal, Level, Number, OneOf, Text, Word};
use crate::forms::{Field, Form};

/// A form: what `type` says, the line's start, and each field's name, kind and stop.
macro_rules! form {
    ($kind:literal, $start:literal $(, [$name:literal, $is:expr, $stop:literal])*) => {
        Form {
            kind: $kind,
            start: $start,
            fields: &[$(Field { name: $name, kind: $is, stop: $stop }),*],
        }
    };
}

/// The replies that a step can get.
const REPLIES: &[&str] = &[
    "ok",
    "perm",
    "novm",
    "busy",
    "invalid",
    "nopool",
    "nomemory",
    "logfull",
    "contended",
];

/// The names of those that have a page or a frame.
const PAGED: &[&str] = &["host", "hyp", "owner"];

/// What has a place of its own in the explanation of a step.
const PLACES: &[&str] = &["free shared", "loaded", "hand", "ticket"];

/// What a disagreement names: the reply, what has a slot or a CPU, and the shared pool.
const REPLY: &[&str] = &["reply"];

const GUEST: &[&str] = &["guest"];

const VM: &[&str] = &["vm"];

const SLOTS: &[&str] = &["guest", "vm"];

const SLOTS_LEFT: &[&str] = &["guest_free", "guest_state"];

const TABLE: &[&str] = &["table"];

/// The trees of a kind of which there is one.
const TREES: &[&str] = &["host", "hyp"];

const CPU: &[&str] = &["cpu"];

const POOL: &[&str] = &["free"];

/// Findings of two claims on one frame, of one claim, and of words that say nothing or name no table of the image.
const CLASHES: &[&str] = &["two-owners", "two-borrowers", "table-of-two"];

const MAPPED: &[&str] = &["mapped-table"];

const UNSHARED: &[&str] = &["no-borrower", "unshared", "denied"];

const BROKEN: &[&str] = &["malformed", "no-table"];

/// The lines of `replay`, `race` and `audit`.
pub const REPORTS: &[Form] = &[
    form!(
        "boot",
        "boot host ",
        ["host", Number, " hyp "],
        ["hyp", Number, " free "],
        ["free", Number, ""]
    ),
    form!("word", "word ", ["word", Hexadecimal, ""]),
    form!("free", "free ", ["free", Number, ""]),
    form!(
        "run",
        "run ",
        ["page", Hexadecimal, " "],
        ["count", Number, " "],
        ["entry", Text, ""]
    ),
    form!(
        "fault",
        "",
        ["line", Number, " fault "],
        ["fault", Text, ""]
    ),
    form!(
        "step",
        "",
        ["line", Number, " "],
        ["cpu", Number, " "],
        ["reply", OneOf(REPLIES), " entry "],
        ["entry", Text, ""]
    ),
    form!(
        "step",
        "",
        ["line", Number, " "],
        ["cpu", Number, " "],
        ["reply", OneOf(REPLIES), " owner "],
        ["owner", Number, " lent "],
        ["lent", Word, " use "],
        ["use", Text, ""]
    ),
    form!(
        "step",
        "",
        ["line", Number, " "],
        ["cpu", Number, " "],
        ["reply", OneOf(REPLIES), " vm "],
        ["vm", Word, ""]
    ),
    form!(
        "step",
        "",
        ["line", Number, " "],
        ["cpu", Number, " "],
        ["reply", OneOf(REPLIES), " frame "],
        ["frame", Hexadecimal, ""]
    ),
    form!(
        "step",
        "",
        ["line", Number, " "],
        ["cpu", Number, " "],
        ["reply", OneOf(REPLIES), ""]
    ),
    form!(
        "disagree",
        "disagree ",
        ["what", OneOf(REPLY), " said "],
        ["said", Text, " spec "],
        ["spec", Text, ""]
    ),
    form!(
        "disagree",
        "disagree ",
        ["what", OneOf(GUEST), " "],
        ["slot", Number, " "],
        ["page", Hexadecimal, " post "],
        ["post", Text, " spec "],
        ["spec", Text, ""]
    ),
    form!(
        "disagree",
        "disagree ",
        ["what", OneOf(GUEST), " "],
        ["slot", Number, " "],
        ["page", Hexadecimal, " kept "],
        ["kept", Text, " walked "],
        ["walked", Text, ""]
    ),
    form!(
        "disagree",
        "disagree ",
        ["what", OneOf(PAGED), " "],
        ["page", Hexadecimal, " post "],
        ["post", Text, " spec "],
        ["spec", Text, ""]
    ),
    form!(
        "disagree",
        "disagree ",
        ["what", OneOf(PAGED), " "],
        ["page", Hexadecimal, " kept "],
        ["kept", Text, " walked "],
        ["walked", Text, ""]
    ),
    form!(
        "disagree",
        "disagree ",
        ["what", OneOf(TABLE), " "],
        ["tree", OneOf(GUEST), " "],
        ["slot", Number, " "],
        ["height", Number, " "],
        ["index", Hexadecimal, " post "],
        ["post", Text, " spec "],
        ["spec", Text, ""]
    ),
    form!(
        "disagree",
        "disagree ",
        ["what", OneOf(TABLE), " "],
        ["tree", OneOf(TREES), " "],
        ["height", Number, " "],
        ["index", Hexadecimal, " post "],
        ["post", Text, " spec "],
        ["spec", Text, ""]
    ),
    form!(
        "disagree",
        "disagree ",
        ["what", OneOf(SLOTS_LEFT), " "],
        ["slot", Number, " post "],
        ["post", Text, " spec "],
        ["spec", Text, ""]
    ),
    form!(
        "disagree",
        "disagree ",
        ["what", OneOf(POOL), " post "],
        ["post", Text, " spec "],
        ["spec", Text, ""]
    ),
    form!(
        "disagree",
        "disagree ",
        ["what", OneOf(TABLE), " "],
        ["tree", OneOf(GUEST), " "],
        ["slot", Number, " "],
        ["height", Number, " "],
        ["index", Hexadecimal, " kept "],
        ["kept", Text, " walked "],
        ["walked", Text, ""]
    ),
    form!(
        "disagree",
        "disagree ",
        ["what", OneOf(TABLE), " "],
        ["tree", OneOf(TREES), " "],
        ["height", Number, " "],
        ["index", Hexadecimal, " kept "],
        ["kept", Text, " walked "],
        ["walked", Text, ""]
    ),
    form!(
        "disagree",
        "disagree ",
        ["what", OneOf(SLOTS_LEFT), " "],
        ["slot", Number, " kept "],
        ["kept", Text, " walked "],
        ["walked", Text, ""]
    ),
    form!(
        "disagree",
        "disagree ",
        ["what", OneOf(POOL), " kept "],
        ["kept", Text, " walked "],
        ["walked", Text, ""]
    ),
    form!(
        "disagree",
        "disagree ",
        ["what", OneOf(VM), " "],
        ["slot", Number, ""]
    ),
    form!(
        "disagree",
        "disagree ",
        ["what", OneOf(CPU), " "],
        ["cpu", Number, ""]
    ),
    form!("order", "order ", ["order", Text, ""]),
    form!("illegal", "illegal ", ["why", Text, ""]),
    form!(
        "end",
        "end steps ",
        ["steps", Number, " disagreements "],
        ["disagreements", Number, ""]
    ),
    form!("text", "", ["text", Text, ""]),
];

/// The lines of `outcomes`, with `--observed` too.
pub const OUTCOMES: &[Form] = &[
    form!(
        "outcome",
        "outcome ",
        ["replies", Text, "; order "],
        ["order", Text, ""]
    ),
    form!(
        "end",
        "end steps ",
        ["steps", Number, " outcomes "],
        ["outcomes", Number, ""]
    ),
    form!("too_many", "too many after ", ["steps", Number, " steps"]),
    form!("order", "order ", ["order", Text, ""]),
    form!("no_order", "no order gives these replies"),
    form!(
        "fault",
        "",
        ["line", Number, " fault "],
        ["fault", Text, ""]
    ),
    form!(
        "told_otherwise",
        "",
        ["line", Number, " told otherwise than "],
        ["reply", Text, ""]
    ),
    form!(
        "step",
        "",
        ["line", Number, " "],
        ["cpu", Number, " "],
        ["replies", Text, ""]
    ),
    form!(
        "place",
        "",
        ["file", Text, ":"],
        ["line", Number, ":"],
        ["column", Number, ": found `"],
        ["found", Text, "`, wanted "],
        ["wanted", Text, ""]
    ),
    form!("text", "", ["text", Text, ""]),
];

/// The lines of `check`.
pub const CHECKS: &[Form] = &[
    form!(
        "miss",
        "",
        ["file", Text, ":"],
        ["line", Number, ": expected "],
        ["expected", Text, ", got "],
        ["got", Text, ""]
    ),
    form!(
        "miss",
        "",
        ["file", Text, ":"],
        ["line", Number, ": expected "],
        ["expected", Text, ", "],
        ["why", Text, ""]
    ),
    form!(
        "miss",
        "",
        ["file", Text, ":"],
        ["line", Number, ": got "],
        ["got", Text, ", "],
        ["why", Text, ""]
    ),
    form!(
        "miss",
        "",
        ["file", Text, ":"],
        ["line", Number, ": unexpected fault "],
        ["fault", Text, ""]
    ),
    form!(
        "miss",
        "",
        ["file", Text, ":"],
        ["line", Number, ": "],
        ["why", Text, ""]
    ),
    form!(
        "stray",
        "",
        ["file", Text, ":"],
        ["line", Number, ":"],
        ["column", Number, ": no expectation: found `"],
        ["found", Text, "`, wanted "],
        ["wanted", Text, ""]
    ),
    form!(
        "place",
        "",
        ["file", Text, ":"],
        ["line", Number, ":"],
        ["column", Number, ": fault "],
        ["fault", Text, ": found "],
        ["found", Text, ", wanted "],
        ["wanted", Text, ""]
    ),
    form!(
        "checked",
        "",
        ["file", Text, ": "],
        ["expected", Number, " expected, "],
        ["wrong", Number, " wrong"]
    ),
    form!("remark", "", ["file", Text, ": "], ["why", Text, ""]),
    form!("text", "", ["text", Text, ""]),
];

/// The lines of `explain`: the trace's own, and after each its explanation, indented by four spaces.
pub const EXPLANATIONS: &[Form] = &[
    form!(
        "boot",
        "    boot host ",
        ["host", Number, " hyp "],
        ["hyp", Number, " free "],
        ["free", Number, ""]
    ),
    form!("word", "    word ", ["word", Hexadecimal, ""]),
    form!("free", "    free ", ["free", Number, ""]),
    form!(
        "run",
        "    run ",
        ["page", Hexadecimal, " "],
        ["count", Number, " "],
        ["entry", Text, ""]
    ),
    form!("fault", "    fault ", ["fault", Text, ""]),
    form!(
        "reply",
        "    ",
        ["reply", OneOf(REPLIES), " entry "],
        ["entry", Text, ""]
    ),
    form!(
        "reply",
        "    ",
        ["reply", OneOf(REPLIES), " owner "],
        ["owner", Number, " lent "],
        ["lent", Word, " use "],
        ["use", Text, ""]
    ),
    form!(
        "reply",
        "    ",
        ["reply", OneOf(REPLIES), " vm "],
        ["vm", Word, ""]
    ),
    form!(
        "reply",
        "    ",
        ["reply", OneOf(REPLIES), " frame "],
        ["frame", Hexadecimal, ""]
    ),
    form!(
        "reply",
        "    ",
        ["reply", OneOf(REPLIES), ": "],
        ["why", Text, ""]
    ),
    form!("reply", "    ", ["reply", OneOf(REPLIES), ""]),
    form!(
        "change",
        "    ",
        ["what", OneOf(PAGED), " "],
        ["page", Hexadecimal, ".."],
        ["last", Hexadecimal, ": "],
        ["before", Text, " -> "],
        ["after", Text, ""]
    ),
    form!(
        "change",
        "    ",
        ["what", OneOf(PAGED), " "],
        ["page", Hexadecimal, ": "],
        ["before", Text, " -> "],
        ["after", Text, ""]
    ),
    form!(
        "change",
        "    ",
        ["what", OneOf(GUEST), " "],
        ["slot", Number, " "],
        ["page", Hexadecimal, ".."],
        ["last", Hexadecimal, ": "],
        ["before", Text, " -> "],
        ["after", Text, ""]
    ),
    form!(
        "change",
        "    ",
        ["what", OneOf(GUEST), " "],
        ["slot", Number, " "],
        ["page", Hexadecimal, ": "],
        ["before", Text, " -> "],
        ["after", Text, ""]
    ),
    form!(
        "change",
        "    ",
        ["what", OneOf(VM), " "],
        ["slot", Number, " vcpu "],
        ["vcpu", Number, ": "],
        ["before", Text, " -> "],
        ["after", Text, ""]
    ),
    form!(
        "change",
        "    ",
        ["what", OneOf(SLOTS), " "],
        ["slot", Number, ": "],
        ["before", Text, " -> "],
        ["after", Text, ""]
    ),
    form!(
        "change",
        "    ",
        ["what", OneOf(PLACES), ": "],
        ["before", Text, " -> "],
        ["after", Text, ""]
    ),
    form!(
        "look",
        "    ",
        ["what", OneOf(PAGED), " "],
        ["page", Hexadecimal, ": "],
        ["value", Text, ""]
    ),
    form!(
        "look",
        "    ",
        ["what", OneOf(GUEST), " "],
        ["slot", Number, " "],
        ["page", Hexadecimal, ": "],
        ["value", Text, ""]
    ),
    form!(
        "look",
        "    ",
        ["what", OneOf(VM), " "],
        ["slot", Number, " vcpu "],
        ["vcpu", Number, ": "],
        ["value", Text, ""]
    ),
    form!(
        "look",
        "    ",
        ["what", OneOf(SLOTS), " "],
        ["slot", Number, ": "],
        ["value", Text, ""]
    ),
    form!(
        "look",
        "    ",
        ["what", OneOf(PLACES), ": "],
        ["value", Text, ""]
    ),
    form!(
        "place",
        "",
        ["file", Text, ":"],
        ["line", Number, ":"],
        ["column", Number, ": fault "],
        ["fault", Text, ": found "],
        ["found", Text, ", wanted "],
        ["wanted", Text, ""]
    ),
    form!(
        "call",
        "",
        ["cpu", Number, " "],
        ["call", Word, " "],
        ["arguments", Text, ""]
    ),
    form!("call", "", ["cpu", Number, " "], ["call", Word, ""]),
    form!("trace", "", ["text", Text, ""]),
];

/// The lines of `dump`.
pub const DUMPS: &[Form] = &[
    form!(
        "tree",
        "tree ",
        ["tree", Text, " root "],
        ["root", Hexadecimal, " level "],
        ["level", Level, " pages "],
        ["pages", Number, " tables "],
        ["tables", Number, " states "],
        ["states", Word, ""]
    ),
    form!(
        "tree",
        "tree ",
        ["tree", Text, " root "],
        ["root", Hexadecimal, " level "],
        ["level", Level, " pages "],
        ["pages", Number, " tables "],
        ["tables", Number, ""]
    ),
    form!(
        "finding",
        "finding ",
        ["finding", OneOf(CLASHES), " "],
        ["frame", Hexadecimal, " "],
        ["first", Text, " and "],
        ["second", Text, ""]
    ),
    form!(
        "finding",
        "finding ",
        ["finding", OneOf(MAPPED), " "],
        ["frame", Hexadecimal, " of "],
        ["of", Text, ""]
    ),
    form!(
        "finding",
        "finding ",
        ["finding", OneOf(UNSHARED), " "],
        ["frame", Hexadecimal, " "],
        ["claim", Text, ""]
    ),
    form!(
        "finding",
        "finding ",
        ["finding", OneOf(BROKEN), " "],
        ["about", Text, ""]
    ),
    form!("finding", "finding ", ["about", Text, ""]),
    form!(
        "end",
        "end trees ",
        ["trees", Number, " findings "],
        ["findings", Number, ""]
    ),
    form!(
        "run",
        "",
        ["page", Hexadecimal, " "],
        ["count", Hexadecimal, " "],
        ["entry", Text, ""]
    ),
    form!("text", "", ["text", Text, ""]),
];
