//! The forms that the words of a line must have.
ghost use Rattle.std.specs.Prelude.{◌≡◌, length, slice_get};
ghost use Rattle.trace_faults.specs.Forms.{
  all_forms,
  call_forms,
  first_wrong as first_wrong_by,
  forms as forms_by,
  header_forms,
  is_of as is_of_by,
  is_right as is_right_by,
  own_forms,
  pool_forms,
  tree_forms,
  wanted_argument as argument_words,
  wanted_form as form_words,
};

use call_table::{Arguments, CallName, Form as ArgumentForm};
use trace_lines::argument::{level_at, number_at, slot_at};
use trace_lines::argument_at;
use trace_words::{Words, is_name};

/// A page, and a count of pages, as a call has them too.
const PAGE: Form = Form::Argument(ArgumentForm::Page);

const COUNT: Form = Form::Argument(ArgumentForm::Count);

/// The form that a word of a line must have.
#[derive(Clone, Copy)]
pub(crate) enum Form {
    /// A name that the grammar knows.
    Name,
    Cpu,
    Number,
    /// A word of a table.
    Word,
    Level,
    Slot,
    /// An argument of a call.
    Argument(ArgumentForm),
}

impl Form {
    /// The form in words, as a fault's `wanted ..` has it.
    pub(crate) fn wanted(self) -> &'static [u8]
        ensures { result.now ≡ form_words self }
    {
        match self {
            Form::Name => b"a name",
            Form::Cpu => b"CPU, a number",
            Form::Number => b"a number",
            Form::Word => b"WORD, a number",
            Form::Level => b"a level, 0 to 3",
            Form::Slot => b"a slot, 0 to 63",
            Form::Argument(form) => wanted_argument(form),
        }
    }

    /// Whether the word at a place is of the form.
    pub(crate) fn is_of(self, words: &Words<'_>, place: usize) -> bool
        ensures { result ≡ is_of_by words.now place self }
    {
        match self {
            Form::Name => true,
            Form::Cpu | Form::Number | Form::Word => number_at(words, place).is_some(),
            Form::Level => level_at(words, place).is_some(),
            Form::Slot => slot_at(words, place).is_some(),
            Form::Argument(form) => argument_at(form, words, place, Arguments::BLANK).is_some(),
        }
    }
}

fn wanted_argument(form: ArgumentForm) -> &'static [u8]
    ensures { result.now ≡ argument_words form }
{
    match form {
        ArgumentForm::Frame => b"FRAME, a number",
        ArgumentForm::Page => b"PAGE, a number",
        ArgumentForm::Count | ArgumentForm::LastCount => b"COUNT, a number",
        ArgumentForm::Vcpus => b"VCPUS, a number",
        ArgumentForm::Vcpu => b"VCPU, a number",
        ArgumentForm::Vm => b"a VM, as 0.1",
        ArgumentForm::Kind => b"protected or plain",
        ArgumentForm::Rights => b"r, rw, rx or rwx",
    }
}

/// The forms of the words of a line: the line's own, and those of a call's arguments after them.
#[derive(Clone, Copy)]
pub(crate) struct LineForms {
    pub(crate) own: &'static [Form],
    pub(crate) arguments: &'static [ArgumentForm],
}

impl LineForms {
    /// The number of forms.
    pub(crate) fn count(self) -> usize
        ensures { result ≡ length (all_forms self) }
    {
        self.own.len() + self.arguments.len()
    }

    /// The form of the word at a place, counted from 0.
    pub(crate) fn get(self, place: usize) -> Option<Form>
        ensures { result ≡ slice_get (all_forms self) place }
    {
        if place < self.own.len() {
            return self.own.get(place).copied();
        }
        let form = self.arguments.get(place - self.own.len())?;
        Some(Form::Argument(*form))
    }
}

/// The forms of the words of a line, by its first words. None if the words ask for nothing.
#[tactic(auto, unfolding(crate::specs::Forms::forms))]
pub(crate) fn forms(words: &Words<'_>) -> LineForms
    ensures { all_forms result ≡ forms_by words.now }
{
    let Some(first) = words.get(0) else {
        return of_line(&[]);
    };
    let second = words.get(1).unwrap_or(b"");
    if matches!(first, [b'0'..=b'9', ..]) {
        return call(second);
    }
    of_line(own(first, second))
}

/// The forms of a line without a call's arguments.
fn of_line(own: &'static [Form]) -> LineForms
    ensures { all_forms result ≡ own.now }
{
    LineForms {
        own,
        arguments: &[],
    }
}

/// The forms of a step line whose call has this name.
fn call(name: &[u8]) -> LineForms
    ensures { all_forms result ≡ call_forms name.now }
{
    match CallName::of_word(name) {
        Some(call) => LineForms {
            own: &[Form::Cpu, Form::Name],
            arguments: call.row().forms,
        },
        None => of_line(&[]),
    }
}

/// The forms of a line that is no step line, by its first words.
fn own(first: &[u8], second: &[u8]) -> &'static [Form]
    ensures { result.now ≡ own_forms first.now second.now }
{
    if is_name(first, b"word") {
        return tree(
            second,
            &[Form::Name, Form::Name, PAGE, Form::Level],
            &[Form::Name, Form::Name, Form::Slot, PAGE, Form::Level],
        );
    }
    if is_name(first, b"free") {
        return pool(second);
    }
    if is_name(first, b"show") {
        return tree(
            second,
            &[Form::Name, Form::Name],
            &[Form::Name, Form::Name, Form::Slot],
        );
    }
    if is_name(first, b"poke") {
        return tree(
            second,
            &[Form::Name, Form::Name, PAGE, Form::Level, Form::Word],
            &[
                Form::Name,
                Form::Name,
                Form::Slot,
                PAGE,
                Form::Level,
                Form::Word,
            ],
        );
    }
    header(first)
}

/// The forms of a line that names a tree.
fn tree(name: &[u8], plain: &'static [Form], guest: &'static [Form]) -> &'static [Form]
    ensures { result.now ≡ tree_forms plain.now guest.now name.now }
{
    if is_name(name, b"host") {
        return plain;
    }
    if is_name(name, b"hyp") {
        return plain;
    }
    if is_name(name, b"guest") {
        return guest;
    }
    &[]
}

/// The forms of a line that names a pool.
fn pool(name: &[u8]) -> &'static [Form]
    ensures { result.now ≡ pool_forms name.now }
{
    if is_name(name, b"shared") {
        return &[Form::Name, Form::Name];
    }
    if is_name(name, b"guest") {
        return &[Form::Name, Form::Name, Form::Slot];
    }
    &[]
}

/// The forms of a line whose first word says the whole request.
fn header(name: &[u8]) -> &'static [Form]
    ensures { result.now ≡ header_forms name.now }
{
    if is_name(name, b"geometry") || is_name(name, b"cpus") || is_name(name, b"log") {
        return &[Form::Name, Form::Number];
    }
    if is_name(name, b"memory") || is_name(name, b"device") || is_name(name, b"carve") {
        return &[Form::Name, PAGE, COUNT];
    }
    if is_name(name, b"boot") || is_name(name, b"start") {
        return &[Form::Name];
    }
    &[]
}

/// The first place whose word isn't of its form. The number of forms if each is.
pub(crate) fn first_wrong(words: &Words<'_>, forms: LineForms) -> usize
    ensures { result ≡ first_wrong_by words.now (all_forms forms) 0 }
{
    for place in 0..forms.count() {
        if !is_right(words, forms, place) {
            return place;
        }
    }
    forms.count()
}

/// Whether the word at a place is of its form.
fn is_right(words: &Words<'_>, forms: LineForms, place: usize) -> bool
    ensures { result ≡ is_right_by words.now (all_forms forms) place place }
{
    match forms.get(place) {
        Some(form) => form.is_of(words, place),
        None => true,
    }
}
