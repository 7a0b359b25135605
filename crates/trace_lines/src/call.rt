//! What a step line of a call has, by the table of calls.
ghost use Rattle.std.specs.Prelude.{◌≡◌, ◌≤◌, length, option_map};
ghost use Rattle.call_table.specs.Made.{step_by};
ghost use Rattle.call_table.specs.Named.{blank};
ghost use Rattle.trace_lines.specs.Calls.{argument_at as argument_by, arguments_from, called as called_by, words_from, words_of as words_by};

use crate::argument::{count_at, kind_at, number_at, one_more, rights_at, vm_at};
use call_table::{Arguments, CallName, Form, Step, step_of};
use trace_words::Words;

/// The place of a call's first argument, after its CPU and its name.
const FIRST: usize = 2;

/// What a step line of a call has.
#[derive(Clone, Copy)]
pub struct Called {
    /// The number of its words: its CPU, the call's name, and the arguments.
    pub words: usize,
    /// The step that the arguments make. None if one is missing or hasn't the form that its place needs.
    pub step: Option<Step>,
}

impl Called {
    /// The call of this name, with the arguments in the line. None if no call has the name.
    #[tactic(auto, unfolding(crate::specs::Calls::called))]
    pub fn of(name: &[u8], words: &Words<'_>) -> Option<Called>
        ensures { result ≡ called_by words.now name.now }
    {
        let call = CallName::of_word(name)?;
        let forms = call.row().forms;
        Some(Called {
            words: FIRST + words_of(forms, words),
            step: arguments_of(forms, words).map(|arguments| step_of(call, arguments)),
        })
    }
}

/// How many words the line has for arguments of these forms.
fn words_of(forms: &[Form], words: &Words<'_>) -> usize
    ensures value { result ≡ words_from forms.now words.now 2 }
    ensures few { result ≤ length forms.now }
{
    let mut count = 0;
    let mut place = FIRST;
    for form in forms {
        count += words_for(*form, words, place);
        place += 1;
    }
    count
}

/// The arguments of these forms.
fn arguments_of(forms: &[Form], words: &Words<'_>) -> Option<Arguments>
    ensures { result ≡ arguments_from forms.now words.now 2 blank }
{
    let mut arguments = Arguments::BLANK;
    let mut place = FIRST;
    for form in forms {
        arguments = argument_at(*form, words, place, arguments)?;
        place += 1;
    }
    Some(arguments)
}

/// How many words the line has for an argument of this form at a place.
fn words_for(form: Form, words: &Words<'_>, place: usize) -> usize
    ensures value { result ≡ words_by form words.now place }
    ensures few { result ≤ 1 }
{
    match form {
        Form::LastCount => one_more(words, place),
        _ => 1,
    }
}

/// The arguments with the one of this form read from a place. None if the word there hasn't the form.
pub fn argument_at(
    form: Form,
    words: &Words<'_>,
    place: usize,
    others: Arguments,
) -> Option<Arguments>
    ensures { result ≡ argument_by form words.now place others }
{
    match form {
        Form::Frame => number_at(words, place).map(|frame| Arguments { frame, ..others }),
        Form::Page => number_at(words, place).map(|page| Arguments { page, ..others }),
        Form::Count => number_at(words, place).map(|count| Arguments { count, ..others }),
        Form::LastCount => count_at(words, place).map(|count| Arguments { count, ..others }),
        Form::Vcpus => number_at(words, place).map(|vcpus| Arguments { vcpus, ..others }),
        Form::Vcpu => number_at(words, place).map(|vcpu| Arguments { vcpu, ..others }),
        Form::Vm => vm_at(words, place).map(|vm| Arguments { vm, ..others }),
        Form::Kind => kind_at(words, place).map(|kind| Arguments { kind, ..others }),
        Form::Rights => rights_at(words, place).map(|rights| Arguments { rights, ..others }),
    }
}
