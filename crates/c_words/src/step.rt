//! Steps.
ghost use Rattle.std.specs.Prelude.{◌≡◌};
ghost use Rattle.call_table.specs.Named.{blank};
ghost use Rattle.c_words.specs.Steps.{argument_from_c, arguments_from_c, numbers_behind, step_from_c};

use crate::numbers::{rights_of, vm_kind_of};
use call_table::{Arguments, CallName, Form, Step, VmId};

/// A call, by its number, and up to four arguments. A VM is two of them, its slot and its generation.
#[repr(C)]
#[derive(Clone, Copy, PartialEq)]
pub struct PlainStep {
    /// The call: 1 to 29.
    pub call: u64,
    pub first: u64,
    pub second: u64,
    pub third: u64,
    pub fourth: u64,
}

/// The step that the numbers say. None if the call, the rights or the kind of VMs is unknown.
#[tactic(auto, unfolding(crate::specs::Steps::step_from_c))]
pub fn step_of(step: PlainStep) -> Option<Step>
    ensures { result ≡ step_from_c step }
{
    let call = CallName::of_number(step.call)?;
    let arguments = arguments_of(call.row().forms, step)?;
    Some(call_table::step_of(call, arguments))
}

/// The arguments of these forms.
fn arguments_of(forms: &[Form], step: PlainStep) -> Option<Arguments>
    ensures { result ≡ arguments_from_c forms.now step blank }
{
    let mut left = step;
    let mut arguments = Arguments::BLANK;
    for form in forms {
        arguments = argument_of(*form, left, arguments)?;
        left = behind(*form, left);
    }
    Some(arguments)
}

/// The arguments, with that of this form as the first number says it, of a VM the first two.
fn argument_of(form: Form, step: PlainStep, arguments: Arguments) -> Option<Arguments>
    ensures { result ≡ argument_from_c form step arguments }
{
    let mut with = arguments;
    match form {
        Form::Frame => with.frame = step.first,
        Form::Page => with.page = step.first,
        Form::Count | Form::LastCount => with.count = step.first,
        Form::Vcpus => with.vcpus = step.first,
        Form::Vcpu => with.vcpu = step.first,
        Form::Vm => {
            with.vm = VmId {
                slot: step.first,
                generation: step.second,
            };
        }
        Form::Kind => with.kind = vm_kind_of(step.first)?,
        Form::Rights => with.rights = rights_of(step.first)?,
    }
    Some(with)
}

/// The numbers after those of an argument of this form.
fn behind(form: Form, step: PlainStep) -> PlainStep
    ensures { result ≡ numbers_behind form step }
{
    match form {
        Form::Vm => PlainStep {
            first: step.third,
            second: step.fourth,
            third: 0,
            fourth: 0,
            ..step
        },
        _ => PlainStep {
            first: step.second,
            second: step.third,
            third: step.fourth,
            fourth: 0,
            ..step
        },
    }
}
