//! Steps in numbers.
ghost use Rattle.std.specs.Prelude.{◌≡◌};
ghost use Rattle.c_calls.specs.Steps.{all_in_front as all_in_front_by, bare as bare_by, in_front as in_front_by, number_of as number_by, step_written, vm_kind_written};

use c_words::{PlainStep, rights_number};
use call_table::{Arguments, Form, Step, VmKind, values_of};

/// The number of a kind of VMs.
fn kind_number(kind: VmKind) -> u64
    ensures { result ≡ vm_kind_written kind }
{
    match kind {
        VmKind::Plain => 0,
        VmKind::Protected => 1,
    }
}

/// The number of an argument of a form, of a VM its slot.
fn number_of(form: Form, arguments: Arguments) -> u64
    ensures { result ≡ number_by form arguments }
{
    match form {
        Form::Frame => arguments.frame,
        Form::Page => arguments.page,
        Form::Count | Form::LastCount => arguments.count,
        Form::Vcpus => arguments.vcpus,
        Form::Vcpu => arguments.vcpu,
        Form::Vm => arguments.vm.slot,
        Form::Kind => kind_number(arguments.kind),
        Form::Rights => rights_number(arguments.rights),
    }
}

/// An argument of a form before those that a step has.
fn in_front(form: Form, arguments: Arguments, step: PlainStep) -> PlainStep
    ensures { result ≡ in_front_by form arguments step }
{
    let first = number_of(form, arguments);
    match form {
        Form::Vm => PlainStep {
            first,
            second: arguments.vm.generation,
            third: step.first,
            fourth: step.second,
            ..step
        },
        _ => PlainStep {
            first,
            second: step.first,
            third: step.second,
            fourth: step.third,
            ..step
        },
    }
}

/// Arguments of these forms before those that a step has.
fn all_in_front(forms: &[Form], arguments: Arguments, step: PlainStep) -> PlainStep
    ensures { result ≡ all_in_front_by forms.now arguments step }
{
    let mut told = step;
    for i in 0..forms.len() {
        told = in_front(forms[forms.len() - 1 - i], arguments, told);
    }
    told
}

/// A call without arguments.
fn bare(call: u64) -> PlainStep
    ensures { result ≡ bare_by call }
{
    PlainStep {
        call,
        first: 0,
        second: 0,
        third: 0,
        fourth: 0,
    }
}

/// A step in numbers: the call's and those of its arguments, and then 0.
pub fn step_to_c(step: Step) -> PlainStep
    ensures { result ≡ step_written step }
{
    let named = values_of(step);
    let row = named.call.row();
    all_in_front(row.forms, named.arguments, bare(row.number))
}
