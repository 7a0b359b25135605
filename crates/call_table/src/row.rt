//! The rows of the table: the calls by name, with the forms of their arguments and their numbers.
ghost use Rattle.std.specs.Prelude.{◌≡◌, ◌==◌};
ghost use Rattle.std.specs.Str.{bytes_eq};
ghost use Rattle.call_table.specs.Rows.{calls, named, named_in, numbered, numbered_in, row as row_by};

use crate::Form;

/// A call by its name: a `Step` without its arguments.
#[derive(Clone, Copy)]
pub enum CallName {
    ShareHyp,
    UnshareHyp,
    DonateHyp,
    HypDonateHost,
    HostAbort,
    HostTranslate,
    HypTranslate,
    OwnerOf,
    Fund,
    Unfund,
    ShareGuest,
    UnshareGuest,
    DonateGuest,
    GuestShareHost,
    GuestUnshareHost,
    Install,
    Topup,
    ReclaimPage,
    ReclaimPool,
    FinishGuest,
    GuestRelax,
    GuestTranslate,
    MarkDying,
    VmReserve,
    VmOpen,
    VcpuLoad,
    VcpuPut,
    Teardown,
    VmRelease,
}

/// A row of the table.
#[derive(Clone, Copy)]
pub struct CallRow {
    /// The call's name, as a trace has it.
    pub word: &'static str,
    /// The call's number in C, 1 to 29.
    pub number: u64,
    /// The forms of its arguments, in order.
    pub forms: &'static [Form],
}

impl CallName {
    /// The row of the call.
    // A chain of tests, as the toolchain refuses function pointers that are handed out.
    pub fn row(self) -> CallRow
        ensures word { result.word.now ≡ (row_by self).word }
        ensures number { result.number ≡ (row_by self).number }
        ensures forms { result.forms.now ≡ (row_by self).forms }
    {
        match self {
            CallName::ShareHyp => call_row("share_hyp", 1, &[Form::Frame]),
            CallName::UnshareHyp => call_row("unshare_hyp", 2, &[Form::Frame]),
            CallName::DonateHyp => call_row("donate_hyp", 3, &[Form::Frame, Form::Count]),
            CallName::HypDonateHost => call_row("hyp_donate_host", 4, &[Form::Frame, Form::Count]),
            CallName::HostAbort => call_row("host_abort", 5, &[Form::Page]),
            CallName::HostTranslate => call_row("host_translate", 6, &[Form::Page]),
            CallName::HypTranslate => call_row("hyp_translate", 7, &[Form::Page]),
            CallName::OwnerOf => call_row("owner_of", 8, &[Form::Frame]),
            CallName::Fund => call_row("fund", 9, &[Form::Frame, Form::Count]),
            CallName::Unfund => call_row("unfund", 10, &[]),
            CallName::ShareGuest => call_row(
                "share_guest",
                11,
                &[Form::Frame, Form::Page, Form::Rights, Form::LastCount],
            ),
            CallName::UnshareGuest => call_row("unshare_guest", 12, &[Form::Vm, Form::Page]),
            CallName::DonateGuest => call_row(
                "donate_guest",
                13,
                &[Form::Frame, Form::Page, Form::LastCount],
            ),
            CallName::GuestShareHost => call_row("guest_share_host", 14, &[Form::Page]),
            CallName::GuestUnshareHost => call_row("guest_unshare_host", 15, &[Form::Page]),
            CallName::Install => call_row("install", 16, &[]),
            CallName::Topup => call_row("topup", 17, &[Form::Vm]),
            CallName::ReclaimPage => call_row("reclaim_page", 18, &[Form::Vm, Form::Page]),
            CallName::ReclaimPool => call_row("reclaim_pool", 19, &[Form::Vm]),
            CallName::FinishGuest => call_row("finish_guest", 20, &[]),
            CallName::GuestRelax => call_row("guest_relax", 21, &[Form::Page, Form::Rights]),
            CallName::GuestTranslate => call_row("guest_translate", 22, &[Form::Vm, Form::Page]),
            CallName::MarkDying => call_row("mark_dying", 23, &[]),
            CallName::VmReserve => call_row("vm_reserve", 24, &[Form::Kind, Form::Vcpus]),
            CallName::VmOpen => call_row("vm_open", 25, &[]),
            CallName::VcpuLoad => call_row("vcpu_load", 26, &[Form::Vm, Form::Vcpu]),
            CallName::VcpuPut => call_row("vcpu_put", 27, &[]),
            CallName::Teardown => call_row("teardown", 28, &[Form::Vm]),
            CallName::VmRelease => call_row("vm_release", 29, &[]),
        }
    }

    /// All calls, in the order of the table.
    pub fn all() -> &'static [CallName]
        ensures { result.now ≡ calls }
    {
        &[
            CallName::ShareHyp,
            CallName::UnshareHyp,
            CallName::DonateHyp,
            CallName::HypDonateHost,
            CallName::HostAbort,
            CallName::HostTranslate,
            CallName::HypTranslate,
            CallName::OwnerOf,
            CallName::Fund,
            CallName::Unfund,
            CallName::ShareGuest,
            CallName::UnshareGuest,
            CallName::DonateGuest,
            CallName::GuestShareHost,
            CallName::GuestUnshareHost,
            CallName::Install,
            CallName::Topup,
            CallName::ReclaimPage,
            CallName::ReclaimPool,
            CallName::FinishGuest,
            CallName::GuestRelax,
            CallName::GuestTranslate,
            CallName::MarkDying,
            CallName::VmReserve,
            CallName::VmOpen,
            CallName::VcpuLoad,
            CallName::VcpuPut,
            CallName::Teardown,
            CallName::VmRelease,
        ]
    }

    /// The call of this name.
    pub fn of_word(word: &[u8]) -> Option<CallName>
        ensures { result ≡ named word.now }
    {
        first_named(CallName::all(), word)
    }

    /// The call of this number.
    pub fn of_number(number: u64) -> Option<CallName>
        ensures { result ≡ numbered number }
    {
        first_numbered(CallName::all(), number)
    }
}

fn first_named(calls: &[CallName], word: &[u8]) -> Option<CallName>
    ensures { result ≡ named_in calls.now word.now }
{
    calls.iter().copied().find(|call| has_word(*call, word))
}

fn first_numbered(calls: &[CallName], number: u64) -> Option<CallName>
    ensures { result ≡ numbered_in calls.now number }
{
    calls.iter().copied().find(|call| has_number(*call, number))
}

fn call_row(word: &'static str, number: u64, forms: &'static [Form]) -> CallRow
    ensures word { result.word.now ≡ word.now }
    ensures number { result.number ≡ number }
    ensures forms { result.forms.now ≡ forms.now }
{
    CallRow {
        word,
        number,
        forms,
    }
}

/// Whether a word is the call's name.
fn has_word(call: CallName, word: &[u8]) -> bool
    ensures { result ≡ bytes_eq word.now (row_by call).word }
{
    word == call.row().word.as_bytes()
}

/// Whether a number is the call's.
fn has_number(call: CallName, number: u64) -> bool
    ensures { result ≡ ((row_by call).number == number) }
{
    call.row().number == number
}
