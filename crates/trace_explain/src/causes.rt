//! Why a call is refused, in words.
ghost use Rattle.std.specs.Prelude.{◌≡◌, unwrap_or};
ghost use Rattle.reference_model.specs.model.Rules.{step_rule};
ghost use Rattle.trace_explain.specs.Causes.{cause_of as cause_by, tests_of};

use call_table::{Refusal, Step};

/// The tests of the call that answer with the refusal, in words. A refusal that the call never answers has the words of all calls.
pub fn cause_of(step: Step, refusal: Refusal) -> &'static str
    ensures { result.now ≡ cause_by step refusal }
{
    match refusal {
        Refusal::Perm => perm_cause(step),
        Refusal::NoVm => novm_cause(step),
        Refusal::Contended => "a part that the call uses was taken",
        Refusal::NoMemory => "this machine refused memory",
        Refusal::Busy => busy_cause(step),
        Refusal::Invalid => invalid_cause(step),
        Refusal::NoPool => "a pool has fewer free frames than the tables that the call needs",
        Refusal::LogFull => "the log of the CPU, or that of a part that the call uses, is full",
    }
}

/// `perm`: the pages or frames.
fn perm_cause(step: Step) -> &'static str
    ensures { result.now ≡ (tests_of step).allowed.failing }
{
    match step {
        Step::ShareHyp { .. } =>
            "the host's page isn't free to give, or the hypervisor's page of the frame is mapped",
        Step::UnshareHyp { .. } =>
            "the host's page isn't SharedOwned, or the hypervisor's page of the frame isn't SharedBorrowed",
        Step::DonateHyp { .. } | Step::Fund { .. } =>
            "of some frame of the range the host's page isn't free to give, or the hypervisor's page is mapped",
        Step::HypDonateHost { .. } =>
            "the hypervisor doesn't own some frame of the range, or it is in a pool, a table or a hand",
        Step::HostAbort { .. } => "the page is annotated: another owner has it",
        Step::Unfund | Step::Install => "the CPU's hand is empty",
        Step::VcpuLoad { .. } => "the VM has no vCPU of that number",
        Step::Topup { .. } =>
            "the CPU's hand is empty, or tables, free frames and the hand are over 512 together",
        Step::ShareGuest { .. } =>
            "the VM is protected, one of the host's pages isn't free to give, or one of the guest's pages is mapped",
        Step::UnshareGuest { .. } | Step::GuestRelax { .. } =>
            "the guest's page isn't SharedBorrowed",
        Step::DonateGuest { .. } =>
            "the VM isn't protected, one of the host's pages isn't free to give, or one of the guest's pages is mapped",
        Step::GuestShareHost { .. } => "the guest's page isn't Owned",
        Step::GuestUnshareHost { .. } => "the guest's page isn't SharedOwned",
        Step::ReclaimPage { .. } => "the guest's page is unmapped",
        Step::ReclaimPool { .. } => "the guest's pool has no free frame",
        Step::FinishGuest => "a page of the guest is mapped, or its pool has a free frame",
        _ => "the pages or frames aren't in the state that the call requires",
    }
}

/// `invalid`: the arguments.
fn invalid_cause(step: Step) -> &'static str
    ensures { result.now ≡ (tests_of step).valid.failing }
{
    match step {
        Step::ShareHyp { .. } | Step::UnshareHyp { .. } | Step::OwnerOf { .. } =>
            "the frame is no page of memory",
        Step::DonateHyp { .. } | Step::HypDonateHost { .. } | Step::Fund { .. } =>
            "the range isn't 1 to 512 pages of memory",
        Step::HostAbort { .. } => "the page is in no region",
        Step::HostTranslate { .. }
        | Step::HypTranslate { .. }
        | Step::GuestShareHost { .. }
        | Step::GuestUnshareHost { .. }
        | Step::GuestRelax { .. } => "the page is past the input pages",
        Step::ShareGuest { .. } | Step::DonateGuest { .. } =>
            "the range isn't 1 to 512 pages of memory, or a page of the guest is past the input pages",
        Step::UnshareGuest { .. } | Step::ReclaimPage { .. } | Step::GuestTranslate { .. } =>
            "the slot is over 63, or the page is past the input pages",
        Step::VmReserve { .. } => "a VM has 1 to 8 vCPUs",
        Step::VcpuLoad { .. } => "the slot is over 63, or the vCPU is over 7",
        Step::Teardown { .. } | Step::Topup { .. } | Step::ReclaimPool { .. } =>
            "the slot is over 63",
        _ => "an argument is out of its range",
    }
}

/// `novm`: the VM, the vCPU or the ticket.
fn novm_cause(step: Step) -> &'static str
    ensures { result.now ≡ unwrap_or (step_rule step).lacking (tests_of step).has_vm.failing }
{
    match step {
        Step::VmOpen => "the CPU has no Installed ticket",
        Step::VmRelease => "the CPU has no Booked and no Finished ticket",
        Step::Install => "the CPU has no Booked ticket",
        Step::MarkDying => "the CPU has no Closing ticket",
        Step::FinishGuest => "the CPU has no Dying ticket",
        Step::VcpuPut
        | Step::ShareGuest { .. }
        | Step::DonateGuest { .. }
        | Step::GuestShareHost { .. }
        | Step::GuestUnshareHost { .. }
        | Step::GuestRelax { .. } => "the CPU has no vCPU loaded",
        Step::VcpuLoad { .. } | Step::Teardown { .. } => "the VM isn't open",
        Step::UnshareGuest { .. } => "the VM's guest isn't Live",
        Step::Topup { .. } | Step::GuestTranslate { .. } =>
            "the VM's guest is neither Live nor Dying",
        Step::ReclaimPage { .. } | Step::ReclaimPool { .. } => "the VM's guest isn't Dying",
        _ => "there is no such VM",
    }
}

/// `busy`: names what is in use.
fn busy_cause(step: Step) -> &'static str
    ensures { result.now ≡ (tests_of step).ready.failing }
{
    match step {
        Step::Fund { .. } => "the CPU's hand isn't empty",
        Step::VmReserve { .. } => "the CPU has a ticket, or no slot is Empty",
        Step::Teardown { .. } => "the CPU has a ticket, or a vCPU of the VM is loaded",
        Step::VcpuLoad { .. } => "the CPU has a vCPU loaded, or another CPU has this one",
        _ => "what the call needs is in use",
    }
}
