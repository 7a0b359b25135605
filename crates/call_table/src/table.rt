//! Steps by names and arguments, both ways.
ghost use Rattle.std.specs.Prelude.{◌≡◌};
ghost use Rattle.call_table.specs.Named.{blank, named_by};
ghost use Rattle.call_table.specs.Made.{step_by};

use crate::{Arguments, CallName, Step, VmId};

/// A call with its arguments.
#[derive(Clone, Copy)]
pub struct NamedCall {
    pub call: CallName,
    pub arguments: Arguments,
}

/// The step that a call makes of its arguments. It ignores the fields that the call doesn't take.
pub fn step_of(call: CallName, arguments: Arguments) -> Step
    ensures { result ≡ step_by call arguments }
{
    let Arguments {
        frame: pfn,
        page,
        count: n,
        vcpus,
        vcpu,
        vm,
        kind,
        rights: prot,
    } = arguments;
    let gfn = page;
    match call {
        CallName::ShareHyp => Step::ShareHyp { pfn },
        CallName::UnshareHyp => Step::UnshareHyp { pfn },
        CallName::DonateHyp => Step::DonateHyp { pfn, n },
        CallName::HypDonateHost => Step::HypDonateHost { pfn, n },
        CallName::HostAbort => Step::HostAbort { page },
        CallName::HostTranslate => Step::HostTranslate { page },
        CallName::HypTranslate => Step::HypTranslate { page },
        CallName::OwnerOf => Step::OwnerOf { pfn },
        CallName::Fund => Step::Fund { pfn, n },
        CallName::Unfund => Step::Unfund,
        CallName::ShareGuest => Step::ShareGuest { pfn, gfn, prot, n },
        CallName::UnshareGuest => Step::UnshareGuest { vm, gfn },
        CallName::DonateGuest => Step::DonateGuest { pfn, gfn, n },
        CallName::GuestShareHost => Step::GuestShareHost { gfn },
        CallName::GuestUnshareHost => Step::GuestUnshareHost { gfn },
        CallName::Install => Step::Install,
        CallName::Topup => Step::Topup { vm },
        CallName::ReclaimPage => Step::ReclaimPage { vm, gfn },
        CallName::ReclaimPool => Step::ReclaimPool { vm },
        CallName::FinishGuest => Step::FinishGuest,
        CallName::GuestRelax => Step::GuestRelax { gfn, prot },
        CallName::GuestTranslate => Step::GuestTranslate { vm, gfn },
        CallName::MarkDying => Step::MarkDying,
        CallName::VmReserve => Step::VmReserve { kind, vcpus },
        CallName::VmOpen => Step::VmOpen,
        CallName::VcpuLoad => Step::VcpuLoad { vm, vcpu },
        CallName::VcpuPut => Step::VcpuPut,
        CallName::Teardown => Step::Teardown { vm },
        CallName::VmRelease => Step::VmRelease,
    }
}

/// The call and the arguments of a step.
pub fn values_of(step: Step) -> NamedCall
    ensures { result ≡ named_by step }
{
    match step {
        Step::ShareHyp { pfn } => named(CallName::ShareHyp, of_frame(pfn)),
        Step::UnshareHyp { pfn } => named(CallName::UnshareHyp, of_frame(pfn)),
        Step::DonateHyp { pfn, n } => named(CallName::DonateHyp, of_frames(pfn, n)),
        Step::HypDonateHost { pfn, n } => named(CallName::HypDonateHost, of_frames(pfn, n)),
        Step::HostAbort { page } => named(CallName::HostAbort, of_page(page)),
        Step::HostTranslate { page } => named(CallName::HostTranslate, of_page(page)),
        Step::HypTranslate { page } => named(CallName::HypTranslate, of_page(page)),
        Step::OwnerOf { pfn } => named(CallName::OwnerOf, of_frame(pfn)),
        Step::Fund { pfn, n } => named(CallName::Fund, of_frames(pfn, n)),
        Step::Unfund => named(CallName::Unfund, Arguments::BLANK),
        Step::ShareGuest { pfn, gfn, prot, n } => named(
            CallName::ShareGuest,
            Arguments {
                frame: pfn,
                page: gfn,
                rights: prot,
                count: n,
                ..Arguments::BLANK
            },
        ),
        Step::UnshareGuest { vm, gfn } => named(CallName::UnshareGuest, of_vm_page(vm, gfn)),
        Step::DonateGuest { pfn, gfn, n } => named(
            CallName::DonateGuest,
            Arguments {
                frame: pfn,
                page: gfn,
                count: n,
                ..Arguments::BLANK
            },
        ),
        Step::GuestShareHost { gfn } => named(CallName::GuestShareHost, of_page(gfn)),
        Step::GuestUnshareHost { gfn } => named(CallName::GuestUnshareHost, of_page(gfn)),
        Step::Install => named(CallName::Install, Arguments::BLANK),
        Step::Topup { vm } => named(CallName::Topup, of_vm(vm)),
        Step::ReclaimPage { vm, gfn } => named(CallName::ReclaimPage, of_vm_page(vm, gfn)),
        Step::ReclaimPool { vm } => named(CallName::ReclaimPool, of_vm(vm)),
        Step::FinishGuest => named(CallName::FinishGuest, Arguments::BLANK),
        Step::GuestRelax { gfn, prot } => named(
            CallName::GuestRelax,
            Arguments {
                page: gfn,
                rights: prot,
                ..Arguments::BLANK
            },
        ),
        Step::GuestTranslate { vm, gfn } => named(CallName::GuestTranslate, of_vm_page(vm, gfn)),
        Step::MarkDying => named(CallName::MarkDying, Arguments::BLANK),
        Step::VmReserve { kind, vcpus } => named(
            CallName::VmReserve,
            Arguments {
                kind,
                vcpus,
                ..Arguments::BLANK
            },
        ),
        Step::VmOpen => named(CallName::VmOpen, Arguments::BLANK),
        Step::VcpuLoad { vm, vcpu } => named(
            CallName::VcpuLoad,
            Arguments {
                vm,
                vcpu,
                ..Arguments::BLANK
            },
        ),
        Step::VcpuPut => named(CallName::VcpuPut, Arguments::BLANK),
        Step::Teardown { vm } => named(CallName::Teardown, of_vm(vm)),
        Step::VmRelease => named(CallName::VmRelease, Arguments::BLANK),
    }
}

fn named(call: CallName, arguments: Arguments) -> NamedCall
    ensures { result ≡ record { call = call; arguments = arguments } }
{
    NamedCall { call, arguments }
}

fn of_frame(frame: u64) -> Arguments
    ensures { result ≡ record blank { frame = frame } }
{
    Arguments {
        frame,
        ..Arguments::BLANK
    }
}

fn of_frames(frame: u64, count: u64) -> Arguments
    ensures { result ≡ record blank { frame = frame; count = count } }
{
    Arguments {
        frame,
        count,
        ..Arguments::BLANK
    }
}

fn of_page(page: u64) -> Arguments
    ensures { result ≡ record blank { page = page } }
{
    Arguments {
        page,
        ..Arguments::BLANK
    }
}

fn of_vm(vm: VmId) -> Arguments
    ensures { result ≡ record blank { vm = vm } }
{
    Arguments {
        vm,
        ..Arguments::BLANK
    }
}

fn of_vm_page(vm: VmId, page: u64) -> Arguments
    ensures { result ≡ record blank { vm = vm; page = page } }
{
    Arguments {
        vm,
        page,
        ..Arguments::BLANK
    }
}
