//! //! Which rows can come: the replies that the rule of each call allows, and the rows that no run meets.
ghost use Rattle.std.specs.Prelude.{◌≡◌, option_map};
ghost use Rattle.trace_cover.specs.Kinds.{
  has_argument as has_argument_by,
  impossible as impossible_by,
  is_asked as is_asked_by,
  is_of_dying as is_of_dying_by,
  is_of_frame as is_of_frame_by,
  is_of_guest as is_of_guest_by,
  is_of_loaded as is_of_loaded_by,
  is_of_named as is_of_named_by,
  is_on_shared as is_on_shared_by,
  is_told as is_told_by,
  names as names_by,
  tells as tells_by,
  wants_rest as wants_rest_by,
  wants_state as wants_state_by,
  wants_tables as wants_tables_by,
  wants_vm as wants_vm_by,
};

use crate::condition::Condition;
use crate::rows::Row;
use call_table::{CallName, Refusal};

/// `teardown` is busy while a vCPU of the VM is loaded, `vcpu_load` needs an open VM, and `mark_dying` one that was
/// torn down.
const NONE_LOADED: &str = "no CPU has a vCPU of a Dying guest loaded";

/// Why a row can't come, though the call names the condition, or its rule can give the reply.
pub(crate) fn impossible(row: Row) -> Option<&'static str>
    ensures { option_map (λ why. why.now) result ≡ impossible_by row }
{
    match row {
        Row::Cell { call, condition } => impossible_cell(call, condition),
        Row::Reply { .. } => None,
    }
}

fn impossible_cell(call: CallName, condition: Condition) -> Option<&'static str>
    ensures { option_map (λ why. why.now) result ≡ impossible_by (Row.Cell call condition) }
{
    if is_of_loaded(call) && is_of_dying(condition) {
        return Some(NONE_LOADED);
    }
    None
}

/// Whether the guest is that of the vCPU which the CPU has loaded, and a page of it is named.
fn is_of_loaded(call: CallName) -> bool
    ensures { result ≡ is_of_loaded_by call }
{
    matches!(
        call,
        CallName::GuestShareHost | CallName::GuestUnshareHost | CallName::GuestRelax
    )
}

/// Whether the call is of a VM that is named, and of a page of it.
fn is_of_named(call: CallName) -> bool
    ensures { result ≡ is_of_named_by call }
{
    matches!(call, CallName::UnshareGuest | CallName::ReclaimPage)
}

/// Whether the call changes what becomes of a frame that is named.
fn is_of_frame(call: CallName) -> bool
    ensures { result ≡ is_of_frame_by call }
{
    matches!(
        call,
        CallName::ShareHyp
            | CallName::UnshareHyp
            | CallName::DonateHyp
            | CallName::HypDonateHost
            | CallName::HostAbort
            | CallName::Fund
            | CallName::ShareGuest
            | CallName::DonateGuest
    )
}

/// Whether a guest maps a frame in this condition.
fn is_of_guest(condition: Condition) -> bool
    ensures { result ≡ is_of_guest_by condition }
{
    matches!(
        condition,
        Condition::WithGuest
            | Condition::WithDying
            | Condition::Guests
            | Condition::OfDying
            | Condition::LentBack
            | Condition::LentByDying
    )
}

/// Whether it is a Dying guest's.
fn is_of_dying(condition: Condition) -> bool
    ensures { result ≡ is_of_dying_by condition }
{
    matches!(
        condition,
        Condition::WithDying | Condition::OfDying | Condition::LentByDying
    )
}

/// Whether a call names a frame in this condition, or a page of a guest that maps one.
fn names(call: CallName, condition: Condition) -> bool
    ensures { result ≡ names_by call condition }
{
    if is_of_frame(call) {
        return true;
    }
    if is_of_loaded(call) {
        return is_of_guest(condition);
    }
    if is_of_named(call) {
        return is_of_guest(condition);
    }
    false
}

/// Whether the rule of a call can give this refusal: the call has a test that answers so, may need tables, or needs a
/// log.
fn tells(call: CallName, why: Refusal) -> bool
    ensures { result ≡ tells_by call why }
{
    match why {
        Refusal::Invalid => has_argument(call),
        Refusal::NoVm => wants_vm(call),
        Refusal::Busy => wants_rest(call),
        Refusal::Perm => wants_state(call),
        Refusal::NoPool => wants_tables(call),
        Refusal::LogFull => true,
        Refusal::NoMemory => false,
        Refusal::Contended => false,
    }
}

/// `invalid`: all calls but those without an argument, and those that accept any value of one.
fn has_argument(call: CallName) -> bool
    ensures { result ≡ has_argument_by call }
{
    !matches!(
        call,
        CallName::Unfund
            | CallName::Install
            | CallName::FinishGuest
            | CallName::MarkDying
            | CallName::VmOpen
            | CallName::VcpuPut
            | CallName::VmRelease
    )
}

/// `novm`: all calls but those on the host and the hypervisor alone, and those of a reservation.
fn wants_vm(call: CallName) -> bool
    ensures { result ≡ wants_vm_by call }
{
    match call {
        CallName::VmReserve => false,
        _ => !is_on_shared(call),
    }
}

/// Whether a call is on host and hypervisor alone.
fn is_on_shared(call: CallName) -> bool
    ensures { result ≡ is_on_shared_by call }
{
    matches!(
        call,
        CallName::ShareHyp
            | CallName::UnshareHyp
            | CallName::DonateHyp
            | CallName::HypDonateHost
            | CallName::HostAbort
            | CallName::HostTranslate
            | CallName::HypTranslate
            | CallName::OwnerOf
            | CallName::Fund
            | CallName::Unfund
    )
}

/// `busy`: calls that test whether something is in use.
fn wants_rest(call: CallName) -> bool
    ensures { result ≡ wants_rest_by call }
{
    matches!(
        call,
        CallName::Fund | CallName::VmReserve | CallName::VcpuLoad | CallName::Teardown
    )
}

/// `perm`: all calls but those that only look, and those that have no test after the ones above.
fn wants_state(call: CallName) -> bool
    ensures { result ≡ wants_state_by call }
{
    !matches!(
        call,
        CallName::HostTranslate
            | CallName::HypTranslate
            | CallName::OwnerOf
            | CallName::GuestTranslate
            | CallName::MarkDying
            | CallName::VmReserve
            | CallName::VmOpen
            | CallName::VcpuPut
            | CallName::Teardown
            | CallName::VmRelease
    )
}

/// `nopool`: calls that change a map.
fn wants_tables(call: CallName) -> bool
    ensures { result ≡ wants_tables_by call }
{
    matches!(
        call,
        CallName::ShareHyp
            | CallName::UnshareHyp
            | CallName::DonateHyp
            | CallName::HypDonateHost
            | CallName::HostAbort
            | CallName::Fund
            | CallName::Unfund
            | CallName::ShareGuest
            | CallName::UnshareGuest
            | CallName::DonateGuest
            | CallName::GuestShareHost
            | CallName::GuestUnshareHost
            | CallName::ReclaimPage
            | CallName::ReclaimPool
            | CallName::FinishGuest
            | CallName::GuestRelax
    )
}

/// Whether a rule can give the reply of a row, or the call of a row names its condition.
pub(crate) fn is_told(row: Row) -> bool
    ensures { result ≡ is_told_by row }
{
    match row {
        Row::Reply {
            call,
            why: Some(why),
        } => tells(call, why),
        Row::Reply { why: None, .. } => true,
        Row::Cell { call, condition } => names(call, condition),
    }
}

/// Whether a trace is expected to reach a row: it can come, and isn't impossible.
pub(crate) fn is_asked(row: Row) -> bool
    ensures { result ≡ is_asked_by row }
{
    if !is_told(row) {
        return false;
    }
    impossible(row).is_none()
}
