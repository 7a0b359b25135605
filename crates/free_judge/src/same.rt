//! Tests of steps and replies.
ghost use Rattle.std.specs.Prelude.{◌≡◌, ◌↔◌, IsTrue};
ghost use Rattle.reference_model.specs.model.Rules.{may_grow as may_grow_of};
ghost use Rattle.freedoms.specs.Ample.{asks_pool as asks_pool_of, IsWant, WantsAnyMemory};
ghost use Rattle.freedoms.specs.Freedoms.{is_read as is_read_of, is_test, CountsAs};

use call_table::{Refusal, Reply, Step};
use freedoms::Freedoms;

/// Whether a step can be refused for lack of memory.
fn may_grow(step: Step) -> bool
    ensures { result ≡ may_grow_of step }
{
    match step {
        Step::HostTranslate { .. }
        | Step::HypTranslate { .. }
        | Step::OwnerOf { .. }
        | Step::GuestTranslate { .. }
        | Step::MarkDying
        | Step::VmReserve { .. }
        | Step::VmOpen
        | Step::VcpuLoad { .. }
        | Step::VcpuPut
        | Step::Teardown { .. }
        | Step::VmRelease => false,
        _ => true,
    }
}

/// Whether a step's rule asks a guest's pool, or names a frame of it.
pub(crate) fn asks_pool(step: Step) -> bool
    ensures { result ≡ asks_pool_of step }
{
    match step {
        Step::Topup { .. } | Step::ReclaimPool { .. } | Step::FinishGuest => true,
        _ => false,
    }
}

/// Whether a step only reads.
pub(crate) fn is_read(step: Step) -> bool
    ensures { result ≡ is_read_of step }
{
    match step {
        Step::HostTranslate { .. }
        | Step::HypTranslate { .. }
        | Step::OwnerOf { .. }
        | Step::GuestTranslate { .. } => true,
        _ => false,
    }
}

/// Whether a reply is NoMemory or NoPool.
fn is_want(reply: Reply) -> bool
    ensures { IsTrue result ↔ IsWant reply }
{
    match reply {
        Reply::Refused(Refusal::NoMemory) => true,
        Reply::Refused(Refusal::NoPool) => true,
        _ => false,
    }
}

/// Whether a step that the model makes, and that may allocate, was refused for lack of memory.
pub(crate) fn wants(step: Step, reply: Reply, told: Reply) -> bool
    ensures { IsTrue result ↔ WantsAnyMemory step reply told }
{
    is_want(reply) && may_grow(step) && matches!(told, Reply::Done(_))
}

/// Whether a refusal is that of a rule's test.
fn is_rule(why: Refusal) -> bool
    ensures { result ≡ is_test why }
{
    match why {
        Refusal::Invalid | Refusal::NoVm | Refusal::Busy | Refusal::Perm => true,
        _ => false,
    }
}

/// Whether a reply counts as the model's under the freedoms.
pub(crate) fn says(freedoms: Freedoms, told: Reply, said: Reply) -> bool
    ensures { IsTrue result ↔ CountsAs freedoms told said }
{
    if said == told {
        return true;
    }
    match (told, said) {
        (Reply::Refused(why), Reply::Refused(_)) => freedoms.any_refusal && is_rule(why),
        _ => false,
    }
}
