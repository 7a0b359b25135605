//! Judges a call up to the choices of a hypervisor.
ghost use Rattle.std.specs.Prelude.{◌≡◌, ◌<◌, ◌↔◌, None, IfOk, IfSome, false, true};
ghost use Rattle.page_state.specs.EntryTests.{is_unmapped};
ghost use Rattle.page_state.specs.LayoutView.{layout_of};
ghost use Rattle.freedoms.specs.Freedoms.{Touches};
ghost use Rattle.ghost_spec.specs.Kept.{HasNextGeneration};
ghost use Rattle.ghost_spec.specs.States.{contents_in};
ghost use Rattle.free_judge.specs.Asked.{asked_of};
ghost use Rattle.free_judge.specs.Freely.{page_touched, AgreesIn, IsFirstIn, IsFirstUnwanted, IsJudgedFreely, IsMissing, IsReady, IsPredictedFreely, IsUntouchedBy, IsWanted};

use crate::ample::predict_amply;
use crate::asked::asked;
use crate::bare::without;
use crate::same::{is_read, says, wants};
use crate::view::viewed;
use call_table::{Reply, Step};
use freedoms::Freedoms;
use ghost_judge::disagreement::{Disagreement, TreeOf};
use ghost_judge::judge::differs;
use ghost_spec::state::Ghost;
use ghost_trees::runs::at;
use page_state::{Entry, Page};
use std::alloc::{AllocError, Global};

/// The page that a host touches by a call that was made.
fn touched_page(step: Step, reply: Reply) -> Option<u64>
    ensures { result ≡ page_touched step reply }
{
    match (step, reply) {
        (Step::HostAbort { page }, Reply::Done(_)) => Some(page),
        _ => None,
    }
}

/// The difference of a page that the host hasn't mapped.
fn missing(page: u64, post: &Ghost, wanted: &Ghost) -> Option<Disagreement>
    ensures none { (result ≡ None) ↔ (is_unmapped ((contents_in post.now).shared.host.map page) ≡ false) }
    ensures told { IfSome result (IsMissing page (contents_in post.now) (contents_in wanted.now)) }
{
    match at(post.lists().shared.host.runs.as_slice(), Page(page)) {
        Entry::Unmapped => Some(Disagreement::Map {
            tree: TreeOf::Host,
            page,
            kept: Entry::Unmapped,
            walked: at(wanted.lists().shared.host.runs.as_slice(), Page(page)),
        }),
        _ => None,
    }
}

/// A page that a lazy host touched, and that isn't mapped all the same.
fn untouched(
    freedoms: Freedoms,
    step: Step,
    reply: Reply,
    post: &Ghost,
    wanted: &Ghost,
) -> Option<Disagreement>
    ensures none { (result ≡ None) ↔ (freedoms.lazy_host ≡ true → Touches step reply (contents_in post.now)) }
    ensures told { IfSome result
        (IsUntouchedBy freedoms step reply (contents_in post.now) (contents_in wanted.now)) }
{
    if !freedoms.lazy_host {
        return None;
    }
    match touched_page(step, reply) {
        Some(page) => missing(page, post, wanted),
        None => None,
    }
}

/// The first difference from the expected state, if the reply counts as the model's.
fn in_state(
    freedoms: Freedoms,
    step: Step,
    reply: Reply,
    after: &Ghost,
    wanted: &Ghost,
    post: &Ghost,
) -> Option<Disagreement>
    ensures none { (result ≡ None)
        ↔ IsWanted freedoms step reply (contents_in after.now) (contents_in wanted.now)
        (contents_in post.now) }
    ensures first { IfSome result
        (IsFirstUnwanted freedoms step reply (contents_in after.now) (contents_in wanted.now)
        (contents_in post.now)) }
{
    let found = differs(after, wanted);
    if found.is_some() {
        return found;
    }
    untouched(freedoms, step, reply, post, wanted)
}

/// The first difference from the model's reply and state, or from the state before if memory ran out.
fn judge_seen(
    freedoms: Freedoms,
    step: Step,
    reply: Reply,
    told: Reply,
    before: &Ghost,
    after: &Ghost,
    wanted: &Ghost,
    post: &Ghost,
) -> Option<Disagreement>
    ensures none { (result ≡ None) ↔ AgreesIn freedoms step reply told before.now after.now wanted.now post.now }
    ensures first { IfSome result (IsFirstIn freedoms step reply told before.now after.now wanted.now post.now) }
{
    if wants(step, reply, told) {
        return differs(after, before);
    }
    if !says(freedoms, told, reply) {
        return Some(Disagreement::Reply {
            said: reply,
            spec: told,
        });
    }
    in_state(freedoms, step, reply, after, wanted, post)
}

/// The state from which the model steps: the state itself for a step that only reads, and for one that reads a guest's
/// pool the view that the freedoms leave, with the pool from the rows.
fn ready(
    alloc: Global,
    freedoms: Freedoms,
    pre: &Ghost,
    cpu: u64,
    step: Step,
    reply: Reply,
) -> Result<Ghost, AllocError>
    requires cpu { cpu < pre.now.layout.config.cpus }
    ensures ready { IfOk result
        (λ g. IsReady freedoms (layout_of pre.now.layout) (contents_in pre.now) cpu step reply
        (asked_of step (contents_in g))) }
    ensures cpu { IfOk result (λ g. (contents_in g).cpu ≡ (contents_in pre.now).cpu) }
    ensures layout { IfOk result (λ g. layout_of g.layout ≡ layout_of pre.now.layout) }
{
    if is_read(step) {
        let bare = without(alloc, pre)?;
        return Ok(bare);
    }
    let seen = viewed(alloc, freedoms, &pre.lists().layout, pre)?;
    let asked = asked(alloc, freedoms, seen, cpu, step, reply)?;
    Ok(asked)
}

/// The model's reply to a step of a CPU in the view that the freedoms leave of a state, and the state after it, apart
/// from tables and free frames. If a call was made and names a frame of a guest's pool, the model gives that frame if
/// its row has the pool as its use.
pub fn predicted_freely(
    alloc: Global,
    freedoms: Freedoms,
    pre: &Ghost,
    cpu: u64,
    step: Step,
    reply: Reply,
) -> Result<(Reply, Ghost), AllocError>
    requires cpu { cpu < pre.now.layout.config.cpus }
    requires generation { HasNextGeneration ((contents_in pre.now).cpu cpu).ticket step }
    ensures told { IfOk result
        (λ r. IsPredictedFreely freedoms (layout_of pre.now.layout)
        (contents_in pre.now) cpu step reply r.0 (contents_in r.1)) }
{
    let ready = ready(alloc, freedoms, pre, cpu, step, reply)?;
    let told = predict_amply(alloc, &ready, cpu, step)?;
    Ok(told)
}

/// Judges a call of a CPU by the state before it, its reply and the state after it, up to the freedoms and the
/// hypervisor's own tables and free frames: None if the model's step from one state that differs from the state before
/// only in that has such a reply, and leads to one that differs so from the state after. Else the first difference in the
/// view that the freedoms leave. The layout is that of the state before. Logs are ignored. Err if the allocator refuses
/// memory to the judge.
pub fn judge_freely(
    alloc: Global,
    freedoms: Freedoms,
    pre: &Ghost,
    cpu: u64,
    step: Step,
    reply: &Reply,
    post: &Ghost,
) -> Result<Option<Disagreement>, AllocError>
    requires cpu { cpu < pre.now.layout.config.cpus }
    requires generation { HasNextGeneration ((contents_in pre.now).cpu cpu).ticket step }
    ensures { IfOk result
        (IsJudgedFreely freedoms (layout_of pre.now.layout)
        (contents_in pre.now) cpu step reply.now (contents_in post.now)) }
{
    let layout = &pre.lists().layout;
    let (told, made) = predicted_freely(alloc, freedoms, pre, cpu, step, *reply)?;
    let wanted = viewed(alloc, freedoms, layout, &made)?;
    let before = viewed(alloc, freedoms, layout, pre)?;
    let after = viewed(alloc, freedoms, layout, post)?;
    Ok(judge_seen(freedoms, step, *reply, told, &before, &after, &wanted, post))
}
