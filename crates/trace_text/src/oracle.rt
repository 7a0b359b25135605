//! What judges and audits the steps of a replay.
ghost use Rattle.std.specs.Prelude.{◌≡◌, ◌<◌, ◌≤◌, ◌↔◌, IfOk, IfSome, None, false, true, length};
ghost use Rattle.ghost_judge.specs.Audits.{AuditAgrees, IsFirstDifference};
ghost use Rattle.ghost_oracle.specs.Compared.{walked_in};
ghost use Rattle.ghost_spec.specs.Kept.{HasNextGeneration};
ghost use Rattle.ghost_spec.specs.States.{contents_in};
ghost use Rattle.call_table.specs.declared.reply.Call.{Call};
ghost use Rattle.reference_model.specs.model.State.{Reference};
ghost use Rattle.trace_text.specs.Oracles.{IsAgreed, IsFirstOfStep, StepAgrees, ReportsShown, agreed, audited_lines, judged_lines, verdict_lines};
ghost use Rattle.trace_text.specs.Worlds.{Machine};

use call_table::{Reply, Step};
use ghost_judge::disagreement::Disagreement;
use ghost_judge::judge::judge_last;
use ghost_oracle::compared::Compared;
use ghost_spec::state::Ghost;
use std::alloc::{AllocError, Global};

/// What an oracle finds at a step.
#[derive(Clone, Copy, PartialEq)]
pub struct Verdict {
    /// Where its reply, or the state after it, is not what the model says.
    pub judged: Option<Disagreement>,
    /// Where the kept state after it is not what walking every word finds.
    pub audited: Option<Disagreement>,
}

impl Verdict {
    /// How many lines of the report it has.
    pub fn count(&self) -> u64
        ensures count { result ≡ length (verdict_lines self.now) }
        ensures few { result ≤ 2 }
    {
        count_of(self.judged) + count_of(self.audited)
    }
}

/// The number of lines that report a finding, if there is one.
fn count_of(found: Option<Disagreement>) -> u64
    ensures judged { result ≡ length (judged_lines found) }
    ensures audited { result ≡ length (audited_lines found) }
    ensures few { result ≤ 1 }
{
    match found {
        Some(_) => 1,
        None => 0,
    }
}

/// What is asked after each step of a replay.
pub trait Oracle {
    ghost use Rattle.std.specs.Prelude.{Bool};
    ghost use Rattle.trace_text.specs.Oracles.{nothing_found};
    ghost use Rattle.trace_text.specs.declared.oracle.Verdict.{Verdict};

    /// What it may find at a call that leads from a machine's state to another.
    ghost gives: { Machine → Call → Reference → Verdict → Type 0 };

    /// Whether it looks at steps.
    ghost looking: { Self → Bool };

    /// Whether it looks at steps. One that doesn't is asked after none, and finds nothing: no state is kept for it, and no
    /// word read.
    fn looks(&self) -> bool
        ensures looks { result ≡ looking self.now }
        ensures silent { looking self.now ≡ false
            → (m : Machine) (c : Call) (t : Reference)
            → gives m c t nothing_found };

    /// Looks at a step of a CPU: the state kept before it, the reply, and the state kept after it with a walk of every
    /// word. It consumes the state before: nothing else needs it. Err if memory is refused.
    fn check(
        &mut self,
        global: Global,
        before: Ghost,
        cpu: u64,
        step: Step,
        reply: Reply,
        after: &Compared,
    ) -> Result<Verdict, AllocError>
        requires cpu { cpu < before.layout.config.cpus }
        requires generation { HasNextGeneration ((contents_in before).cpu cpu).ticket step }
        ensures told { IfOk result (ReportsShown gives before cpu step reply after.now) };
}

/// The oracle of `replay`: it judges each step by the model, and audits the kept state against the walk. In a replay it
/// finds no disagreement; of any other states it finds the first of each kind, and none if and only if there is none.
#[derive(Drop)]
pub struct GhostOracle;

impl Oracle for GhostOracle {
    ghost gives = { λ m c t v. IsAgreed v };

    ghost looking = { λ _. true };

    fn looks(&self) -> bool {
        true
    }

    fn check(
        &mut self,
        global: Global,
        before: Ghost,
        cpu: u64,
        step: Step,
        reply: Reply,
        after: &Compared,
    ) -> Result<Verdict, AllocError>
        requires cpu { cpu < before.layout.config.cpus }
        requires generation { HasNextGeneration ((contents_in before).cpu cpu).ticket step }
        ensures told { IfOk result (ReportsShown agreed before cpu step reply after.now) }
        ensures judged { IfOk result (λ v. (v.judged ≡ None) ↔ StepAgrees before cpu step reply after.now.kept) }
        ensures first_judged { IfOk result (λ v. IfSome v.judged (IsFirstOfStep before cpu step reply after.now.kept)) }
        ensures audited { IfOk result
            (λ v. (v.audited ≡ None)
            ↔ AuditAgrees (contents_in after.now.kept) (contents_in (walked_in after.now))) }
        ensures first_audited { IfOk result
            (λ v. IfSome v.audited
            (IsFirstDifference (contents_in after.now.kept)
            (contents_in (walked_in after.now)))) }
    {
        Ok(Verdict {
            judged: judge_last(global, before, cpu, step, &reply, &after.kept)?,
            audited: after.audit(),
        })
    }
}

/// The oracle of a run whose steps nothing looks at.
#[derive(Drop)]
pub struct NoOracle;

impl Oracle for NoOracle {
    ghost gives = { λ m c t v. IsAgreed v };

    ghost looking = { λ _. false };

    fn looks(&self) -> bool {
        false
    }

    fn check(
        &mut self,
        _global: Global,
        before: Ghost,
        _cpu: u64,
        _step: Step,
        _reply: Reply,
        _after: &Compared,
    ) -> Result<Verdict, AllocError> {
        drop(before);
        Ok(Verdict {
            judged: None,
            audited: None,
        })
    }
}
