//! The steps of a trace, each made with each of its requests refused in turn.
ghost use Rattle.std.specs.Prelude.{◌≡◌, ◌<◌, OnOk};

use crate::refusing::{MOST, has_met, refuse_all, refuse_nth};
use call_table::{Refusal, Reply, Step};
use std::alloc::{AllocError, Global};
use table_tree::Reads;
use trace_text::{GhostOracle, Oracle};
use world::World;

/// What a step came to.
#[derive(Clone, Copy)]
pub struct Went {
    pub reply: Reply,
    /// How many of its tries were refused a request.
    pub refused: usize,
    /// Each such try answered NoMemory, or what refuses the step anyway, and the oracle found nothing wrong.
    pub is_good: bool,
}

/// One try of a step.
#[derive(Clone, Copy)]
struct Tried {
    reply: Reply,
    /// Whether a request was refused.
    met: bool,
    /// Whether the oracle, which has ample memory, finds nothing wrong: nothing changed if memory was lacking, all is
    /// the model's otherwise, and the kept state is the walked one.
    is_agreed: bool,
}

impl Tried {
    fn is_wanting(&self) -> bool {
        self.reply == Reply::Refused(Refusal::NoMemory)
    }

    /// No step with a refused request is made, and a step lacks memory only if a request was refused.
    fn is_good(&self) -> bool {
        let is_made = matches!(self.reply, Reply::Done(_));
        self.is_agreed && !(self.met && is_made) && (self.met || !self.is_wanting())
    }
}

/// Has requests refused: all at first, and then the Nth.
fn refuse(global: Global, n: usize) {
    if n == 0 {
        refuse_all(global);
    } else {
        refuse_nth(global, n);
    }
}

/// Tries a step with all its requests refused (0), or with the Nth.
fn try_step(
    global: Global,
    world: &mut World<Global>,
    cpu: u64,
    step: Step,
    n: usize,
) -> Result<Tried, AllocError>
    requires known { cpu < world.old.parts.layout.config.cpus }
    ensures layout { OnOk result (world.new.parts.layout ≡ world.old.parts.layout) }
{
    let before = world.to_ghost(global)?;
    refuse(global, n);
    let reply = world.step(cpu, step);
    let met = has_met(global);
    let Ok(after) = world.kept_and_walked(global, &mut Reads::new()) else {
        drop(before);
        return Err(AllocError);
    };
    let verdict = GhostOracle.check(global, before, cpu, step, reply, &after);
    drop(after);
    let verdict = verdict?;
    Ok(Tried {
        reply,
        met,
        is_agreed: verdict.judged.is_none() && verdict.audited.is_none(),
    })
}

/// Makes a step with all its requests refused, and then with each in turn, until memory isn't lacking.
pub fn make(
    global: Global,
    world: &mut World<Global>,
    cpu: u64,
    step: Step,
) -> Result<Went, AllocError>
    requires known { cpu < world.old.parts.layout.config.cpus }
    ensures layout { OnOk result (world.new.parts.layout ≡ world.old.parts.layout) }
{
    let mut is_good = true;
    for n in 0..MOST {
        let it = try_step(global, world, cpu, step, n)?;
        is_good = is_good && it.is_good();
        if !it.is_wanting() {
            return Ok(Went {
                reply: it.reply,
                refused: n,
                is_good,
            });
        }
    }
    Err(AllocError)
}
