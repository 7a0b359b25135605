//! The laws of a machine's calls and of its end. The functions do nothing, and their contracts are the laws.
ghost use Rattle.cpu_threads.specs.Laws.{AskedOnce, EndsInOne, FullLogsStay, InitAdds, MissingOne, SeenGrows, ShowsModel, StopsAtAnother, StopsAtFullLog, TakesEach};

use crate::judged::Judge;
use std::alloc::Allocator;

/// Once a machine is shut down (`Machine::shutdown`: `end`, `fresh`), there is one legal history at whose end the
/// world is. The calls of each CPU in it are those of its given pass's list, each once, in that order and with the replies
/// that were answered; a CPU whose pass was never handed out has those that the
/// machine began with. At each part the history begins with what each
/// given pass had seen there, and with each log that it took. The calls of such a log come before the call that the
/// pass made next.
pub fn one_history<A: Allocator>()
    ensures { EndsInOne A }
{}

/// So a part's log that a try found full was full before the pass's next call, and is at the end.
pub fn full_logs<A: Allocator>()
    ensures { FullLogsStay A }
{}

/// The tries of a call (`Machine::try_call`): a stored call took each part that its step uses once, in their order, and
/// the calls that its pass has seen of each part only grow. A try that finds a part with another pass, or a log full,
/// stops there.
pub fn tries()
    ensures grows { SeenGrows }
    ensures takes { TakesEach }
    ensures met { StopsAtAnother }
    ensures full { StopsAtFullLog }
{}

/// The questions to a judge (`Machine::try_call_judged`: `judged`): one for a stored call, and it is shown the model's
/// step, unless the call lacked memory.
pub fn judged<A: Allocator, J: Judge>()
    ensures once { AskedOnce A }
    ensures shows { ShowsModel A J.takes }
{}

/// What making a VM (`Machine::init_vm`) adds to the CPU's list: its four calls, or those up to the refused one.
pub fn init_calls()
    ensures { InitAdds }
{}

/// A shutdown that names a missing pass wasn't given all.
pub fn missing()
    ensures { MissingOne }
{}
