//! Steps, replies and calls: the request of a CPU, the answer to it, and the record of both in logs.
#![tactic(auto)]

mod argument;
pub mod laws;
mod reply;
mod row;
mod step;
mod table;
mod text;
mod words;

pub use argument::{Arguments, Form};
pub use reply::{Call, Refusal, Reply, Value};
pub use row::{CallName, CallRow};
pub use step::{Step, VmId, VmKind};
pub use table::{NamedCall, step_of, values_of};
pub use words::{rights_named, vm_kind_named, vm_kind_word};
