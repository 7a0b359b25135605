//! Traces with names for values that calls give: `#= ok vm $V` behind a step binds `$V`, which stands for that value in the lines after
//! it. A trace is expanded, each name by its value, and is checked so.
#![tactic(auto)]

mod checking;
mod expanding;
mod faults;
pub mod laws;
mod names;
mod putting;
mod twice;
mod values;

pub use checking::{check, record, unexpanded};
pub use expanding::{Expansion, expand};
pub use faults::{Spot, add_spot};
pub use values::{bytes_of, note_at};
