//! Lines of a trace: their meaning, their faults, and their reports.
#![tactic(auto)]

pub mod argument;
mod asked;
mod call;
mod fault;
mod grammar;
mod line;
mod place;
mod response;
mod settings;

pub use asked::Asked;
pub use call::argument_at;
pub use fault::LineFault;
pub use grammar::said;
pub use line::{Line, Poke, Query, Setting, TreeName};
pub use place::{Allows, SettingName, Verb};
pub use response::Response;
pub use settings::Settings;
