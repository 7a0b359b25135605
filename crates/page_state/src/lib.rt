//! Pages, maps and owner rows: the words in which every crate speaks of ownership.
#![tactic(auto)]

mod entry;
pub mod laws;
mod layout;
mod row;
mod text;

pub use descriptor::{Desc, Frame, Kind, Level, Owner, Prot, State};
pub use entry::{Entry, Page, PageRange, Run, Target};
pub use layout::{
    Config, Geometry, Layout, LayoutFault, MemoryMap, Region, RegionKind, pages_under,
};
pub use row::{Lent, Row, Usage};
pub use text::{kind_word, rights_word, state_word};
