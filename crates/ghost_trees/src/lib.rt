//! Trees as lists: runs, blocks, the tables of blocks, and free frames. Plain and slow.
#![tactic(auto)]

pub mod apart;
pub mod blocks;
pub mod pool;
pub mod runs;
pub mod tree;
