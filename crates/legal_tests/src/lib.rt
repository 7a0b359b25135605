//! Tests of `ghost_legal`: states of generated traces are legal, and states that no run reaches are not.
#![tactic(auto)]

#[cfg(test)]
mod changes;
#[cfg(test)]
mod faults;
#[cfg(test)]
mod runs;
#[cfg(test)]
mod walks;
