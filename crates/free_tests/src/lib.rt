//! Tests of `free_judge`: hypervisors with tables, pools and names of their own, and their bugs.
#![tactic(auto)]

#[cfg(test)]
mod bugs;
#[cfg(test)]
mod changes;
#[cfg(test)]
mod runs;
#[cfg(test)]
mod walks;
