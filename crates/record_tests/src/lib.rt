//! Tests of records, in one crate, so that the gate proves none of their libraries twice: one use of each call of a
//! keeper over a database, and desks over files that break off. The tests of desks in memory are in `desk_tests`.
#![tactic(auto)]

#[cfg(test)]
mod crashes;
#[cfg(test)]
mod keepers;
