//! Tests of desks, in one crate, so that the gate proves none of their libraries twice: imports that were worked out by
//! hand, and the tables of a version beside its rows. What a contract pins has no test. The tests of rows are in
//! `row_tests`, those of records in `record_tests`, and those of connections in `connection_tests`.
#![tactic(auto)]

#[cfg(test)]
mod costs;
#[cfg(test)]
mod desks;
#[cfg(test)]
mod draws;
#[cfg(test)]
mod limits;
#[cfg(test)]
mod lookups;
#[cfg(test)]
mod rules;
#[cfg(test)]
mod withdrawals;
