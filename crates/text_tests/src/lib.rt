//! Tests of the libraries of texts, in one crate, so that the gate proves none of these twice: printed texts, tables
//! from outside, and one use of each call that allocates, on ample memory. What a contract pins has no test. The tests
//! of rows are in `row_tests`, and those of desks in `desk_tests`.
#![tactic(auto)]

#[cfg(test)]
mod addresses;
#[cfg(test)]
mod asks;
#[cfg(test)]
mod constraints;
#[cfg(test)]
mod links;
#[cfg(test)]
mod merging;
#[cfg(test)]
mod names;
#[cfg(test)]
mod near_addresses;
#[cfg(test)]
mod operations;
#[cfg(test)]
mod pointers;
#[cfg(test)]
mod trees;
