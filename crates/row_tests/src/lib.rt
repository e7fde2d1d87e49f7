//! Tests of the libraries of rows, graphs and forms of edits, in one crate, so that the gate proves none of them twice:
//! printed texts, tables from outside, and one use of each call that allocates, on ample memory. What a contract pins
//! has no test. The tests of texts are in `text_tests`, and those of desks in `desk_tests`.
#![tactic(auto)]

#[cfg(test)]
mod bodies;
#[cfg(test)]
mod forms;
#[cfg(test)]
mod graphs;
#[cfg(test)]
mod rows;
#[cfg(test)]
mod stores;
#[cfg(test)]
mod texts_of_rows;
