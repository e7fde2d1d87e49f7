//! Tests of connections over a store in memory, by the bytes that they are answered with, and of commands over a store,
//! in one crate, so that the gate proves no crate of the program twice. Those of doors, seats and command lines are in
//! `serving_tests`, which ask and are answered in the same forms.
#![tactic(auto)]

#[cfg(test)]
mod answers;
#[cfg(test)]
mod imports;
#[cfg(test)]
mod maps;
#[cfg(test)]
mod paths;
#[cfg(test)]
mod queries;
#[cfg(test)]
mod requests;
#[cfg(test)]
mod stores;
mod talks;

pub use talks::{Talk, begun, joined, parted, reply, request};
