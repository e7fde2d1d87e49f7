//! Tests of what is served beside connections, in one crate, so that the gate proves no crate of the program twice:
//! doors, seats of one hub, and words of the command line. Those of connections are in `connection_tests`.
#![tactic(auto)]

#[cfg(test)]
mod doors;
#[cfg(test)]
mod seats;
#[cfg(test)]
mod words;
