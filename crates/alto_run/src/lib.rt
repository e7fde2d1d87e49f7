//! A run of the program: the words of a command line become a task, the task is done, and a status tells how it ended.
//! The vault, the console, the doors, the bell and the clock are the caller's.
#![tactic(auto)]

mod running;

pub use running::run;
