//! The words of the program's command line, and the task that they ask for. `clap` takes the words apart; what a value
//! may be is judged here.
//!
//! ```text
//! init STORE --epoch E --window W               --help
//! pipe STORE [--turns T]                        COMMAND --help
//! import STORE --id ID --form csv (or json)     --version
//! show STORE RESOURCE
//! drill --number X [--batches B]
//! trim STORE --keep K
//! serve STORE --public ADDRESS --operator ADDRESS --workers N [--turns T]
//! ```
#![tactic(auto)]

mod builders;
mod command_name;
mod help;
mod number;
mod reading;
mod task;
mod tasks;
mod values;
mod worked_lines;

pub use command_name::CommandName;
pub use help::{VERSION, WORDS_FAULT, help_text};
pub use reading::read_words;
pub use task::{Task, Topic, WordsFault};
pub use worked_lines::{
    arguments_are_those_of_the_command, each_command_asks_for_its_task,
    hyphens_begin_options_before_two_hyphens, numbers_are_digits_in_a_range,
    options_stand_anywhere, other_words_are_outside, values_are_of_their_kinds,
};
