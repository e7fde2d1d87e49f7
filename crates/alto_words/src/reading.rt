ghost use Rattle.std.specs.Prelude.{◌≡◌, ◌≢◌, IfOk, IfErr, IfSome, None, Some, map};
ghost use Rattle.alto_words.specs.Tasks.{Gives, IsInRange};
ghost use Rattle.alto_words.specs.Words.{asked, command_task, task_found, task_of};
ghost use Rattle.clap.specs.Words.{kind_of, subcommand_rows_of};
ghost use Rattle.alto_words.specs.declared.task.WordsFault.TheVariants.{Memory, Outside};

use crate::builders::alto;
use crate::command_name::CommandName;
use crate::task::{Task, Topic, WordsFault};
use crate::tasks::task_in;
use clap::error::ErrorKind;
use clap::{ArgMatches, Error};
use json_tree::Name;
use std::alloc::{AllocError, Global};

/// The task that the words behind the program's name ask for. `Outside` exactly where they are outside the grammar, and
/// `Memory` out of memory.
pub fn read_words(alloc: Global, words: &[Name]) -> Result<Task, WordsFault>
    ensures meant { IfOk result (λ task. task_of words.now ≡ Some task) }
    ensures outside { IfErr result (λ fault. fault ≡ Outside → task_of words.now ≡ None) }
    ensures ranges { IfOk result IsInRange }
{
    match asked(words) {
        Some(task) => Ok(task),
        None => command_task(alloc, words),
    }
}

/// What `--help` and `--version` ask for.
fn asked(words: &[Name]) -> Option<Task>
    ensures asked { result ≡ asked words.now }
    ensures ranges { IfSome result IsInRange }
{
    match words {
        [word] if word.as_str() == "--help" => Some(Task::Help(Topic::Program)),
        [word] if word.as_str() == "--version" => Some(Task::Version),
        [name, word] if word.as_str() == "--help" => {
            let command = CommandName::read(name.as_str())?;
            Some(Task::Help(Topic::Command(command)))
        }
        _ => None,
    }
}

/// The task of a command and its arguments.
fn command_task(alloc: Global, words: &[Name]) -> Result<Task, WordsFault>
    ensures gives { Gives (command_task words.now) result }
    ensures ranges { IfOk result IsInRange }
{
    let texts = texts_of(alloc, words)?;
    let matches = match alto(alloc)?.try_get_matches_from(texts.as_slice()) {
        Ok(matches) => matches,
        Err(error) => return Err(fault_in(&error)),
    };
    task_found(alloc, &matches)
}

/// The words as `clap` takes them.
fn texts_of<'w>(alloc: Global, words: &'w [Name]) -> Result<Vec<&'w str>, AllocError>
    ensures { IfOk result (λ texts. map (λ text. text.now) texts.items ≡ words.now) }
{
    let mut texts = Vec::new(alloc);
    for word in words {
        texts.push(word.as_str())?;
    }
    Ok(texts)
}

/// The task of the command that was found, with its values.
fn task_found(alloc: Global, matches: &ArgMatches) -> Result<Task, WordsFault>
    ensures gives { Gives (task_found (subcommand_rows_of matches.now)) result }
    ensures ranges { IfOk result IsInRange }
{
    let Some((name, values)) = matches.subcommand() else {
        return Err(WordsFault::Outside);
    };
    match CommandName::read(name) {
        Some(command) => task_in(alloc, command, values),
        None => Err(WordsFault::Outside),
    }
}

/// Why `clap` refused words.
fn fault_in(error: &Error) -> WordsFault
    ensures { result ≢ Memory → kind_of error.now ≢ ErrorKind.OutOfMemory }
{
    match error.kind() {
        ErrorKind::OutOfMemory => WordsFault::Memory,
        _ => WordsFault::Outside,
    }
}
