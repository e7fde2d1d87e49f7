ghost use Rattle.std.specs.Prelude.{IfOk};
ghost use Rattle.clap.specs.Words.{first_value, found_of};
ghost use Rattle.alto_words.specs.Tasks.{Gives, IsInRange, task_in};
ghost use Rattle.alto_words.specs.declared.command_name.CommandName.TheVariants.{Drill, Import, Init, Pipe, Serve};
ghost use Rattle.alto_words.specs.declared.command_name.CommandName.TheVariants.{Show, Trim};

use crate::command_name::CommandName;
use crate::task::{Task, WordsFault};
use crate::values::{epoch, form, import_id, number, number_or, text};
use clap::ArgMatches;
use std::alloc::Global;

/// How often the next edge is waited for, where no word says it.
const USUAL_TURNS: u32 = 30;

/// How many batches a drill makes, where no word says it.
const USUAL_BATCHES: u32 = 40;

/// The task of a command whose arguments have these values.
pub(crate) fn task_in(
    alloc: Global,
    command: CommandName,
    values: &ArgMatches,
) -> Result<Task, WordsFault>
    ensures gives { Gives (task_in command (first_value (found_of values.now))) result }
    ensures ranges { IfOk result IsInRange }
{
    match command {
        CommandName::Init => init(alloc, values),
        CommandName::Pipe => pipe(alloc, values),
        CommandName::Serve => serve(alloc, values),
        CommandName::Import => import(alloc, values),
        CommandName::Show => show(alloc, values),
        CommandName::Drill => drill(values),
        CommandName::Trim => trim(alloc, values),
    }
}

fn init(alloc: Global, values: &ArgMatches) -> Result<Task, WordsFault>
    ensures gives { Gives (task_in Init (first_value (found_of values.now))) result }
    ensures ranges { IfOk result IsInRange }
{
    let store = text(alloc, values.get_str("STORE"))?;
    let epoch = epoch(alloc, values.get_str("epoch"))?;
    let window = number(values.get_str("window"), 2, 32)?;
    Ok(Task::Init {
        store,
        epoch,
        window,
    })
}

fn pipe(alloc: Global, values: &ArgMatches) -> Result<Task, WordsFault>
    ensures gives { Gives (task_in Pipe (first_value (found_of values.now))) result }
    ensures ranges { IfOk result IsInRange }
{
    let store = text(alloc, values.get_str("STORE"))?;
    let turns = number_or(USUAL_TURNS, values.get_str("turns"), 0, 1_000)?;
    Ok(Task::Pipe { store, turns })
}

fn serve(alloc: Global, values: &ArgMatches) -> Result<Task, WordsFault>
    ensures gives { Gives (task_in Serve (first_value (found_of values.now))) result }
    ensures ranges { IfOk result IsInRange }
{
    let store = text(alloc, values.get_str("STORE"))?;
    let public = text(alloc, values.get_str("public"))?;
    let operator = text(alloc, values.get_str("operator"))?;
    let workers = number(values.get_str("workers"), 1, 64)?;
    let turns = number_or(USUAL_TURNS, values.get_str("turns"), 0, 1_000)?;
    Ok(Task::Serve {
        store,
        public,
        operator,
        workers,
        turns,
    })
}

fn import(alloc: Global, values: &ArgMatches) -> Result<Task, WordsFault>
    ensures gives { Gives (task_in Import (first_value (found_of values.now))) result }
    ensures ranges { IfOk result IsInRange }
{
    let store = text(alloc, values.get_str("STORE"))?;
    let id = import_id(alloc, values.get_str("id"))?;
    let form = form(values.get_str("form"))?;
    Ok(Task::Import { store, id, form })
}

fn show(alloc: Global, values: &ArgMatches) -> Result<Task, WordsFault>
    ensures gives { Gives (task_in Show (first_value (found_of values.now))) result }
    ensures ranges { IfOk result IsInRange }
{
    let store = text(alloc, values.get_str("STORE"))?;
    let resource = text(alloc, values.get_str("RESOURCE"))?;
    Ok(Task::Show { store, resource })
}

fn drill(values: &ArgMatches) -> Result<Task, WordsFault>
    ensures gives { Gives (task_in Drill (first_value (found_of values.now))) result }
    ensures ranges { IfOk result IsInRange }
{
    let number = number(values.get_str("number"), 0, u32::MAX)?;
    let batches = number_or(USUAL_BATCHES, values.get_str("batches"), 1, 1_000)?;
    Ok(Task::Drill { number, batches })
}

fn trim(alloc: Global, values: &ArgMatches) -> Result<Task, WordsFault>
    ensures gives { Gives (task_in Trim (first_value (found_of values.now))) result }
    ensures ranges { IfOk result IsInRange }
{
    let store = text(alloc, values.get_str("STORE"))?;
    let keep = number(values.get_str("keep"), 0, 4_096)?;
    Ok(Task::Trim { store, keep })
}
