ghost use Rattle.std.specs.Prelude.{◌≡◌, IfOk, false};
ghost use Rattle.clap.specs.Words.{app_of, with_subcommand};
ghost use Rattle.clap.specs.declared.builder.command.Command.TheViews.{out-Command as fields_of};
ghost use Rattle.alto_words.specs.Grammar.{Adds, option, positional, program, program_app, required};
ghost use Rattle.alto_words.specs.Grammar.{drill_app, import_app, init_app, pipe_app, serve_app, show_app, trim_app};

use clap::{Arg, Command};
use std::alloc::{AllocError, Global};

/// The program's command line, as `clap` is told of it.
pub(crate) fn alto<'a>(alloc: Global) -> Result<Command<'a>, AllocError>
    ensures { IfOk result (λ alto. app_of alto ≡ program) }
{
    let alto = with_command(top(alloc), init(alloc)?)?;
    let alto = with_command(alto, pipe(alloc)?)?;
    let alto = with_command(alto, serve(alloc)?)?;
    let alto = with_command(alto, import(alloc)?)?;
    let alto = with_command(alto, show(alloc)?)?;
    let alto = with_command(alto, drill(alloc)?)?;
    with_command(alto, trim(alloc)?)
}

/// The program without its commands. What `clap` adds by itself is left out.
fn top<'a>(alloc: Global) -> Command<'a>
    ensures { app_of result ≡ program_app }
{
    Command::new(alloc, "alto")
        .no_binary_name(true)
        .disable_help_flag(true)
        .disable_help_subcommand(true)
        .disable_version_flag(true)
        .subcommand_required(true)
}

fn init<'a>(alloc: Global) -> Result<Command<'a>, AllocError>
    ensures app { IfOk result (λ command. app_of command ≡ init_app) }
    ensures local { IfOk result (λ command. (fields_of command).has_globals ≡ false) }
{
    let init = with_positional(alloc, Command::new(alloc, "init"), "STORE")?;
    let init = with_required_option(alloc, init, "epoch")?;
    with_required_option(alloc, init, "window")
}

fn pipe<'a>(alloc: Global) -> Result<Command<'a>, AllocError>
    ensures app { IfOk result (λ command. app_of command ≡ pipe_app) }
    ensures local { IfOk result (λ command. (fields_of command).has_globals ≡ false) }
{
    let pipe = with_positional(alloc, Command::new(alloc, "pipe"), "STORE")?;
    with_option(alloc, pipe, "turns")
}

fn serve<'a>(alloc: Global) -> Result<Command<'a>, AllocError>
    ensures app { IfOk result (λ command. app_of command ≡ serve_app) }
    ensures local { IfOk result (λ command. (fields_of command).has_globals ≡ false) }
{
    let serve = with_positional(alloc, Command::new(alloc, "serve"), "STORE")?;
    let serve = with_required_option(alloc, serve, "public")?;
    let serve = with_required_option(alloc, serve, "operator")?;
    let serve = with_required_option(alloc, serve, "workers")?;
    with_option(alloc, serve, "turns")
}

fn import<'a>(alloc: Global) -> Result<Command<'a>, AllocError>
    ensures app { IfOk result (λ command. app_of command ≡ import_app) }
    ensures local { IfOk result (λ command. (fields_of command).has_globals ≡ false) }
{
    let import = with_positional(alloc, Command::new(alloc, "import"), "STORE")?;
    let import = with_required_option(alloc, import, "id")?;
    with_required_option(alloc, import, "form")
}

fn show<'a>(alloc: Global) -> Result<Command<'a>, AllocError>
    ensures app { IfOk result (λ command. app_of command ≡ show_app) }
    ensures local { IfOk result (λ command. (fields_of command).has_globals ≡ false) }
{
    let show = with_positional(alloc, Command::new(alloc, "show"), "STORE")?;
    with_positional(alloc, show, "RESOURCE")
}

fn drill<'a>(alloc: Global) -> Result<Command<'a>, AllocError>
    ensures app { IfOk result (λ command. app_of command ≡ drill_app) }
    ensures local { IfOk result (λ command. (fields_of command).has_globals ≡ false) }
{
    let drill = with_required_option(alloc, Command::new(alloc, "drill"), "number")?;
    with_option(alloc, drill, "batches")
}

fn trim<'a>(alloc: Global) -> Result<Command<'a>, AllocError>
    ensures app { IfOk result (λ command. app_of command ≡ trim_app) }
    ensures local { IfOk result (λ command. (fields_of command).has_globals ≡ false) }
{
    let trim = with_positional(alloc, Command::new(alloc, "trim"), "STORE")?;
    with_required_option(alloc, trim, "keep")
}

/// The program with one more command.
fn with_command<'a>(program: Command<'a>, command: Command<'a>) -> Result<Command<'a>, AllocError>
    requires local { (fields_of command).has_globals ≡ false }
    ensures { IfOk result (λ new. app_of new ≡ with_subcommand (app_of program.entry) (app_of command.entry).top) }
{
    program.subcommand(command)
}

/// The command with one more positional, which has to be there.
fn with_positional<'a>(
    alloc: Global,
    command: Command<'a>,
    name: &'a str,
) -> Result<Command<'a>, AllocError>
    ensures { IfOk result (Adds (positional name.entry.now) command.entry) }
{
    command.arg(Arg::new(alloc, name).required(true))
}

/// The command with one more option, which may be left out.
fn with_option<'a>(
    alloc: Global,
    command: Command<'a>,
    name: &'a str,
) -> Result<Command<'a>, AllocError>
    ensures { IfOk result (Adds (option name.entry.now) command.entry) }
{
    command.arg(Arg::new(alloc, name).long(name))
}

/// The command with one more option, which has to be there.
fn with_required_option<'a>(
    alloc: Global,
    command: Command<'a>,
    name: &'a str,
) -> Result<Command<'a>, AllocError>
    ensures { IfOk result (Adds (required (option name.entry.now)) command.entry) }
{
    command.arg(Arg::new(alloc, name).long(name).required(true))
}
