ghost use Rattle.std.specs.Prelude.{◌≡◌};
ghost use Rattle.std.specs.List.{find};
ghost use Rattle.std.specs.Str.{bytes_eq};
ghost use Rattle.alto_words.specs.Commands.{command_named, text_of};

/// The name of a command.
#[derive(Clone, Copy, Debug, PartialEq, Eq)]
pub enum CommandName {
    Init,
    Pipe,
    Serve,
    Import,
    Show,
    Drill,
    Trim,
}

/// Every command, in the order in which they are listed.
const COMMANDS: [CommandName; 7] = [
    CommandName::Init,
    CommandName::Pipe,
    CommandName::Serve,
    CommandName::Import,
    CommandName::Show,
    CommandName::Drill,
    CommandName::Trim,
];

impl CommandName {
    /// The command that a word names, if it names one.
    pub(crate) fn read(word: &str) -> Option<CommandName>
        ensures { result ≡ command_named word.now }
    {
        first_named(&COMMANDS, word)
    }

    /// The word that names the command.
    pub fn as_str(&self) -> &'static str
        ensures { result.now ≡ text_of self.now }
    {
        match self {
            CommandName::Init => "init",
            CommandName::Pipe => "pipe",
            CommandName::Serve => "serve",
            CommandName::Import => "import",
            CommandName::Show => "show",
            CommandName::Drill => "drill",
            CommandName::Trim => "trim",
        }
    }
}

/// The first of these commands that the word names.
fn first_named(commands: &[CommandName], word: &str) -> Option<CommandName>
    ensures { result ≡ find (λ command. bytes_eq (text_of command) word.now) commands.now }
{
    for command in commands {
        if command.as_str() == word {
            return Some(*command);
        }
    }
    None
}
