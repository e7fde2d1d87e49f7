use crate::command_name::CommandName;
use alto_names::{Epoch, ImportId};
use edit_forms::Form;
use json_tree::Name;
use std::alloc::AllocError;

/// What a command line asks for.
#[derive(Debug, PartialEq, Eq, Drop)]
pub enum Task {
    /// Makes a store with the row of a new book.
    Init {
        /// Where the store is.
        store: Name,
        /// With which the book's tags begin.
        epoch: Epoch,
        /// How many numbers of a resource are kept: 2 to 32.
        window: u32,
    },
    /// Answers the requests of standard input.
    Pipe {
        /// Where the store is.
        store: Name,
        /// How often the next edge is waited for: 0 to 1,000.
        turns: u32,
    },
    /// Answers the requests of connections.
    Serve {
        /// Where the store is.
        store: Name,
        /// Where clients connect. Any text: it need not be an address.
        public: Name,
        /// Where the operator connects, likewise.
        operator: Name,
        /// How many connections of each side are served at once: 1 to 64.
        workers: u32,
        /// How often the next edge is waited for: 0 to 1,000.
        turns: u32,
    },
    /// Takes the edits of standard input.
    Import {
        /// Where the store is.
        store: Name,
        /// By which the import is known.
        id: ImportId,
        /// How its body is written.
        form: Form,
    },
    /// Prints a document.
    Show {
        /// Where the store is.
        store: Name,
        /// Whose document it is. Any text: it need not name a resource.
        resource: Name,
    },
    /// Makes a book in memory, and follows every edge of it.
    Drill {
        /// With which the book's edits are drawn.
        number: u32,
        /// How many batches the book has: 1 to 1,000.
        batches: u32,
    },
    /// Moves the base of a store's book on.
    Trim {
        /// Where the store is.
        store: Name,
        /// How many batches stay beside the base: 0 to 4,096.
        keep: u32,
    },
    /// Prints a help text.
    Help(Topic),
    /// Prints the version.
    Version,
}

/// What a help text is about.
#[derive(Clone, Copy, Debug, PartialEq, Eq)]
pub enum Topic {
    /// The program and all its commands.
    Program,
    /// One command.
    Command(CommandName),
}

/// Why words give no task.
#[derive(Clone, Copy, Debug, PartialEq, Eq)]
pub enum WordsFault {
    /// The words are outside the grammar.
    Outside,
    /// Out of memory.
    Memory,
}

impl From<AllocError> for WordsFault {
    ghost use Rattle.std.specs.Prelude.{◌≡◌};
    ghost use Rattle.alto_words.specs.declared.task.WordsFault.TheVariants.{Memory};

    ghost from_gives = { λ _ fault. fault ≡ Memory };

    fn from(_: AllocError) -> WordsFault {
        WordsFault::Memory
    }
}
