//! The history of a hub, and marks that a beginning of it was reached.
ghost use Rattle.std.specs.Prelude.{◌≡◌, ◌++◌, ◌∷◌, [], None, IsTrue};
ghost use Rattle.alto_hub.specs.History.{Reached};
ghost use Rattle.alto_hub.specs.Rules.{head_of};

use crate::submission::Submission;
use logbook::{Gain, Offer, Plain, Play, Rule, Seen, Start, Word};
use std::marker::{Brand, Model};
use std::sync::Wait;

/// The rule of a history.
pub struct Law;

impl Rule<Submission, u64> for Law {
    ghost use Rattle.std.specs.Prelude.{[]};
    ghost use base.Fml.{ftrue};
    ghost use Rattle.alto_hub.specs.Rules.{IsKept};

    ghost holds = { λ cells log. IsKept cells log };

    ghost first = { [] };

    ghost hinted = { λ n log. Unit {0} };

    ghost shows = { λ log. [] };

    ghost keeps = { λ names log. ftrue };

    ghost moves = { λ ask before after answer. Unit {0} };
}

/// What a caller keeps beside a history: nothing.
pub struct Nothing;

impl Gain<Submission, u64> for Nothing {
    ghost use base.Fml.{ftrue};

    ghost after = { λ names about answer. ftrue };
}

/// A step that adds an import.
pub struct Add;

impl Play<Submission, u64> for Add {
    ghost use Rattle.alto_hub.specs.Rules.{Adds};

    ghost then = { Adds };
}

impl Plain<Submission, Submission, u64> for Add {
    ghost use Rattle.std.specs.Prelude.{None};

    ghost ask = { λ submission. submission };

    ghost state = { λ _. None };
}

/// The first word of a history, which grows with it.
pub type Head = Word<Submission, u64, Law>;

/// An import that may be added to a history.
pub type Ask = Offer<Submission, u64, Law, Nothing>;

/// Which history a hub has, and what it was opened over. A caller picks all four.
pub trait Naming {
    ghost use Rattle.logbook.specs.Pages.{Book as Name};
    ghost use Rattle.alto_book.specs.Book.{Book};

    /// The name of the history.
    ghost name: { Name };

    /// The book before its first import.
    ghost opening: { Book };

    /// That nothing had put the records in doubt then.
    ghost was_clean: { Type 0 };

    /// What has to hold for the records to have stood for that book.
    ghost backed: { Type 0 };
}

impl Naming for Brand {
    ghost use Rattle.std.specs.Prelude.{[]};
    ghost use Rattle.alto_book.specs.Book.{opening_book};

    ghost name = { record { number = 0; log_name = 0; cells_name = 0 } };

    ghost opening = { opening_book [] 0 };

    ghost was_clean = { Unit {0} };

    ghost backed = { ⊥ };
}

/// A history with no imports, for a hub that is opened. Contracts see its name.
#[derive(Drop)]
pub struct NewHistory {
    head: Head,
    mark: Mark,
}

impl Model for NewHistory {
    ghost use Rattle.std.specs.Prelude.{◌≡◌, []};
    ghost use Rattle.logbook.specs.Pages.{Book as Name};
    ghost use Rattle.alto_hub.specs.Rules.{head_of};

    ghost Value = { Name };

    ghost view = { λ history. history.mark.name };

    ghost invariant = { λ history. (history.head ≡ head_of history.mark.name) × (history.mark.log ≡ []) };
}

impl NewHistory {
    /// Begins a history. It takes no memory.
    pub fn new() -> NewHistory {
        let (seen, mut first, _second) = Seen::open(Start::alone(), 0, 0);
        NewHistory {
            head: Word::tracked(0, &mut first),
            mark: Mark { number: 0, seen },
        }
    }

    /// The word that grows with it, and the mark that nothing was added yet.
    pub(crate) fn into_parts(self) -> (Head, Mark)
        ensures head { result.0 ≡ head_of self }
        ensures mark { result.1 ≡ record { name = self; log = [] } }
    {
        let NewHistory { head, mark } = self;
        (head, mark)
    }
}

/// A mark that a history was reached as far as its first imports. At run time it is their number, and nothing else.
#[derive(Drop)]
pub struct Mark {
    number: u64,
    seen: Seen<Submission, u64, Law>,
}

impl Model for Mark {
    ghost use Rattle.std.specs.Prelude.{◌≡◌, length, []};
    ghost use Rattle.alto_hub.specs.History.{Reached};

    ghost Value = { Reached };

    ghost view = { λ mark. record { name = mark.seen.book; log = mark.seen.log } };

    ghost invariant = { λ mark. (mark.number ≡ length mark.seen.log) × (mark.seen.names ≡ []) };
}

/// Waits for good.
pub(crate) fn stop<R: Wait>(rt: &R)
    ensures { ⊥ }
{
    for _ in rt.forever() {}
    unreachable!()
}

impl Mark {
    /// A copy.
    pub fn again(&self) -> Mark
        ensures { result ≡ self.now }
    {
        Mark {
            number: self.number,
            seen: self.seen.again(),
        }
    }

    /// Whether both marks are one. Marks of one history with one number are.
    pub fn is(&self, other: &Mark) -> bool
        requires { self.now.name ≡ other.now.name }
        ensures { IsTrue result → self.now ≡ other.now }
    {
        let mut both = self.seen.again();
        both.learn(&other.seen);
        self.number == other.number
    }

    /// What adding this import asks of the history.
    pub fn ask(&self, submission: &Submission) -> Ask
        ensures import { result.ask ≡ submission.now }
        ensures free { (result.names ≡ []) × (result.state ≡ None) }
    {
        self.seen.plain::<Nothing, Submission, Add>(submission)
    }

    /// Adds an import to a history that has no more than this mark. Where it has, or has 2^64 - 1 imports, it waits for
    /// good.
    pub fn add<R: Wait>(&mut self, rt: &R, head: &Head, ask: Ask)
        requires head { head.now ≡ head_of self.old.name }
        requires free { (ask.names ≡ []) × (ask.state ≡ None) }
        ensures { self.new ≡ record { name = self.old.name; log = self.old.log ++ ask.ask ∷ [] } }
    {
        let number = self.number;
        if number == u64::MAX {
            stop(rt);
        }
        let mut seen = self.seen.again();
        let mut ask = ask;
        let mut pen = seen.no_pen();
        let found = head.compare_exchange::<Add, Nothing>(
            number,
            number + 1,
            &mut seen,
            &mut ask,
            &mut pen,
        );
        if found != number {
            stop(rt);
        }
        *self = Mark {
            number: number + 1,
            seen,
        };
    }
}
