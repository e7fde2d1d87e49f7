ghost use Rattle.std.specs.Prelude.{◌≡◌, ◌≢◌, Bool, Err, IfOk, OnOk, OnErr, All};
ghost use Rattle.alto_edits.specs.Edits.{IsEdit};
ghost use Rattle.alto_book.specs.Book.{Book, number_of};
ghost use Rattle.alto_book.specs.Legal.{IsLegal};
ghost use Rattle.alto_versions.specs.Front.{StandsFor};
ghost use Rattle.alto_answers.specs.Answers.{AnswersTo, BringsEdits, HasBytes};
ghost use Rattle.alto_answers.specs.Graphs.{IsVersion};
ghost use Rattle.alto_serve.specs.Events.{Emits, IsLook, IsSubmitted, Known, OneLook, OneWait, PrefixOf, Submits};

use alto_answers::{Answer, Client, answer};
use alto_desk::{Command, EditFault, Front, Receipt};
use alto_http::Request;
use alto_rows::RowStore;
use std::alloc::{AllocError, Global};

/// What a request comes to at a look, and the number of the book that was looked at.
#[derive(Drop)]
pub struct Look {
    /// What the request comes to.
    pub answer: Answer,
    /// How many batches the book has.
    pub number: u64,
}

impl Look {
    /// What a client's request comes to at a version.
    pub fn at<R: RowStore>(
        front: &Front<R>,
        alloc: Global,
        client: &Client,
        request: &Request,
    ) -> Result<Look, AllocError>
        requires { IsVersion front.now }
        ensures answer { IfOk result (λ look. (book : Book) → IsLegal book → StandsFor front.now book
            → AnswersTo request.now book client.now look.answer) }
        ensures number { IfOk result (λ look. (book : Book) → StandsFor front.now book
            → look.number ≡ number_of book) }
        ensures edits { IfOk result (λ look. BringsEdits look.answer) }
        ensures replies { IfOk result (λ look. HasBytes look.answer) }
    {
        let answer = answer(alloc, client, request, front)?;
        Ok(Look {
            answer,
            number: front.n,
        })
    }
}

/// What a connection looks at: versions, each of a legal book that extends those seen before.
pub trait Looks {
    /// Whether nobody else has imports accepted into the book.
    ghost alone: { Bool };

    /// What is known of it: the book that was seen last, and its counters.
    ghost known: { Self → Known };

    /// What it keeps of its records stands for the book that was seen last. No call ends this.
    ghost is_backed: { Self → Type 0 };

    /// Nothing has put in doubt what it keeps of its records. What did so lasts. Unless an office says more, nothing
    /// does.
    ghost is_clean: { Self → Type 0 } = { λ _. Unit {0} };

    /// Looks: gives what a client's request comes to at the version of a book that is seen from then on. Out of memory,
    /// it has looked or not.
    fn look(
        &mut self,
        alloc: Global,
        client: &Client,
        request: &Request,
    ) -> Result<Look, AllocError>
        ensures answer { IfOk result (λ look. AnswersTo request.now (known self.new).seen client.now look.answer) }
        ensures number { IfOk result (λ look. look.number ≡ number_of (known self.new).seen) }
        ensures edits { IfOk result (λ look. BringsEdits look.answer) }
        ensures replies { IfOk result (λ look. HasBytes look.answer) }
        ensures looks { OnOk result (Emits alone (OneLook (known self.new).seen) (known self.old) (known self.new)) }
        ensures lost { OnErr result
            (Emits alone (PrefixOf (OneLook (known self.new).seen)) (known self.old) (known self.new)) }
        ensures backed { is_backed self.old → is_backed self.new }
        ensures clean { is_clean self.new → is_clean self.old };
}

/// What a connection is served through: it looks at versions, has imports accepted, and waits for the next version.
pub trait Office: Looks {
    /// Has an import accepted or refused, at a book that extends the one seen before. `Keeper` comes only where a
    /// fault of the records was counted in the call. Out of memory, the import is accepted whole or not at all, and a
    /// book that nobody else changes stays.
    fn edit(&mut self, alloc: Global, command: Command, moment: u64) -> Result<Receipt, EditFault>
        requires { All IsEdit command.edits }
        ensures answered { result ≢ Err EditFault.Memory
            → Emits Self.alone (Submits command moment result) (Self.known self.old) (Self.known self.new) }
        ensures lost { result ≡ Err EditFault.Memory
            → Emits Self.alone (PrefixOf (IsSubmitted command moment)) (Self.known self.old) (Self.known self.new) }
        ensures stays { result ≡ Err EditFault.Memory
            → IsLook Self.alone (Self.known self.old).seen (Self.known self.new).seen }
        ensures backed { Self.is_backed self.old → Self.is_backed self.new }
        ensures clean { Self.is_clean self.new → Self.is_clean self.old };

    /// Waits until there may be more batches than this number. It may end at any time.
    fn wait(&mut self, known: u64)
        ensures waited { Emits Self.alone (OneWait known) (Self.known self.old) (Self.known self.new) }
        ensures backed { Self.is_backed self.old → Self.is_backed self.new }
        ensures clean { Self.is_clean self.new → Self.is_clean self.old };
}
