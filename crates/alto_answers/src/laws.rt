ghost use Rattle.std.specs.Prelude.{◌≡◌};
ghost use Rattle.alto_book.specs.Book.{Book};
ghost use Rattle.alto_http.specs.Request.{RequestData};
ghost use Rattle.alto_answers.specs.declared.outcome.Answer.{Answer as TheAnswer};
ghost use Rattle.alto_answers.specs.declared.client.Client.{Client as TheClient};
ghost use Rattle.alto_answers.specs.Answers.{AnswersTo};

/// A request of a client has one answer at most at a book.
pub fn a_request_has_one_answer()
    ensures { (request : RequestData) (book : Book) (client : TheClient) (one other : TheAnswer)
        → AnswersTo request book client one → AnswersTo request book client other → one ≡ other }
{}
