//! What holds of every book, whatever imports come. Each law is the contract of a function that does nothing.

ghost use Rattle.alto_book.specs.Laws.{OpeningIsLegal, AcceptanceKeepsLegal, AcceptanceExtends, BookExtendsItself};
ghost use Rattle.alto_book.specs.Laws.{ExtendingGoesOn, RefusalChangesNothing, KnownIdChangesNothing};
ghost use Rattle.alto_book.specs.Laws.{RefusalIsOfTheImport, ReceiptIsKept, LegalRowsAreGood, LegalStatesAreGood};
ghost use Rattle.alto_book.specs.Laws.{LegalRowsAreWithin, LegalWritesFit, VersionsStaySmall, TrimKeepsLegal};
ghost use Rattle.alto_book.specs.Laws.{TrimChangesNothing};

/// A new book is legal.
pub fn opening_is_legal()
    ensures { OpeningIsLegal }
{}

/// A legal book stays legal, whatever import comes.
pub fn acceptance_keeps_legal()
    ensures { AcceptanceKeepsLegal }
{}

/// No import changes or drops a batch that was accepted, so any number of them extend a book.
pub fn acceptance_extends()
    ensures one_import { AcceptanceExtends }
    ensures no_import { BookExtendsItself }
    ensures more_imports { ExtendingGoesOn }
{}

/// An import that is refused, or whose id is known, changes nothing. It is refused for its own fault alone.
pub fn acceptance_is_refused_whole()
    ensures refused { RefusalChangesNothing }
    ensures known { KnownIdChangesNothing }
    ensures cause { RefusalIsOfTheImport }
{}

/// An import that was accepted may be sent again at any time: it is told its receipt, and is not accepted twice.
pub fn receipt_is_kept()
    ensures { ReceiptIsKept }
{}

/// The rows of a legal book are good, and were after each of its batches. They are within the limits.
pub fn legal_rows_are_good()
    ensures now { LegalRowsAreGood }
    ensures each { LegalStatesAreGood }
    ensures within { LegalRowsAreWithin }
{}

/// Each write of a batch of a legal book has a key that a batch may write, and puts only a value that fits it. None
/// deletes a version.
pub fn legal_writes_fit()
    ensures { LegalWritesFit }
{}

/// No version is above the number of batches.
pub fn versions_stay_small()
    ensures { VersionsStaySmall }
{}

/// A legal book whose base moves on stays legal, with the same rows, number and receipts.
pub fn trim_keeps_the_book()
    ensures legal { TrimKeepsLegal }
    ensures same { TrimChangesNothing }
{}
