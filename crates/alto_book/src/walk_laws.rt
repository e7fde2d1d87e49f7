//! What holds of edges that were answered, and of walks along them. Each law is the contract of a function that does
//! nothing.

ghost use Rattle.alto_book.specs.WalkLaws.{EarlierBooksAreLegal, BodiesStay, WalksLeadOn};

/// Each book that a legal book extends is legal.
pub fn earlier_books_are_legal()
    ensures { EarlierBooksAreLegal }
{}

/// What an edge was answered with stays what it holds, whatever is accepted later.
pub fn bodies_stay()
    ensures { BodiesStay }
{}

/// Whoever holds the document at a walk's beginning, and applies the answers in turn, holds exactly the document at its
/// end, whatever was accepted between the answers. A walk from 0 begins with nothing.
pub fn walks_lead_on()
    ensures { WalksLeadOn }
{}
