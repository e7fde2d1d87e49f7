//! What holds of the edges of a book whose base moves on. The law is the contract of a function that does nothing.

ghost use Rattle.alto_book.specs.TrimLaws.{TrimKeepsBodies};

/// An edge that can still be had holds what it did.
pub fn trim_keeps_bodies()
    ensures { TrimKeepsBodies }
{}
