//! What holds of every text, value and pointer. Each law is the contract of a function that does nothing.

ghost use Rattle.json_tree.specs.Laws.{PointersAreUnambiguous, TextsReadBack, ValuesAreRead};

/// The text of what a tree holds reads as that value, where it nests at most 127 deep.
pub fn texts_read_back()
    ensures { TextsReadBack }
{}

/// The value of a text in UTF-8 is the one that serde_json reads.
pub fn values_are_read()
    ensures { ValuesAreRead }
{}

/// A text is the pointer along one list of names at most (RFC 6901). So what is printed reads back as the same names.
pub fn pointers_are_unambiguous()
    ensures { PointersAreUnambiguous }
{}
