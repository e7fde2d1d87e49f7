//! Imports that are accepted, known or refused.

ghost use Rattle.std.specs.Prelude.{◌≡◌, [], ◌∷◌, Ok, Err, codes};
ghost use Rattle.alto_book.specs.Acceptance.{accept};
ghost use Rattle.alto_book.specs.declared.fault.EditFault.TheVariants.{OtherBody, Broken};
ghost use Rattle.alto_edits.specs.declared.edit.Edit.TheVariants.{NetAdd, PidAdd};
ghost use Rattle.alto_edits.specs.declared.rule.Rule.TheVariants.{G4};
ghost use Rattle.edit_forms.specs.Csv.{CsvReads};
ghost use Rattle.edit_forms.specs.Json.{ValueReads};
ghost use Rattle.edit_forms.specs.declared.fault.FormFault.TheVariants.{BadColumn, Empty};
ghost use Rattle.worked_examples.specs.Requests.{edits_member, texts};
ghost use Rattle.worked_examples.specs.Story.{metro_book, first_import, import};

/// A record of CSV is an edit. So is an item of the list in a JSON body: here of the value that the body is read as.
pub fn records_and_items_are_edits()
    ensures csv { CsvReads (codes "net-add,metro,,,,\n") (Ok (NetAdd (codes "metro") ∷ [])) }
    ensures json { ValueReads (Ok (edits_member
        (texts (codes "net-add" ∷ codes "metro" ∷ [])
        ∷ texts (codes "pid-add" ∷ codes "metro" ∷ codes "east" ∷ []) ∷ [])))
        (Ok (NetAdd (codes "metro") ∷ PidAdd (codes "metro") (codes "east") ∷ [])) }
{}

/// The first column at fault is told, with the row.
pub fn a_bad_name_tells_row_and_column()
    ensures csv { CsvReads (codes "net-add,metro,,,,\npid-add,metro,ea.st,,,\n") (Err (BadColumn 2 3)) }
    ensures nothing { CsvReads [] (Err Empty) }
{}

/// An import that comes again is told its receipt; with another body it is told the batch of its id. Neither changes
/// the book.
pub fn a_known_import_is_told_again()
    ensures same_body { accept (metro_book 8) first_import 200
        ≡ record { answer = Ok (record { n = 1; moment = 100 }); book = metro_book 8 } }
    ensures other_body { accept (metro_book 8) (import (codes "i1") (codes "another digest") []) 200
        ≡ record { answer = Err (OtherBody 1); book = metro_book 8 } }
{}

/// The third edit declares a PID that is there: the import is refused whole.
pub fn a_refused_import_names_row_and_rule()
    ensures { accept (metro_book 8) (import (codes "i5") (codes "digest 5")
        (PidAdd (codes "metro") (codes "north") ∷ PidAdd (codes "metro") (codes "rest")
        ∷ PidAdd (codes "metro") (codes "east") ∷ [])) 100
        ≡ record { answer = Err (Broken 3 G4); book = metro_book 8 } }
{}
