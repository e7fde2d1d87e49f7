//! What holds of the pieces of every map. Each law is the contract of a function that does nothing.

ghost use Rattle.doc_pieces.specs.Laws.{PiecesMakeTheDocument, UntouchedPiecesStay};

/// The pieces of a map, one behind another and a comma between each two groups, are the text of its document.
pub fn pieces_make_the_document()
    ensures { PiecesMakeTheDocument }
{}

/// Where nothing of a map is touched, its pieces stay.
pub fn untouched_pieces_stay()
    ensures { UntouchedPiecesStay }
{}
