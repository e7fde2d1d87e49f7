ghost use Rattle.std.specs.Prelude.{◌≡◌, ◌∷◌, ℕ, List, [], length, map, take};
ghost use Rattle.base_code.specs.Bases.{BaseData, IsBase};
ghost use Rattle.base_code.specs.Examples.{base_behind_i1, first_of_i1, receipts_of_i1, rows_of_i1};
ghost use Rattle.base_code.specs.Faults.{AreInPlace, BeginningData, IsBadPiece, IsBaseFault, IsBeginning, IsFirstOf};
ghost use Rattle.base_code.specs.Faults.{beginning_pieces};
ghost use Rattle.base_code.specs.Pieces.{base_pieces};
ghost use Rattle.base_code.specs.declared.fault.BaseFault.{BaseFault as TheFault};
ghost use Rattle.base_code.specs.declared.fault.BaseFault.TheVariants.{Memory};

/// Bases that can be stored and have the same pieces are one base.
pub fn bases_with_one_spelling_are_one()
    ensures { (one other : BaseData) → IsBase one → IsBase other → base_pieces one ≡ base_pieces other
        → one ≡ other }
{}

/// What was written of a base is read again: of these pieces `decode_base` gives that base, or it is out of memory.
pub fn a_written_base_is_read_again()
    ensures read { (base read : BaseData) → IsBase base → IsBase read × (base_pieces base ≡ base_pieces read)
        → read ≡ base }
    ensures fault { (base : BaseData) (fault : TheFault) → IsBase base → IsBaseFault (base_pieces base) fault
        → fault ≡ Memory }
{}

/// The first pieces of a base, however many, are in their places, and so are the first of any that are.
pub fn first_pieces_are_in_their_places()
    ensures bases { (base : BaseData) (n : ℕ) → IsBase base → AreInPlace (take n (base_pieces base)) }
    ensures fronts { (pieces : List (List ℕ)) (n : ℕ) → AreInPlace pieces → AreInPlace (take n pieces) }
{}

/// Pieces in their places are the first pieces of each base that goes on from what they hold.
pub fn pieces_in_their_places_begin_bases()
    ensures { (begun : BeginningData) (base : BaseData) → IsBeginning begun → IsBase base → IsFirstOf begun base
        → take (length (beginning_pieces begun)) (base_pieces base) ≡ beginning_pieces begun }
{}

/// Pieces have one fault. A first piece of another version is one.
pub fn one_piece_is_bad()
    ensures one { (pieces : List (List ℕ)) (one other : ℕ) → IsBadPiece pieces one → IsBadPiece pieces other
        → one ≡ other }
    ensures version { IsBadPiece ((0x43 ∷ 0x02 ∷ []) ∷ []) 0 }
{}

/// The base behind the import i1 has three pieces.
pub fn base_of_i1()
    ensures pieces { (digest : List ℕ) → base_pieces (base_behind_i1 digest)
        ≡ first_of_i1 ∷ receipts_of_i1 digest ∷ rows_of_i1 ∷ [] }
    ensures sizes { (digest : List ℕ) → length digest ≡ 32
        → map length (base_pieces (base_behind_i1 digest)) ≡ 14 ∷ 47 ∷ 46 ∷ [] }
{}
