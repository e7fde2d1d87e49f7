ghost use Rattle.std.specs.Prelude.{◌≡◌, ◌∷◌, ℕ, List, [], codes};
ghost use Rattle.alto_rows.specs.Accepted.{Accepted};
ghost use Rattle.batch_code.specs.Examples.{bytes_of_i1, import_i1};
ghost use Rattle.batch_code.specs.Faults.{IsBatch, IsFaultOf, IsRowZero};
ghost use Rattle.batch_code.specs.Grammar.{BatchTexts, HeadTexts};
ghost use Rattle.batch_code.specs.Spelling.{batch_bytes, head_bytes};
ghost use Rattle.batch_code.specs.Storable.{IsHead, IsStorable};
ghost use Rattle.batch_code.specs.declared.fault.CodeFault.{CodeFault as TheFault};
ghost use Rattle.batch_code.specs.declared.fault.CodeFault.TheVariants.{Memory};

/// What is written of a batch, and of the row before the batches, is in the grammar.
pub fn spellings_are_in_the_grammar()
    ensures batches { (text : List ℕ) → IsBatch text → BatchTexts text }
    ensures heads { (text : List ℕ) → IsRowZero text → HeadTexts text }
{}

/// The grammar has no other text, so where bytes leave it they leave the spellings.
pub fn the_grammar_has_no_text_but_spellings()
    ensures batches { (text : List ℕ) → BatchTexts text → IsBatch text }
    ensures heads { (text : List ℕ) → HeadTexts text → IsRowZero text }
{}

/// Batches that can be stored and have one spelling are one batch.
pub fn batches_with_one_spelling_are_one()
    ensures { (one other : Accepted) → IsStorable one → IsStorable other
        → batch_bytes one ≡ batch_bytes other → one ≡ other }
{}

/// The row before the batches spells one epoch and one window.
pub fn heads_with_one_spelling_are_one()
    ensures { (one other : List ℕ) (least most : ℕ) → IsHead one least → IsHead other most
        → head_bytes one least ≡ head_bytes other most → (one ≡ other) × (least ≡ most) }
{}

/// What was written of a batch is read again: of these bytes `decode` gives that batch, or it is out of memory.
pub fn a_written_batch_is_read_again()
    ensures read { (batch read : Accepted) → IsStorable batch
        → IsStorable read × (batch_bytes batch ≡ batch_bytes read) → read ≡ batch }
    ensures fault { (batch : Accepted) (fault : TheFault) → IsStorable batch
        → IsFaultOf IsBatch (batch_bytes batch) fault → fault ≡ Memory }
{}

/// The same for the row before the batches and `decode_head`.
pub fn a_written_head_is_read_again()
    ensures read { (epoch read : List ℕ) (window width : ℕ) → IsHead epoch window
        → IsHead read width × (head_bytes epoch window ≡ head_bytes read width) → (read ≡ epoch) × (width ≡ window) }
    ensures fault { (epoch : List ℕ) (window : ℕ) (fault : TheFault) → IsHead epoch window
        → IsFaultOf IsRowZero (head_bytes epoch window) fault → fault ≡ Memory }
{}

/// The epoch e1 and the window 8 are hex `410102653100000008`.
pub fn row_zero_of_e1()
    ensures { head_bytes (codes "e1") 8
        ≡ 0x41 ∷ 0x01 ∷ 0x02 ∷ 0x65 ∷ 0x31 ∷ 0x00 ∷ 0x00 ∷ 0x00 ∷ 0x08 ∷ [] }
{}

/// The batch of the import i1, which adds the network metro at 100, byte by byte.
pub fn row_of_i1()
    ensures { (digest : List ℕ) → batch_bytes (import_i1 digest) ≡ bytes_of_i1 digest }
{}
