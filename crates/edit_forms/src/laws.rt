ghost use Rattle.std.specs.Prelude.{◌≡◌, ℕ, List, Result};
ghost use Rattle.alto_edits.specs.declared.edit.Edit.{Edit as TheEdit};
ghost use Rattle.edit_forms.specs.declared.fault.FormFault.{FormFault as TheFault};
ghost use Rattle.edit_forms.specs.declared.form.Form.{Form as TheForm};
ghost use Rattle.edit_forms.specs.Forms.{FormReads};

/// In either form a body reads in one way at most: as one list of edits, or with one fault.
pub fn a_body_reads_in_one_way()
    ensures { (form : TheForm) (body : List ℕ) (one other : Result (List TheEdit) TheFault) → FormReads form body one
        → FormReads form body other → one ≡ other }
{}
