//! What holds of both forms of an edge. Each law is the contract of a function that does nothing.

ghost use Rattle.edge_patch.specs.Laws.{OnlyTouchingKeysCount, UntouchedIsEmpty, StepsLeadOn, OperationsLeadOn};

/// Both forms are those over those of their keys that touch the resource.
pub fn only_touching_keys_count()
    ensures { OnlyTouchingKeysCount }
{}

/// Over keys that don't touch the resource, both forms change nothing.
pub fn untouched_is_empty()
    ensures { UntouchedIsEmpty }
{}

/// Both forms lead from the document before to the document after, whatever the keys between them are: groups and
/// members that came, that went, that changed, and a new tag.
pub fn steps_lead_on()
    ensures merged { StepsLeadOn }
    ensures operated { OperationsLeadOn }
{}
