//! What holds of every form. Each law is the contract of a function that does nothing.

ghost use Rattle.alto_maps.specs.Laws.{MergeLeadsOn, OperationsLeadOn, OnlyTouchingPlacesCount, UntouchedIsEmpty};

/// A merge form leads from the map before to the map after, whatever the places between them are.
pub fn merge_leads_on()
    ensures { MergeLeadsOn }
{}

/// Operations lead from the map before to the map after: each finds its target, whatever the places between them are.
pub fn operations_lead_on()
    ensures { OperationsLeadOn }
{}

/// Places that touch nothing don't count in either form.
pub fn only_touching_places_count()
    ensures { OnlyTouchingPlacesCount }
{}

/// Where nothing is touched, both forms are empty.
pub fn untouched_is_empty()
    ensures { UntouchedIsEmpty }
{}
