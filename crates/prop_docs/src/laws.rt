//! What holds of every property map. Each law is the contract of a function that does nothing.

ghost use Rattle.prop_docs.specs.Laws.{OtherKeysTouchNowhere, PropMapsDifferAtPlaces};

/// Property maps of good rows that differ by keys differ at the places of these keys alone, so that what leads from map
/// to map may speak of these places alone.
pub fn prop_maps_differ_at_places()
    ensures same { PropMapsDifferAtPlaces }
    ensures nowhere { OtherKeysTouchNowhere }
{}
