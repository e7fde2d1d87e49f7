//! What holds of every cost map. The law is the contract of a function that does nothing.

ghost use Rattle.cost_docs.specs.Laws.{CostMapsDifferAtPlaces, OtherKeysTouchNowhere};

/// Cost maps of good rows that differ by keys differ at the places of these keys alone, so that what leads from map to
/// map may speak of these places alone.
pub fn cost_maps_differ_at_places()
    ensures same { CostMapsDifferAtPlaces }
    ensures nowhere { OtherKeysTouchNowhere }
{}
