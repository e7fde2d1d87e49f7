//! What holds of every network map. Each law is the contract of a function that does nothing.

ghost use Rattle.net_docs.specs.Laws.{MapIsOfItsKeys, MapsDifferAtPlaces, OtherKeysTouchNowhere};

/// A network map is read from the epoch and from the keys that touch it, and from nothing else.
pub fn map_is_of_its_keys()
    ensures { MapIsOfItsKeys }
{}

/// Network maps of good rows that differ by keys differ at the places of these keys alone, so that what leads from map
/// to map may speak of these places alone.
pub fn maps_differ_at_places()
    ensures same { MapsDifferAtPlaces }
    ensures nowhere { OtherKeysTouchNowhere }
{}
