ghost use Rattle.endpoint_costs.specs.Laws.{AsksOnce};

/// The body of a request is read in one way: as one thing that it asks for, or as one fault.
pub fn body_asks_once()
    ensures { AsksOnce }
{}
