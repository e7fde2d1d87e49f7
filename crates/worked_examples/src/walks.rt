//! A walk along edges.

ghost use Rattle.std.specs.Prelude.{◌≡◌, ◌++◌, Some, codes};
ghost use Rattle.serde_json.specs.Data.{null};
ghost use Rattle.alto_book.specs.Walks.{followed};
ghost use Rattle.worked_examples.specs.Steps.{held_text, walk};

/// Who begins with nothing, takes the first snapshot, merges a step and applies the operations of a longer edge holds
/// the map of the last number.
pub fn a_walk_leads_to_the_map()
    ensures { held_text (followed null walk)
        ≡ Some (codes "{\"meta\":{\"vtag\":{\"resource-id\":\"metro\",\"tag\":\"e1-4\"}},"
        ++ codes "\"network-map\":{\"east\":{},\"south\":{},\"west\":{}}}") }
{}
