//! Maps, read by name.

ghost use Rattle.std.specs.Prelude.{◌++◌, codes};
ghost use Rattle.worked_examples.specs.Requests.{ReadsMap, network_map, refusal};
ghost use Rattle.worked_examples.specs.Story.{metro_book};

/// The map of a declared network has its PIDs, and the tag of the last number.
pub fn a_map_is_of_a_declared_network()
    ensures declared { ReadsMap (codes "/maps/metro") (metro_book 8)
        (network_map
        (codes "{\"meta\":{\"vtag\":{\"resource-id\":\"metro\",\"tag\":\"e1-4\"}},"
        ++ codes "\"network-map\":{\"east\":{},\"south\":{},\"west\":{}}}")) }
    ensures unknown { ReadsMap (codes "/maps/other") (metro_book 8)
        (refusal 404 (codes "{\"status\":404,\"why\":\"resource\"}")) }
{}
