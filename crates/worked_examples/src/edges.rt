//! Edges of updates graphs.

ghost use Rattle.std.specs.Prelude.{◌++◌, codes};
ghost use Rattle.alto_answers.specs.declared.outcome.Answer.TheVariants.{Hold};
ghost use Rattle.alto_rows.specs.declared.resource.Resource.TheVariants.{Net};
ghost use Rattle.worked_examples.specs.Requests.{ReadsEdge, network_map, merge_patch, refusal};
ghost use Rattle.worked_examples.specs.Story.{metro_book};

/// A step names what the import of its number changed, and the new tag. A longer edge names what several imports did.
pub fn an_edge_adds_its_groups()
    ensures step { ReadsEdge (codes "/tips/metro/ug/1/2") (metro_book 8)
        (merge_patch (codes "{\"meta\":{\"vtag\":{\"tag\":\"e1-2\"}},\"network-map\":{\"east\":{}}}")) }
    ensures longer { ReadsEdge (codes "/tips/metro/ug/2/4") (metro_book 8)
        (merge_patch (codes "{\"meta\":{\"vtag\":{\"tag\":\"e1-4\"}},\"network-map\":{\"south\":{},\"west\":{}}}")) }
{}

/// The edge from 0 to a number is the map as it was then.
pub fn a_snapshot_is_of_its_own_number()
    ensures { ReadsEdge (codes "/tips/metro/ug/0/2") (metro_book 8)
        (network_map
        (codes "{\"meta\":{\"vtag\":{\"resource-id\":\"metro\",\"tag\":\"e1-2\"}},\"network-map\":{\"east\":{}}}")) }
{}

/// Past the last number, the next step is held, and other edges are told the last number.
pub fn what_lies_ahead_is_awaited_or_too_early()
    ensures next_step { ReadsEdge (codes "/tips/metro/ug/4/5") (metro_book 8) (Hold (Net (codes "metro")) 4 5) }
    ensures snapshot { ReadsEdge (codes "/tips/metro/ug/0/5") (metro_book 8)
        (refusal 425 (codes "{\"end-seq\":4,\"status\":425}")) }
    ensures step { ReadsEdge (codes "/tips/metro/ug/5/6") (metro_book 8)
        (refusal 425 (codes "{\"end-seq\":4,\"status\":425}")) }
    ensures longer { ReadsEdge (codes "/tips/metro/ug/4/6") (metro_book 8)
        (refusal 425 (codes "{\"end-seq\":4,\"status\":425}")) }
{}

/// Two numbers between which no edge leads: one by 2 begins at an even number.
pub fn what_is_no_edge_is_not_found()
    ensures odd { ReadsEdge (codes "/tips/metro/ug/1/3") (metro_book 8)
        (refusal 404 (codes "{\"status\":404,\"why\":\"edge\"}")) }
    ensures no_step { ReadsEdge (codes "/tips/metro/ug/7/7") (metro_book 8)
        (refusal 404 (codes "{\"status\":404,\"why\":\"edge\"}")) }
    ensures nothing { ReadsEdge (codes "/tips/metro/ug/0/0") (metro_book 8)
        (refusal 404 (codes "{\"status\":404,\"why\":\"edge\"}")) }
{}

/// Where 3 and 4 are kept, an edge that touches an earlier number is gone, and those of the kept numbers are there.
pub fn an_edge_below_the_window_is_gone()
    ensures step { ReadsEdge (codes "/tips/metro/ug/2/3") (metro_book 2)
        (refusal 410 (codes "{\"start-seq\":3,\"status\":410}")) }
    ensures snapshot { ReadsEdge (codes "/tips/metro/ug/0/1") (metro_book 2)
        (refusal 410 (codes "{\"start-seq\":3,\"status\":410}")) }
    ensures kept_step { ReadsEdge (codes "/tips/metro/ug/3/4") (metro_book 2)
        (merge_patch (codes "{\"meta\":{\"vtag\":{\"tag\":\"e1-4\"}},\"network-map\":{\"south\":{}}}")) }
    ensures kept_snapshot { ReadsEdge (codes "/tips/metro/ug/0/3") (metro_book 2)
        (network_map
        (codes "{\"meta\":{\"vtag\":{\"resource-id\":\"metro\",\"tag\":\"e1-3\"}},"
        ++ codes "\"network-map\":{\"east\":{},\"west\":{}}}")) }
{}
