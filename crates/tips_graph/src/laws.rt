//! What holds of every updates graph, whatever was pushed. Each law is the contract of a function that does nothing.

ghost use Rattle.tips_graph.specs.Laws.{OnePushMore, RowsAreThoseOfThePush, SpanIsOfThePushes, EachEdgeHasOneStatus};
ghost use Rattle.tips_graph.specs.Laws.{KeptStepsAreHere, KeptShapesAreHere, RecommendedIsHereOrAwaited};
ghost use Rattle.tips_graph.specs.Laws.{RecommendedIsLongest};

/// One push more on the graph of pushes is the graph of one push more.
pub fn a_push_goes_on()
    ensures { OnePushMore }
{}

/// The rows at a kept number are those of its push.
pub fn rows_are_those_of_the_push()
    ensures { RowsAreThoseOfThePush }
{}

/// The keys of an edge that can be had are those of the pushes between, of all that there were.
pub fn span_is_of_the_pushes()
    ensures { SpanIsOfThePushes }
{}

/// Each edge of a graph has exactly one status, that of the table.
pub fn each_edge_has_one_status()
    ensures { EachEdgeHasOneStatus }
{}

/// From each kept number below the last the step onward can be had.
pub fn kept_steps_are_here()
    ensures { KeptStepsAreHere }
{}

/// Each edge between kept numbers that a graph may have can be had.
pub fn kept_shapes_are_here()
    ensures { KeptShapesAreHere }
{}

/// A recommended edge can be had, or comes next.
pub fn recommended_is_here_or_awaited()
    ensures { RecommendedIsHereOrAwaited }
{}

/// From a kept number below the last no edge that can be had leads further than the recommended one.
pub fn recommended_is_longest()
    ensures { RecommendedIsLongest }
{}
