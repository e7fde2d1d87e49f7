//! What inheriting means. Each law is the contract of a function that does nothing.

ghost use Rattle.prop_filters.specs.Laws.{InheritsFromLongest};

/// A block inherits from the longest of the blocks that hold it and have the property.
pub fn inheriting_is_from_the_longest_block()
    ensures { InheritsFromLongest }
{}
