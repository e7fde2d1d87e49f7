//! What holds of the bytes of every connection. Each law is the contract of a function that does nothing.
ghost use Rattle.alto_http.specs.Laws.{BeginIsOne, BeginIsNoEnd, EndIsOne, SplitIsOne, HeadIsReadWhole, BeginIsWhole};
ghost use Rattle.alto_http.specs.Laws.{BeginNeedsNoMore, RefusalIsByACheck};

/// What the bytes begin with is one request with one rest, or one end, and never both.
pub fn next_is_one()
    ensures request { BeginIsOne }
    ensures either { BeginIsNoEnd }
    ensures end { EndIsOne }
{}

/// The split of bytes into requests and an ending is unambiguous, however they come.
pub fn split_is_one()
    ensures { SplitIsOne }
{}

/// The shortest prefix that ends in an empty line is the whole head that the grammar reads: nothing is
/// left of it.
pub fn head_is_read_whole()
    ensures { HeadIsReadWhole }
{}

/// A request takes its head and its body from the front, and leaves all that stands behind them.
pub fn request_leaves_the_rest()
    ensures { BeginIsWhole }
{}

/// A request is there whole as soon as its own bytes are, whatever would follow them.
pub fn request_needs_no_more()
    ensures { BeginNeedsNoMore }
{}

/// What is refused, is refused by one of the checks.
pub fn refusal_is_by_a_check()
    ensures { RefusalIsByACheck }
{}
