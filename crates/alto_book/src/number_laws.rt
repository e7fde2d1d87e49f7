//! What holds of the numbers that batches give resources. Each law is the contract of a function that does nothing.

ghost use Rattle.alto_book.specs.NumberLaws.{EachNumberIsGivenOnce, NoNumberTwice, GivenNumberIsNext};
ghost use Rattle.alto_book.specs.NumberLaws.{TouchedResourcesGetNumbers, PushesAreNumbered, PushIsOfItsBatch};
ghost use Rattle.alto_book.specs.NumberLaws.{PushIsOfItsStep, KeysAreThoseOfThePushes, RowsAtStay, KeysBetweenStay};
ghost use Rattle.alto_book.specs.NumberLaws.{FirstKeptNeverFalls, UntouchedMapStays, LastNumberIsNow};
ghost use Rattle.alto_book.specs.NumberLaws.{NumbersDifferByKeys, GraphTellsNumbers, TrimKeepsNumbers};

/// Each number above that of the base, up to a resource's version, was given by exactly one batch.
pub fn each_number_is_given_once()
    ensures { EachNumberIsGivenOnce }
{}

/// A later batch gives a resource a higher number, so none is given twice, also where the resource is withdrawn and
/// declared again. A batch gives one number at most: the next.
pub fn no_number_twice()
    ensures later { NoNumberTwice }
    ensures next { GivenNumberIsNext }
{}

/// What touches a resource that is declared afterwards gives it a number.
pub fn touched_resources_get_numbers()
    ensures { TouchedResourcesGetNumbers }
{}

/// The updates graph of a resource has a push for each of its numbers: the rows at it, and the keys since the last.
/// Between two numbers from its last declaration on, the keys are those of the pushes between.
pub fn pushes_are_the_numbers()
    ensures numbered { PushesAreNumbered }
    ensures batch { PushIsOfItsBatch }
    ensures step { PushIsOfItsStep }
    ensures keys { KeysAreThoseOfThePushes }
{}

/// Whatever is accepted later, the rows at a number and the keys between two stay, and the first kept number never
/// falls.
pub fn numbers_stay()
    ensures rows { RowsAtStay }
    ensures keys { KeysBetweenStay }
    ensures first_kept { FirstKeptNeverFalls }
{}

/// A batch that doesn't touch a network map leaves it, so the map at its last number is the map now.
pub fn untouched_maps_stay()
    ensures batch { UntouchedMapStays }
    ensures now { LastNumberIsNow }
{}

/// The rows at two numbers of a resource differ, of what touches the resource, by the keys between them alone.
pub fn numbers_differ_by_keys()
    ensures { NumbersDifferByKeys }
{}

/// The updates graph of a declared resource tells its numbers, the rows at them, the keys between them, and which edges
/// can be had.
pub fn graphs_tell_the_book()
    ensures { GraphTellsNumbers }
{}

/// A base that moves on takes numbers away, and changes the resource at none of those that stay.
pub fn trim_keeps_numbers()
    ensures { TrimKeepsNumbers }
{}
