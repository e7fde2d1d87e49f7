//! What holds of every merge patch (RFC 7396), and of operations (RFC 6902). Each law is the contract of a function
//! that does nothing.

ghost use Rattle.json_patch.specs.Laws.{NullForAbsentChangesNothing, EmptyObjectChangesNothing, OtherValueReplaces};
ghost use Rattle.json_patch.specs.Laws.{OperationsReadBack, OrderStays, MergeIsByMember, SameValuesSameMembers};
ghost use Rattle.json_patch.specs.Laws.{DisjointPatchesCommute};

/// A null for a member that isn't there changes nothing, nor does an empty object.
pub fn no_change()
    ensures absent { NullForAbsentChangesNothing }
    ensures empty { EmptyObjectChangesNothing }
{}

/// A patch that is no object takes the place of the document.
pub fn other_value_replaces()
    ensures { OtherValueReplaces }
{}

/// Where the members of the document and of the patch are distinct and stand in byte order, so do those of the result.
pub fn order_stays()
    ensures { OrderStays }
{}

/// The value at a name after a merge depends on the value that was there and on the patch's member of that name alone.
pub fn merge_is_by_member()
    ensures { MergeIsByMember }
{}

/// Objects whose members stand in byte order are one where they have the same value at each name.
pub fn same_values_same_members()
    ensures { SameValuesSameMembers }
{}

/// Patches that name no member in common may be merged in either order.
pub fn disjoint_patches_commute()
    ensures { DisjointPatchesCommute }
{}

/// The document of operations reads back as these operations: reading it is either out of memory or gives them.
pub fn operations_read_back()
    ensures { OperationsReadBack }
{}
