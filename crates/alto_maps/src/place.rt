use json_tree::Name;

/// The place of a map that a change touches.
#[derive(Debug, Drop)]
pub enum Place {
    /// None: the change doesn't show in the map.
    Nowhere,
    /// The version that the meta tells.
    Meta,
    /// A group as a whole: whether it stands.
    Group(Name),
    /// A member of a group.
    Member(Name, Name),
}
