/// The kind of a property's value.
#[derive(Clone, Copy, Debug, PartialEq, Eq)]
pub(crate) enum ValueKind {
    /// `t`: a text.
    Text,
    /// `n`: a number.
    Number,
}
