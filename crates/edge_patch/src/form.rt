/// How a patch is written.
#[derive(Clone, Copy, Debug, PartialEq, Eq)]
pub enum PatchForm {
    /// As a JSON merge patch (RFC 7396).
    Merge,
    /// As a JSON Patch: operations, done in turn (RFC 6902).
    Operations,
}
