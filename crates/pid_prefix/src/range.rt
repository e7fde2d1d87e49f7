/// The numbers from the first on, up to the next range's first, and the place of the row that they belong to, if any.
#[derive(Clone, Copy)]
pub(crate) struct Range {
    pub(crate) first: u128,
    pub(crate) row: Option<usize>,
}
