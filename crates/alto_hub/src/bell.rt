/// What lets those who wait know of another batch. No time is promised.
pub trait Bell {
    /// Tells that there are this many batches.
    fn ring(&self, n: u64);

    /// Waits until there may be more batches than this number. It may end at any time.
    fn wait(&self, known: u64);
}

/// A bell that nobody hears: its wait ends at once.
#[derive(Clone, Copy, Debug, Default)]
pub struct IdleBell;

impl Bell for IdleBell {
    fn ring(&self, _n: u64) {}

    fn wait(&self, _known: u64) {}
}
