ghost use Rattle.std.specs.Prelude.{◌≡◌, IfOk, string_bytes};
ghost use Rattle.alto_drill.specs.Drilled.{text_of};

use std::alloc::{AllocError, Global};

/// What a drill comes to.
#[derive(Clone, Copy, Debug, PartialEq, Eq)]
pub struct Drilled {
    /// How many batches it made.
    pub batches: u32,
    /// How many edges it tried.
    pub edges: usize,
    /// How many of these don't lead to the document.
    pub failed: usize,
    /// The SHA-256 digest of the texts of all bodies.
    pub map: [u8; 32],
}

impl Drilled {
    /// Its two lines: the numbers, and the digest in hexadecimal digits.
    pub fn text(&self, alloc: Global) -> Result<String, AllocError>
        ensures { IfOk result (λ text. string_bytes text ≡ text_of self.now) }
    {
        let map = hex::encode(alloc, self.map)?;
        let (batches, edges, failed) = (self.batches, self.edges, self.failed);
        format!(in alloc; "batches {batches} edges {edges} failed {failed}\nmap {map}\n")
    }
}
