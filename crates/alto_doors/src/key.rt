ghost use Rattle.std.specs.Prelude.{◌≡◌, true, IfOk, string_bytes};
ghost use Rattle.alto_doors.specs.Keys.{is_key, same_side};

use alto_answers::Side;
use std::alloc::{AllocError, Global};

/// A side and an address, by which doors are opened.
#[derive(Drop)]
pub(crate) struct DoorKey {
    side: Side,
    address: String,
}

impl DoorKey {
    /// This side and address.
    #[tactic(auto, using(crate::proofs::KeyLemmas::is_key_itself))]
    pub(crate) fn new(alloc: Global, side: Side, address: &str) -> Result<DoorKey, AllocError>
        ensures side { IfOk result (λ key. key.side ≡ side) }
        ensures address { IfOk result (λ key. string_bytes key.address ≡ address.now) }
        ensures key { IfOk result (λ key. is_key side address.now key ≡ true) }
    {
        let address = String::from_str(alloc, address)?;
        Ok(DoorKey { side, address })
    }

    /// Whether it is this side and address.
    pub(crate) fn is(&self, side: Side, address: &str) -> bool
        ensures { result ≡ is_key side address.now self.now }
    {
        same_side(self.side, side) && self.address.as_str() == address
    }
}

/// Whether two sides are the same.
fn same_side(a: Side, b: Side) -> bool
    ensures { result ≡ same_side a b }
{
    a == b
}
