ghost use Rattle.std.specs.Prelude.{◌≡◌, ◌<◌, ◌∷◌, ◌++◌, OnOk};
ghost use Rattle.alto_addr.specs.Bits.{HasBits};
ghost use Rattle.alto_addr.specs.Order.{family_of};
ghost use Rattle.code_bytes.specs.Pieces.{address, name, prefix};

use alto_addr::{Addr, Prefix};
use alto_names::{Kind, Label};
use std::alloc::AllocError;

/// Writes a name: its length and its bytes.
pub fn push_name<K: Kind>(out: &mut Vec<u8>, label: &Label<K>) -> Result<(), AllocError>
    requires { K.LONGEST < 256 }
    ensures { OnOk result (out.new.items ≡ out.old.items ++ name label.now) }
{
    let text = label.as_bytes();
    out.push(text.len() as u8)?;
    out.extend_from_slice(text)
}

/// Writes a prefix: its family, its address and its length.
pub fn push_prefix(out: &mut Vec<u8>, block: &Prefix) -> Result<(), AllocError>
    ensures written { OnOk result (out.new.items ≡ out.old.items ++ prefix block.now) }
    ensures bits { OnOk result (HasBits block.now.addr) }
{
    push_address(out, block.addr)?;
    out.push(block.len)?;
    Ok(())
}

/// Writes the family and the bytes of an address.
fn push_address(out: &mut Vec<u8>, addr: Addr) -> Result<(), AllocError>
    ensures written { OnOk result (out.new.items ≡ out.old.items ++ (family_of addr ∷ address addr)) }
    ensures bits { OnOk result (HasBits addr) }
{
    match addr {
        Addr::V4(number) => {
            out.push(4)?;
            out.extend_from_slice(&number.to_be_bytes())
        }
        Addr::V6(number) => {
            out.push(6)?;
            out.extend_from_slice(&((number >> 64) as u64).to_be_bytes())?;
            out.extend_from_slice(&((number % (1 << 64)) as u64).to_be_bytes())
        }
    }
}
