ghost use Rattle.std.specs.Prelude.{◌≡◌, ◌<◌, ◌+◌, ◌^◌, ◌++◌, IfOk, IfErr, length, map, vec_items};
ghost use Rattle.base_code.specs.Bases.{IsBase};
ghost use Rattle.base_code.specs.Faults.{IsBaseFault, IsBeginning, beginning_pieces};
ghost use Rattle.base_code.specs.Pieces.{base_pieces};

use crate::base::Base;
use crate::beginning::Beginning;
use crate::fault::BaseFault;
use batch_code::Names;
use std::alloc::Global;

/// Reads the pieces of a base. With none it is that of a new book, behind no batch. The keys of its rows share names
/// with each other and with those that were read with the same `names`.
pub fn decode_base(alloc: Global, names: &mut Names, pieces: &[Vec<u8>]) -> Result<Base, BaseFault>
    ensures ok { IfOk result (λ base. IsBase base × (map vec_items pieces.now ≡ base_pieces base)) }
    ensures err { IfErr result (IsBaseFault (map vec_items pieces.now)) }
{
    let Some((first, rest)) = pieces.split_first() else {
        return Ok(Base {
            b: 0,
            receipts: Vec::new(alloc),
            rows: Vec::new(alloc),
        });
    };
    match Beginning::read(alloc, first) {
        Ok(begun) => read_behind(alloc, names, begun, rest),
        Err(stop) => Err(BaseFault::at(0, stop)),
    }
}

/// Reads the pieces of a base behind the first.
fn read_behind(
    alloc: Global,
    names: &mut Names,
    mut begun: Beginning,
    rest: &[Vec<u8>],
) -> Result<Base, BaseFault>
    requires begun { IsBeginning begun }
    requires first { length (beginning_pieces begun) ≡ 1 }
    requires room { length rest.now + 1 < 2 ^ 64 }
    ensures ok { IfOk result (λ base. IsBase base
        × (beginning_pieces begun ++ map vec_items rest.now ≡ base_pieces base)) }
    ensures err { IfErr result (IsBaseFault (beginning_pieces begun ++ map vec_items rest.now)) }
{
    for (index, piece) in rest.iter().enumerate() {
        if let Err(stop) = begun.add(alloc, names, piece) {
            return Err(BaseFault::at(index + 1, stop));
        }
    }
    match begun.base() {
        Some(base) => Ok(base),
        None => Err(BaseFault::BadPiece(rest.len() + 1)),
    }
}
