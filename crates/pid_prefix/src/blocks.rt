ghost use Rattle.std.specs.Prelude.{IfOk};
ghost use Rattle.pid_prefix.specs.Table.{AreBlocksOf, AreRangesOf};

use crate::block::Block;
use crate::family::{Family, block_of};
use crate::range::Range;
use crate::sweep::sweep;
use alto_addr::Prefix;
use alto_names::PidName;
use std::alloc::{AllocError, Global};

/// The ranges of the addresses of a family, two for each of its prefixes at most: one sort and one sweep.
pub(crate) fn ranges_of(
    alloc: Global,
    family: Family,
    rows: &[(Prefix, PidName)],
) -> Result<Vec<Range>, AllocError>
    ensures { IfOk result (λ ranges. AreRangesOf family rows.now ranges.items) }
{
    let mut blocks = blocks_of(alloc, family, rows)?;
    blocks.sort()?;
    sweep(alloc, &blocks)
}

/// The blocks of the prefixes of a family, in the order of the rows.
fn blocks_of(
    alloc: Global,
    family: Family,
    rows: &[(Prefix, PidName)],
) -> Result<Vec<Block>, AllocError>
    ensures { IfOk result (λ blocks. AreBlocksOf family rows.now blocks.items) }
{
    let mut blocks = Vec::new(alloc);
    for (place, row) in rows.iter().enumerate() {
        if let Some(block) = block_of(family, &row.0, place) {
            blocks.push(block)?;
        }
    }
    Ok(blocks)
}
