ghost use Rattle.std.specs.Prelude.{◌≡◌, ◌+◌, ◌<◌, ◌≤◌, List, None, IfOk, IfNone, IfSome};
ghost use Rattle.std.specs.List.{All};
ghost use Rattle.pid_prefix.specs.declared.block.Block.{Block};
ghost use Rattle.pid_prefix.specs.Bits.{end_of};
ghost use Rattle.pid_prefix.specs.Blocks.{AreOrdered};
ghost use Rattle.pid_prefix.specs.Sweep.{IsInnermostAround, IsSwept, IsSweptTo, innermost_row};

use crate::block::Block;
use crate::range::Range;
use std::alloc::{AllocError, Global};

/// The ranges that give each number the row of the innermost block that covers it, two for each block at most.
/// One pass over the ordered blocks: each is put once on the blocks around the place, and taken off once.
pub(crate) fn sweep(alloc: Global, blocks: &[Block]) -> Result<Vec<Range>, AllocError>
    requires { AreOrdered blocks.now }
    ensures { IfOk result (λ ranges. IsSweptTo blocks.now ranges.items) }
{
    let mut ranges = Vec::new(alloc);
    let mut around = Vec::new(alloc);
    for block in blocks {
        close_until(&mut ranges, &mut around, block.first)?;
        ranges.push(Range {
            first: block.first,
            row: Some(block.row),
        })?;
        around.push(*block)?;
    }
    close_until(&mut ranges, &mut around, u128::MAX)?;
    Ok(ranges)
}

/// Ends the blocks around that end at or before the number, the innermost first. Behind each begins a range of the
/// block around it.
fn close_until(
    ranges: &mut Vec<Range>,
    around: &mut Vec<Block>,
    number: u128,
) -> Result<(), AllocError>
    ensures swept { IfOk result (λ _. (blocks : List Block) → IsSwept blocks ranges.old.items around.old.items
        → IsSwept blocks ranges.new.items around.new.items
        × All (λ block. number < end_of block.first block.len) around.new.items) }
    ensures by { IfOk result (λ _. All (λ range. range.first ≤ number) ranges.old.items
        → All (λ range. range.first ≤ number) ranges.new.items) }
{
    while let Some(last) = last_before(around, number) {
        around.pop();
        ranges.push(Range {
            first: last + 1,
            row: row_around(around),
        })?;
    }
    Ok(())
}

/// The last number of the innermost block, where it is before this one.
fn last_before(around: &[Block], number: u128) -> Option<u128>
    ensures some { IfSome result (λ last. (block : Block) × IsInnermostAround around.now block
        × (last + 1 ≡ end_of block.first block.len) × (last < number)) }
    ensures none { IfNone result ((block : Block) → IsInnermostAround around.now block
        → number < end_of block.first block.len) }
{
    let (block, _) = around.split_last()?;
    let last = block.last();
    if last < number { Some(last) } else { None }
}

/// The row of the innermost block.
fn row_around(around: &[Block]) -> Option<usize>
    ensures { result ≡ innermost_row None around.now }
{
    match around.split_last() {
        Some((block, _)) => Some(block.row),
        None => None,
    }
}
