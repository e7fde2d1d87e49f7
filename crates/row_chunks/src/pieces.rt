ghost use Rattle.std.specs.Prelude.{◌≡◌, ◌≤◌, ◌<◌, ◌++◌, ◌∷◌, [], IfOk, length};
ghost use Rattle.std.specs.List.{AllByRecursion, flat_map};

use std::alloc::{AllocError, Global};

/// The items in pieces of about one size, so many in each at most. Where they are one piece, none is moved.
pub(crate) fn pieces<T: Drop>(
    alloc: Global,
    items: Vec<T>,
    most: usize,
) -> Result<Vec<Vec<T>>, AllocError>
    requires { 1 ≤ most }
    ensures whole { IfOk result (λ all. flat_map (λ piece. piece.items) all.items ≡ items.items) }
    ensures small { IfOk result (λ all. AllByRecursion (λ piece. length piece.items ≤ most) all.items) }
{
    if items.len() <= most {
        return alone(alloc, items);
    }
    let size = piece_size(items.len(), most);
    cut(alloc, items, size)
}

/// A piece alone.
fn alone<T: Drop>(alloc: Global, piece: Vec<T>) -> Result<Vec<Vec<T>>, AllocError>
    ensures { IfOk result (λ all. all.items ≡ piece ∷ []) }
{
    let mut all = Vec::with_capacity(alloc, 1)?;
    all.push(piece)?;
    Ok(all)
}

/// The items in pieces of this size, and a last one that may be smaller.
fn cut<T: Drop>(alloc: Global, items: Vec<T>, size: usize) -> Result<Vec<Vec<T>>, AllocError>
    requires { 1 ≤ size }
    ensures whole { IfOk result (λ all. flat_map (λ piece. piece.items) all.items ≡ items.items) }
    ensures small { IfOk result (λ all. AllByRecursion (λ piece. length piece.items ≤ size) all.items) }
{
    let mut all = Vec::with_capacity(alloc, items.len() / size + 1)?;
    let mut piece = Vec::with_capacity(alloc, size)?;
    for item in items {
        let (done, going) = with_full(alloc, all, piece, size)?;
        all = done;
        piece = going;
        piece.push(item)?;
    }
    all.push(piece)?;
    Ok(all)
}

/// The pieces with one behind them, if it is full, and the piece that is then gone on with.
fn with_full<T: Drop>(
    alloc: Global,
    done: Vec<Vec<T>>,
    piece: Vec<T>,
    size: usize,
) -> Result<(Vec<Vec<T>>, Vec<T>), AllocError>
    requires least { 1 ≤ size }
    requires within { length piece.items ≤ size }
    requires small { AllByRecursion (λ piece. length piece.items ≤ size) done.items }
    ensures whole { IfOk result (λ both. flat_map (λ piece. piece.items) both.0.items ++ both.1.items
        ≡ flat_map (λ piece. piece.items) done.items ++ piece.items) }
    ensures small { IfOk result (λ both. AllByRecursion (λ piece. length piece.items ≤ size) both.0.items) }
    ensures room { IfOk result (λ both. length both.1.items < size) }
{
    if piece.len() < size {
        return Ok((done, piece));
    }
    let mut all = done;
    all.push(piece)?;
    Ok((all, Vec::with_capacity(alloc, size)?))
}

/// The size of pieces that share so many items: about the same for each, and `most` at most.
fn piece_size(items: usize, most: usize) -> usize
    requires { 1 ≤ most }
    ensures least { 1 ≤ result }
    ensures within { result ≤ most }
{
    let pieces = items.div_ceil(most).max(1);
    items.div_ceil(pieces).clamp(1, most)
}
