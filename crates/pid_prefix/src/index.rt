ghost use Rattle.std.specs.Prelude.{◌≡◌, List, IfOk, length};
ghost use Rattle.std.specs.List.Sorted.{IsNonDecreasingBy};
ghost use Rattle.pid_prefix.specs.Index.{AreBelow, EndsIn, IsIndexOf, bucket_of};

use crate::number::Number;
use crate::sought::Sought;
use std::alloc::{AllocError, Global};
use std::marker::Model;

/// So many numbers share a bucket, where they lie evenly.
const SHARE: usize = 8;

/// Rising numbers in buckets by their leading bits. It says in which part of them a search ends, so that the search
/// needs few comparisons of its own, which a processor can't guess. 1 byte for each number.
#[derive(Drop)]
pub(crate) struct Index {
    /// How many bits of a number a bucket leaves out.
    shift: u32,
    /// The leading bits of the first bucket.
    least: usize,
    /// For each bucket how many numbers are in those before it.
    below: Vec<usize>,
}

impl Model for Index {
    ghost use Rattle.pid_prefix.specs.Index.{IndexData};

    ghost Value = { IndexData };

    ghost view = { λ index. record { shift = index.shift; least = index.least; below = index.below.items } };
}

/// How numbers are put into buckets.
struct Buckets {
    shift: u32,
    least: usize,
    count: usize,
}

impl Index {
    /// That of rising numbers. A binary search for each bucket.
    pub(crate) fn of<N: Number>(alloc: Global, numbers: &[N]) -> Result<Index, AllocError>
        ensures { IfOk result (λ index. IsNonDecreasingBy N.value numbers.now → IsIndexOf N.value numbers.now index) }
    {
        let Buckets {
            shift,
            least,
            count,
        } = even_buckets(numbers);
        let mut below = Vec::with_capacity(alloc, count)?;
        for bucket in 0..count {
            below.push(count_below(numbers, shift, least, bucket))?;
        }
        Ok(Index {
            shift,
            least,
            below,
        })
    }

    /// Where in so many numbers the part begins in which a search ends, and how long it is. No comparison.
    pub(crate) fn part<N: Number>(&self, count: usize, sought: &Sought<N>) -> (usize, usize)
        ensures { (numbers : List N) → length numbers ≡ count → IsIndexOf N.value numbers self.now
            → EndsIn N.value numbers sought.now result.0 result.1 }
    {
        let bucket = bucket_of(sought.number(), self.shift, self.least);
        let Some(low) = self.below.get(bucket) else {
            return (0, count);
        };
        let Some(high) = self.below.get(bucket.saturating_add(1)) else {
            return (0, count);
        };
        (*low, high.saturating_sub(*low))
    }
}

/// How many of the numbers are in buckets before this one.
fn count_below<N: Number>(numbers: &[N], shift: u32, least: usize, bucket: usize) -> usize
    ensures { IsNonDecreasingBy N.value numbers.now → AreBelow N.value numbers.now shift least bucket result }
{
    numbers.partition_point(|number| bucket_of(number, shift, least) < bucket)
}

/// The bucket of a number.
fn bucket_of<N: Number>(number: &N, shift: u32, least: usize) -> usize
    ensures { result ≡ bucket_of shift least (N.value number.now) }
{
    number.leading(shift).saturating_sub(least)
}

/// About one bucket for each `SHARE` numbers, and one behind them. Any other choice would be as right.
fn even_buckets<N: Number>(numbers: &[N]) -> Buckets {
    let (Some(first), Some(last)) = (numbers.first(), numbers.last()) else {
        return Buckets {
            shift: 0,
            least: 0,
            count: 0,
        };
    };
    let most = numbers.len() / SHARE;
    for shift in 0..N::BITS {
        let (least, greatest) = (first.leading(shift), last.leading(shift));
        let behind = greatest.saturating_sub(least);
        if greatest < usize::MAX && behind <= most {
            return Buckets {
                shift,
                least,
                count: behind.saturating_add(2),
            };
        }
    }
    Buckets {
        shift: 0,
        least: 0,
        count: 0,
    }
}
