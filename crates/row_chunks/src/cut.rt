ghost use Rattle.std.specs.Prelude.{◌≡◌, true};
ghost use Rattle.row_chunks.specs.Cut.{keeps};
ghost use Rattle.row_chunks.specs.Shared.{cut_shares, keeps_in};

use crate::shared::{Shared, order_of_rest, shared_by};
use alto_rows::{Key, Span};

/// A place between keys, which cuts rows in two.
#[derive(Clone, Copy)]
pub(crate) enum Cut<'a> {
    /// Before a key.
    Before(&'a Key),
    /// Behind a key.
    Behind(&'a Key),
    /// Before the keys of a span.
    BeforeSpan(&'a Span),
    /// Behind the keys of a span.
    BehindSpan(&'a Span),
}

impl Cut<'_> {
    /// Whether a key is behind the cut.
    #[tactic(auto, using(alto_rows::proofs::OrderLemmas::derived_key_cmp))]
    pub(crate) fn keeps(&self, key: &Key) -> bool
        ensures { result ≡ keeps self.now key.now }
    {
        match self {
            Cut::Before(low) => !(*low).cmp(key).is_gt(),
            Cut::Behind(low) => (*low).cmp(key).is_lt(),
            Cut::BeforeSpan(span) => !span.cmp(key).is_gt(),
            Cut::BehindSpan(span) => span.cmp(key).is_lt(),
        }
    }

    /// The same of a key that has so much in common with that of the cut, which isn't compared.
    pub(crate) fn keeps_in(&self, key: &Key, shared: Shared) -> bool
        ensures { result ≡ keeps_in self.now shared key.now }
    {
        match self {
            Cut::Before(low) => !order_of_rest(*low, key, shared).is_gt(),
            Cut::Behind(low) => order_of_rest(*low, key, shared).is_lt(),
            Cut::BeforeSpan(_) | Cut::BehindSpan(_) => self.keeps(key),
        }
    }

    /// What two keys have in common with that of the cut, where both are known to have so much, which isn't compared.
    /// No more is known, where the cut is of a span.
    pub(crate) fn shared(&self, first: &Key, last: &Key, known: Shared) -> Shared
        requires first { cut_shares self.now known first.now ≡ true }
        requires last { cut_shares self.now known last.now ≡ true }
        ensures first { cut_shares self.now result first.now ≡ true }
        ensures last { cut_shares self.now result last.now ≡ true }
    {
        match self {
            Cut::Before(low) | Cut::Behind(low) => shared_by(*low, first, last, known),
            Cut::BeforeSpan(_) | Cut::BehindSpan(_) => known,
        }
    }
}
