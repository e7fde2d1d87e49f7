//! Names of members as text, made once for many objects.
ghost use Rattle.std.specs.Prelude.{◌≡◌, ◌≤◌, ◌++◌, ◌∷◌, [], IfOk, OnOk, length, slice_get, slice_range, unwrap_or};
ghost use Rattle.json.specs.Print.{quoted};
ghost use Rattle.serde_json.specs.Written.{comma_if};
ghost use Rattle.alto_maps.specs.Shape.{Name};
ghost use Rattle.cost_filters.specs.Text.{member_start};

use doc_pieces::push_name;
use std::alloc::{AllocError, Global};
use std::marker::Model;
use text_buffer::TextBuffer;

/// Room for a name with what stands around it, which few are longer than.
const COMMON_LENGTH: usize = 24;

/// Names of members as they are written, each behind a comma and with its colon: `,"east":`. They lie one behind
/// another in one piece of memory. A contract sees the texts.
#[derive(Drop)]
pub struct MemberStarts {
    bytes: TextBuffer,
    /// Where each begins and ends.
    places: Vec<(usize, usize)>,
}

impl Model for MemberStarts {
    ghost use Rattle.std.specs.Prelude.{ℕ, List};
    ghost use Rattle.cost_filters.specs.Starts.{AreWithin, texts_at};

    ghost Value = { List (List ℕ) };

    ghost view = { λ starts. texts_at starts.bytes starts.places.items };

    ghost invariant = { λ starts. AreWithin starts.bytes starts.places.items };
}

impl MemberStarts {
    /// None. Takes no memory.
    pub fn new(alloc: Global) -> MemberStarts
        ensures { result ≡ [] }
    {
        MemberStarts {
            bytes: TextBuffer::new(alloc),
            places: Vec::new(alloc),
        }
    }

    /// None, with room for so many that aren't uncommonly long.
    pub fn with_room(alloc: Global, names: usize) -> Result<MemberStarts, AllocError>
        ensures { IfOk result (λ starts. starts ≡ []) }
    {
        Ok(MemberStarts {
            bytes: TextBuffer::with_room(alloc, names.saturating_mul(COMMON_LENGTH))?,
            places: Vec::with_capacity(alloc, names)?,
        })
    }

    /// None, with the memory of those that were here.
    pub(crate) fn into_empty(self) -> MemberStarts
        ensures { result ≡ [] }
    {
        let MemberStarts { bytes, places } = self;
        let mut none = bytes;
        none.clear();
        let mut nowhere = places;
        nowhere.clear();
        MemberStarts {
            bytes: none,
            places: nowhere,
        }
    }

    /// These, and behind them that of a name. Linear in the name.
    pub fn with(self, name: &str) -> Result<MemberStarts, AllocError>
        ensures { IfOk result (λ starts. starts ≡ self ++ member_start name.now ∷ []) }
    {
        let MemberStarts {
            mut bytes,
            mut places,
        } = self;
        let place = put_start(name, &mut bytes)?;
        places.push(place)?;
        Ok(MemberStarts { bytes, places })
    }

    /// How many there are.
    pub(crate) fn count(&self) -> usize
        ensures { result ≡ length self.now }
    {
        self.places.len()
    }

    /// The one at a place, nothing where there is none.
    pub(crate) fn text(&self, place: usize) -> &[u8]
        ensures { result.now ≡ unwrap_or (slice_get self.now place) [] }
    {
        match self.places.get(place) {
            Some((start, end)) => part(self.bytes.bytes(), *start, *end),
            None => &[],
        }
    }
}

/// The part of bytes from one place up to another, which stands within them.
fn part(bytes: &[u8], start: usize, end: usize) -> &[u8]
    ensures { end ≤ length bytes.now → result.now ≡ slice_range bytes.now start end }
{
    match bytes.get(start..end) {
        Some(part) => part,
        None => &[],
    }
}

/// Puts a name behind a comma, with its colon, and gives where it begins and ends.
fn put_start(name: &str, out: &mut TextBuffer) -> Result<(usize, usize), AllocError>
    ensures text { OnOk result (out.new ≡ out.old ++ member_start name.now) }
    ensures place { IfOk result (λ place. place ≡ (length out.old, length out.new)) }
{
    let start = out.bytes().len();
    push_start(name, out)?;
    Ok((start, out.bytes().len()))
}

/// Puts a name behind a comma, with its colon.
fn push_start(name: &str, out: &mut TextBuffer) -> Result<(), AllocError>
    ensures { OnOk result (out.new ≡ out.old ++ member_start name.now) }
{
    out.push(b",")?;
    push_name(name, out)
}

/// Puts the name of a member that was made so, without its comma where no member stands before.
pub(crate) fn push_made(start: &[u8], later: bool, out: &mut TextBuffer) -> Result<(), AllocError>
    ensures { OnOk result ((name : Name) → start.now ≡ member_start name
        → out.new ≡ out.old ++ (comma_if later ++ (quoted name ++ 58 ∷ []))) }
{
    if later {
        return out.push(start);
    }
    match start.get(1..) {
        Some(name) => out.push(name),
        None => Ok(()),
    }
}
