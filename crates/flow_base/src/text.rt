ghost use Rattle.std.specs.Prelude.{◌≡◌, ◌↔◌, [], length, string_bytes, IsTrue, IfOk};
ghost use Rattle.flow_base.specs.Places.{placed};

use crate::Memory;
use crate::short::Short;
use std::alloc::Global;
use std::cmp::Ordering;
use std::fmt;
use std::hash::{Hash, Hasher};
use std::marker::Model;
use std::mem::size_of;
use std::sync::ArcStr;

/// Where the bytes of a text lie: a short text's in the value itself, and those of any other in one place that its copies
/// share.
#[derive(Drop)]
enum Place {
    Here(Short),
    Shared(ArcStr),
}

/// UTF-8 text, which contracts see as its bytes. Texts are equal, ordered and hashed by their bytes. To copy one takes no
/// more time where it is long.
pub struct Text {
    place: Place,
}

// What lets a text go sees one call, and not where the bytes lie.
impl Drop for Text {
    fn drop(self) {
        let Text { place: _place } = self;
    }
}

// A text is no larger than a `String`.
const _: () = prove!(size_of::<Text>() == 24);

impl Model for Text {
    ghost use Rattle.std.specs.Prelude.{List, ℕ};
    ghost use Rattle.flow_base.specs.Places.{placed};

    ghost Value = { List ℕ };

    ghost view = { λ t. placed t.place };
}

fn placed_copy(place: &Place) -> Result<Place, Memory>
    ensures { IfOk result (λ p. placed p ≡ placed place.now) }
{
    match place {
        Place::Here(text) => Ok(Place::Here(text.copy())),
        Place::Shared(text) => Ok(Place::Shared(text.clone()?)),
    }
}

fn placed_text(place: &Place) -> &str
    ensures { result.now ≡ placed place.now }
{
    match place {
        Place::Here(text) => text.as_str(),
        Place::Shared(text) => text.as_str(),
    }
}

impl Text {
    /// The empty text. Takes no memory.
    pub fn new() -> Text
        ensures { result ≡ [] }
    {
        Text {
            place: Place::Here(Short::empty()),
        }
    }

    /// A copy of `s`. Fails only for want of memory, of which a text of at most 16 bytes takes none.
    pub fn of(alloc: Global, s: &str) -> Result<Text, Memory>
        ensures { IfOk result (λ t. t ≡ s.now) }
    {
        let place = match Short::of(s) {
            Some(text) => Place::Here(text),
            None => Place::Shared(ArcStr::from_str(alloc, s)?),
        };
        Ok(Text { place })
    }

    /// The same text. Fails only for want of memory, of which a text of at most 16 bytes takes none.
    pub fn from_string(inner: String) -> Result<Text, Memory>
        ensures { IfOk result (λ t. t ≡ string_bytes inner) }
    {
        let place = match Short::of(inner.as_str()) {
            Some(text) => Place::Here(text),
            None => Place::Shared(ArcStr::from_string(inner)?),
        };
        Ok(Text { place })
    }

    /// A copy. Fails only for want of memory, of which it takes none.
    pub fn copy(&self) -> Result<Text, Memory>
        ensures { IfOk result (λ t. t ≡ self.now) }
    {
        Ok(Text {
            place: placed_copy(&self.place)?,
        })
    }

    pub fn as_str(&self) -> &str
        ensures { result.now ≡ self.now }
    {
        placed_text(&self.place)
    }

    /// The number of bytes.
    pub fn len(&self) -> usize
        ensures { result ≡ length self.now }
    {
        self.as_str().len()
    }

    pub fn is_empty(&self) -> bool
        ensures { IsTrue result ↔ (self.now ≡ []) }
    {
        self.as_str().is_empty()
    }
}

impl fmt::Debug for Text {
    fn fmt<W: fmt::Write>(&self, f: &mut fmt::Formatter<W>) -> fmt::Result {
        fmt::Debug::fmt(&self.as_str(), f)
    }
}

impl PartialEq for Text {
    ghost use Rattle.std.specs.Cmp.Lexicographic.{pointwise, nat_list_eq_equiv};
    ghost use Rattle.std.specs.Prelude.{◌==◌};
    ghost use Rattle.std.specs.Cmp;

    ghost eq = { λ a b. pointwise ◌==◌ a b };

    ghost laws = { Cmp.partial_equiv_from_equiv nat_list_eq_equiv };

    fn eq(&self, other: &Self) -> bool {
        self.as_str() == other.as_str()
    }
}

impl Eq for Text {
    ghost use Rattle.std.specs.Cmp.Lexicographic.{nat_list_eq_equiv};

    ghost laws = { nat_list_eq_equiv };
}

impl PartialOrd for Text {
    ghost use Rattle.std.specs.Prelude.{Some};
    ghost use Rattle.std.specs.Cmp.Lexicographic.{slice_cmp, texts_po};
    ghost use Rattle.std.specs.Ordering.{nat_cmp};

    ghost partial_cmp = { λ a b. Some (slice_cmp nat_cmp a b) };

    ghost laws = { texts_po };

    fn partial_cmp(&self, other: &Self) -> Option<Ordering> {
        Some(self.cmp(other))
    }
}

impl Ord for Text {
    ghost use Rattle.std.specs.Cmp.Lexicographic.{slice_cmp, nat_list_cmp_total, texts_ties};
    ghost use Rattle.std.specs.Ordering.{nat_cmp};
    ghost use Rattle.std.specs.Prelude.{refl};

    ghost cmp = { λ a b. slice_cmp nat_cmp a b };

    ghost total = { nat_list_cmp_total };

    ghost matches_partial_cmp = { λ x y. refl };

    ghost matches_eq = { λ x y. texts_ties x y };

    fn cmp(&self, other: &Self) -> Ordering {
        self.as_str().cmp(other.as_str())
    }
}

impl Hash for Text {
    ghost use Rattle.std.proofs.Common.{rules};
    ghost use Rattle.std.specs.Hash as fed;
    ghost use Rattle.std.specs.Cmp.Rules.{hashing};

    ghost hash_input = { fed.str };

    ghost respects_eq = { Prim.search (hashing, rules) };

    fn hash<H: Hasher>(&self, state: &mut H) {
        self.as_str().hash(state);
    }
}
