//! An open search: its text, which is validated once, and the offset at which the list of matches
//! continues.

ghost use Rattle.std.specs.Prelude.{◌≡◌, IsUtf8};
ghost use Rattle.std.proofs.Props.{props};

use crate::opening::{splits_surrogate_pair, splits_utf8_character};
use crate::refusal::Refusal;

/// How a text is read.
#[derive(Clone, Copy)]
pub(crate) enum Encoding {
    Utf8,
    Utf16,
    Ucs2,
}

/// A search in a text that is borrowed from the caller.
#[repr(C)]
#[derive(Drop)]
pub struct Search<'t> {
    /// The UTF-8 text. Empty if the text has 16-bit code units.
    pub bytes: &'t [u8],
    /// The text of 16-bit code units. Empty if the text is UTF-8.
    pub units: &'t [u16],
    /// The offset, in units of the text, at which the search continues. It is past the end when the
    /// search is over.
    pub next: usize,
    /// How the text is read: 1 for UTF-8, 2 for UTF-16, 3 for UCS-2. Any other number means that no
    /// search is open.
    pub encoding: usize,
    pub ghost utf8: { IsUtf8 bytes.now } by { Prim.hlevel props },
}

impl<'t> Search<'t> {
    ghost use Rattle.regress_c.specs.Opening.{OpensUtf8, OpensUtf16, SearchesUcs2, encoding_of};

    /// Returns a search that is not open.
    pub(crate) fn closed() -> Self
        ensures { result.encoding ≡ 0 }
    {
        Search {
            bytes: &[],
            units: &[],
            next: 0,
            encoding: 0,
        }
    }

    /// Returns how the text is read, or `None` if no search is open.
    pub(crate) fn encoding(&self) -> Option<Encoding>
        ensures { result ≡ encoding_of self.now.encoding }
    {
        match self.encoding {
            1 => Some(Encoding::Utf8),
            2 => Some(Encoding::Utf16),
            3 => Some(Encoding::Ucs2),
            _ => None,
        }
    }

    /// Returns the text as UTF-8.
    pub(crate) fn text(&self) -> &'t str
        ensures { result.now ≡ self.now.bytes.now }
    {
        unsafe { str::from_utf8_unchecked(self.bytes) }
    }

    /// Returns a search in a UTF-8 text, from an offset in bytes on. Refuses bytes that are not
    /// UTF-8, and a start that splits a character.
    pub(crate) fn in_utf8(bytes: &'t [u8], start: usize) -> Result<Self, Refusal>
        ensures { OpensUtf8 bytes.now start result }
    {
        let text = str::from_utf8(bytes)?;
        if splits_utf8_character(text, start) {
            return Err(Refusal::NotBoundary);
        }
        Ok(Search {
            bytes: text.as_bytes(),
            units: &[],
            next: start,
            encoding: 1,
        })
    }

    /// Returns a search in a UTF-16 text from an offset in code units on. Refuses a start that
    /// splits a surrogate pair.
    pub(crate) fn in_utf16(units: &'t [u16], start: usize) -> Result<Self, Refusal>
        ensures { OpensUtf16 units.now start result }
    {
        if splits_surrogate_pair(units, start) {
            return Err(Refusal::NotBoundary);
        }
        Ok(Search {
            bytes: &[],
            units,
            next: start,
            encoding: 2,
        })
    }

    /// Returns a search in a UCS-2 text from an offset in code units on.
    pub(crate) fn in_ucs2(units: &'t [u16], start: usize) -> Self
        ensures { SearchesUcs2 units.now start result }
    {
        Search {
            bytes: &[],
            units,
            next: start,
            encoding: 3,
        }
    }
}
