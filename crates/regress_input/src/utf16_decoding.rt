//! Decoding characters from UTF-16 code units.

ghost use Rattle.std.specs.Prelude.{◌≡◌, ◌<◌, ◌≤◌, length};
ghost use Rattle.regex_meaning.specs.Text.{is_high_surrogate, is_low_surrogate, decode_surrogate_pair, is_unit_boundary as spec_is_unit_boundary};
ghost use Rattle.regress_input.specs.Utf16CharactersAtOffsets.{is_surrogate_pair_at, character_starting_at, character_before as spec_character_before, if_utf16_boundary};

/// Checks whether `i` is a boundary of the text in UTF-16: at most the length, and not inside a
/// surrogate pair.
#[inline(always)]
pub fn is_unit_boundary(units: &[u16], i: usize) -> bool
    ensures { result ≡ spec_is_unit_boundary units.now i }
{
    if i == 0 {
        return true;
    }
    if i >= units.len() {
        return i == units.len();
    }
    !is_surrogate_pair_at_offset(units, i - 1)
}

/// Returns the offset if it is a boundary, and `None` otherwise.
#[inline(always)]
pub(crate) fn offset_if_boundary(units: &[u16], to: Option<usize>) -> Option<usize>
    ensures { result ≡ if_utf16_boundary units.now to }
{
    match to {
        Some(at) => {
            if is_unit_boundary(units, at) {
                Some(at)
            } else {
                None
            }
        }
        None => None,
    }
}

/// Returns the character that begins at a boundary, and the offset at which it ends.
#[inline(always)]
pub(crate) fn character_at(units: &[u16], at: usize) -> (u32, usize)
    requires { at < length units.now }
    ensures { result ≡ character_starting_at units.now at }
{
    if is_surrogate_pair_at_offset(units, at) {
        (decoded_surrogate_pair(units[at], units[at + 1]), at + 2)
    } else {
        (units[at] as u32, at + 1)
    }
}

/// Returns the character that ends at a boundary, and the offset at which it begins.
#[inline(always)]
pub(crate) fn character_before(units: &[u16], end: usize) -> (u32, usize)
    requires some { 0 < end }
    requires inside { end ≤ length units.now }
    ensures { result ≡ spec_character_before units.now end }
{
    if end >= 2 && is_surrogate_pair_at_offset(units, end - 2) {
        (
            decoded_surrogate_pair(units[end - 2], units[end - 1]),
            end - 2,
        )
    } else {
        (units[end - 1] as u32, end - 1)
    }
}

// Checks whether a surrogate pair begins at an offset.
#[inline(always)]
fn is_surrogate_pair_at_offset(units: &[u16], at: usize) -> bool
    requires { at < length units.now }
    ensures { result ≡ is_surrogate_pair_at units.now at }
{
    is_high_unit(units[at]) && at + 1 < units.len() && is_low_unit(units[at + 1])
}

// Checks whether a unit is the first unit of a surrogate pair.
#[inline(always)]
fn is_high_unit(unit: u16) -> bool
    ensures { result ≡ is_high_surrogate unit }
{
    0xD800 <= unit && unit <= 0xDBFF
}

// Checks whether a unit is the second unit of a surrogate pair.
#[inline(always)]
fn is_low_unit(unit: u16) -> bool
    ensures { result ≡ is_low_surrogate unit }
{
    0xDC00 <= unit && unit <= 0xDFFF
}

// Returns the character that a surrogate pair encodes.
#[inline(always)]
fn decoded_surrogate_pair(high: u16, low: u16) -> u32
    ensures { result ≡ decode_surrogate_pair high low }
{
    0x1_0000 + (high as u32 % 0x400 * 0x400 + low as u32 % 0x400)
}
