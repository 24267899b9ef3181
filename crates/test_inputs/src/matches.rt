//! Matchers of one character.

ghost use Rattle.std.specs.Prelude.{◌<◌, All};
ghost use Rattle.regex_pattern_front.specs.ByteSetMembers.{member_bytes_of_ascii_bitmap};

use crate::answers::past_match;
use regress_input::cursor::Direction;
use regress_input::front::{AsciiBitmap, BracketContents, ByteArraySet, CodePointSet, Interval};
use regress_input::indexing::{ElementType, InputIndexer};
use regress_input::scm::{
    Bracket, Char, CharSet, MatchAny, MatchAnyExceptLineTerminator, MatchByteArraySet,
    MatchByteSeq, MatchByteSet,
};
use std::alloc::{AllocError, Global};

// Returns the set of one ASCII byte.
fn ascii_set(byte: u8) -> AsciiBitmap
    ensures { All (λ b. b < 128) (member_bytes_of_ascii_bitmap result) }
{
    let mut set = AsciiBitmap::default();
    set.set(byte);
    set
}

// Returns the class of all characters except `a` to `m`.
pub(crate) fn class(alloc: Global) -> Result<BracketContents, AllocError> {
    let letters = [Interval {
        first: 0x61,
        last: 0x6d,
    }];
    Ok(BracketContents {
        invert: true,
        cps: CodePointSet::from_intervals(alloc, &letters)?,
    })
}

// Returns the offset past the character next to a position for each of the eight matchers of `z`,
// and for the bytes of `€`.
pub(crate) fn matching<Input: InputIndexer, Dir: Direction>(
    input: &Input,
    dir: Dir,
    place: usize,
    bc: &BracketContents,
) -> Option<[Option<usize>; 9]> {
    let c = Input::Element::try_from(0x7a)?;
    let set = ascii_set(b'z');
    Some([
        past_match(input, dir, &Char::<Input> { c }, place),
        past_match(
            input,
            dir,
            &CharSet {
                chars: &[0x79, 0x7a, 0x20ac, 0x20ac],
            },
            place,
        ),
        past_match(input, dir, &Bracket { bc }, place),
        past_match(input, dir, &MatchAny::new(), place),
        past_match(input, dir, &MatchAnyExceptLineTerminator::new(), place),
        past_match(input, dir, &MatchByteSet { bytes: &set }, place),
        past_match(
            input,
            dir,
            &MatchByteArraySet(ByteArraySet([0x79, 0x7a])),
            place,
        ),
        past_match(input, dir, &MatchByteSeq(b"z"), place),
        past_match(input, dir, &MatchByteSeq(b"\xe2\x82\xac"), place),
    ])
}

// Returns the offset past the character with this number.
pub(crate) fn past_char<Input: InputIndexer, Dir: Direction>(
    input: &Input,
    dir: Dir,
    place: usize,
    code: u32,
) -> Option<usize> {
    let c = Input::Element::try_from(code)?;
    past_match(input, dir, &Char::<Input> { c }, place)
}
