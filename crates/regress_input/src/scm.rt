//! Matchers of a single character.

ghost use Rattle.std.specs.Prelude.{◌≡◌, ◌<◌, ◌≤◌, ◌==◌, ℕ, Bool, true, not, List, All, encode_utf8, ⊤};
ghost use Rattle.std.specs.Char.{IsScalar};
ghost use Rattle.regex_meaning.specs.{NumberListHelpers.{contains}, Tree.{bracket, byte_sequence}, Text.{is_line_terminator}, Outcomes.{accepts}};
ghost use Rattle.regex_meaning.specs.CodeUnitOffsets.{IsBoundary};
ghost use Rattle.regex_pattern_front.specs.AstToSpecTree.{class_as_spec};
ghost use Rattle.regress_input.specs.CharAndByteReadsFromOffset.{direction_of_forward_flag, end_if_matched, past_if};

use crate::cursor::{self, Direction};
use crate::front::{BracketContents, ByteArraySet, ByteSet, MAX_CHAR_SET_LENGTH, SmallArraySet};
use crate::indexing::{CharProperties, CodeUnitEncoding, ElementType, InputIndexer};
use crate::utf8_decoding;

/// A matcher of one character. Contracts see the characters that it accepts (`accepted`), and what
/// it requires of its own value (`can_match`) and of its input.
pub trait SingleCharMatcher<Input: InputIndexer, Dir: Direction> {
    ghost can_match: { Self → Type 0 } = { λ _. ⊤ };

    ghost accepted: { Self → ℕ → Bool };

    /// Checks whether the next character in the direction is accepted. If so, `pos` is moved past
    /// it; otherwise its new value is unspecified.
    fn matches(&self, input: &Input, dir: Dir, pos: &mut Input::Position) -> bool
        requires executable { can_match self.now }
        requires at { IsBoundary (Input.text input.now) (Input.Position.offset pos.old) }
        ensures { let at = Input.Position.offset in end_if_matched result (at pos.new)
            ≡ past_if (Input.text input.now) (accepted self.now) (direction_of_forward_flag Dir.FORWARD) (at pos.old) };
}

/// A matcher of one given character.
#[derive(Drop)]
pub struct Char<Input: InputIndexer> {
    pub c: Input::Element,
}

impl<Input: InputIndexer, Dir: Direction> SingleCharMatcher<Input, Dir> for Char<Input> {
    ghost accepted = { λ m d. Input.Element.number m.c == d };

    #[inline(always)]
    fn matches(&self, input: &Input, dir: Dir, pos: &mut Input::Position) -> bool {
        match cursor::next(input, dir, pos) {
            Some(c) => c.as_u32() == self.c.as_u32(),
            None => false,
        }
    }
}

/// A matcher of any of four characters, some of which may be equal.
#[derive(Drop)]
pub struct CharSet<'a> {
    pub chars: &'a [u32; MAX_CHAR_SET_LENGTH],
}

impl<'a, Input: InputIndexer, Dir: Direction> SingleCharMatcher<Input, Dir> for CharSet<'a> {
    ghost accepted = { λ m. contains m.chars.now };

    #[inline(always)]
    fn matches(&self, input: &Input, dir: Dir, pos: &mut Input::Position) -> bool {
        match cursor::next(input, dir, pos) {
            Some(c) => is_one_of_four_chars(self.chars, c.as_u32()),
            None => false,
        }
    }
}

/// Checks whether a character is one of four.
#[inline(always)]
pub fn is_one_of_four_chars(chars: &[u32; MAX_CHAR_SET_LENGTH], c: u32) -> bool
    ensures { result ≡ contains chars.now c }
{
    let [first, second, third, fourth] = *chars;
    c == first || c == second || c == third || c == fourth
}

/// A matcher of any character of a class.
#[derive(Drop)]
pub struct Bracket<'a> {
    pub bc: &'a BracketContents,
}

impl<'a, Input: InputIndexer, Dir: Direction> SingleCharMatcher<Input, Dir> for Bracket<'a> {
    ghost accepted = { λ m. accepts (bracket (class_as_spec m.bc.now)) };

    #[inline(always)]
    fn matches(&self, input: &Input, dir: Dir, pos: &mut Input::Position) -> bool {
        match cursor::next(input, dir, pos) {
            Some(c) => Input::CharProps::bracket(self.bc, c),
            None => false,
        }
    }
}

/// A matcher of any character.
#[derive(Drop)]
pub struct MatchAny {}

impl MatchAny {
    /// Returns the matcher, which has no data.
    pub fn new() -> Self {
        MatchAny {}
    }
}

impl<Input: InputIndexer, Dir: Direction> SingleCharMatcher<Input, Dir> for MatchAny {
    ghost accepted = { λ _ _. true };

    #[inline(always)]
    fn matches(&self, input: &Input, dir: Dir, pos: &mut Input::Position) -> bool {
        cursor::next(input, dir, pos).is_some()
    }
}

/// A matcher of any character except line terminators.
#[derive(Drop)]
pub struct MatchAnyExceptLineTerminator {}

impl MatchAnyExceptLineTerminator {
    /// Returns the matcher, which has no data.
    pub fn new() -> Self {
        MatchAnyExceptLineTerminator {}
    }
}

impl<Input: InputIndexer, Dir: Direction> SingleCharMatcher<Input, Dir>
    for MatchAnyExceptLineTerminator {
    ghost accepted = { λ _ d. not (is_line_terminator d) };

    #[inline(always)]
    fn matches(&self, input: &Input, dir: Dir, pos: &mut Input::Position) -> bool {
        match cursor::next(input, dir, pos) {
            Some(c) => !Input::CharProps::is_line_terminator(c),
            None => false,
        }
    }
}

/// A matcher of any character of a set of ASCII bytes.
#[derive(Drop)]
pub struct MatchByteSet<'a, Bytes: ByteSet> {
    pub bytes: &'a Bytes,
}

impl<'a, Input: InputIndexer, Dir: Direction, Bytes: ByteSet> SingleCharMatcher<Input, Dir>
    for MatchByteSet<'a, Bytes> {
    ghost can_match = { λ m. All (λ b. b < 128) (Bytes.members m.bytes.now) };

    ghost accepted = { λ m. contains (Bytes.members m.bytes.now) };

    #[inline(always)]
    fn matches(&self, input: &Input, dir: Dir, pos: &mut Input::Position) -> bool {
        matches_ascii_byte_set(self.bytes, input, dir, pos)
    }
}

/// Like `MatchByteSet`, with an array that is stored inline.
#[derive(Drop)]
pub struct MatchByteArraySet<ArraySet: SmallArraySet>(pub ByteArraySet<ArraySet>);

impl<Input: InputIndexer, Dir: Direction, ArraySet: SmallArraySet> SingleCharMatcher<Input, Dir>
    for MatchByteArraySet<ArraySet> {
    ghost can_match = { λ m. All (λ b. b < 128) (ArraySet.members m.0.0) };

    ghost accepted = { λ m. contains (ArraySet.members m.0.0) };

    #[inline(always)]
    fn matches(&self, input: &Input, dir: Dir, pos: &mut Input::Position) -> bool {
        matches_ascii_byte_set(&self.0, input, dir, pos)
    }
}

// Matches a character of a set of ASCII bytes. If code units are bytes, one byte is read, because
// an ASCII character is one byte. Otherwise a character is read.
#[inline(always)]
fn matches_ascii_byte_set<Bytes: ByteSet, Input: InputIndexer, Dir: Direction>(
    bytes: &Bytes,
    input: &Input,
    dir: Dir,
    pos: &mut Input::Position,
) -> bool
    requires ascii { All (λ b. b < 128) (Bytes.members bytes.now) }
    requires at { IsBoundary (Input.text input.now) (Input.Position.offset pos.old) }
    ensures { let at = Input.Position.offset in
        end_if_matched result (at pos.new) ≡ past_if (Input.text input.now)
        (contains (Bytes.members bytes.now)) (direction_of_forward_flag Dir.FORWARD) (at pos.old) }
{
    if Input::Units::ARE_BYTES {
        match cursor::next_byte(input, dir, pos) {
            Some(byte) => bytes.contains(byte),
            None => false,
        }
    } else {
        match cursor::next(input, dir, pos) {
            Some(c) => bytes.byte_set_has_char(c.as_u32()),
            None => false,
        }
    }
}

/// A matcher of the character whose UTF-8 encoding these bytes are.
#[derive(Drop)]
pub struct MatchByteSeq<'a, const N: usize>(pub &'a [u8; N]);

impl<'a, const N: usize, Input: InputIndexer, Dir: Direction> SingleCharMatcher<Input, Dir>
    for MatchByteSeq<'a, N> {
    ghost can_match = { λ m. (N ≤ 4) × ((c : ℕ) × IsScalar c × (m.0.now ≡ encode_utf8 c)) };

    ghost accepted = { λ m. accepts (byte_sequence m.0.now) };

    #[inline(always)]
    fn matches(&self, input: &Input, dir: Dir, pos: &mut Input::Position) -> bool {
        let bytes = self.0;
        if Input::Units::ARE_BYTES {
            return input.match_bytes(dir, pos, bytes);
        }
        match cursor::next(input, dir, pos) {
            Some(c) => is_utf8_encoding_of_code_point(bytes, c.as_u32()),
            None => false,
        }
    }
}

// Checks whether `bytes` are the UTF-8 encoding of `c`.
#[inline(always)]
fn is_utf8_encoding_of_code_point(bytes: &[u8], c: u32) -> bool
    requires { (d : ℕ) × IsScalar d × (bytes.now ≡ encode_utf8 d) }
    ensures { result ≡ accepts (byte_sequence bytes.now) c }
{
    let (spelled, _) = utf8_decoding::character_at(bytes, 0);
    spelled as u32 == c
}
