//! The answers of calls as numbers. Places count characters from the left end, and offsets are in
//! units.

ghost use Rattle.std.specs.Prelude.{◌≡◌, ◌≤◌, IfSome};
ghost use Rattle.regex_meaning.specs.CodeUnitOffsets.{IsBoundary, units};

use regress_input::cursor::{self, Direction, Forward};
use regress_input::front::{ByteSearcher, Sameness};
use regress_input::indexing::{CharProperties, ElementType, InputIndexer};
use regress_input::matchers::{backref, backref_canonical, backref_icase};
use regress_input::position::PositionType;
use regress_input::scm::SingleCharMatcher;

// Moves the given number of characters to the right, or to the right end.
fn position_moved_right<Input: InputIndexer>(
    input: &Input,
    pos: Input::Position,
    count: usize,
) -> Input::Position
    requires { IsBoundary (Input.text input.now) (Input.Position.offset pos) }
    ensures boundary { IsBoundary (Input.text input.now) (Input.Position.offset result) }
    ensures onward { Input.Position.offset pos ≤ Input.Position.offset result }
{
    let mut at = pos;
    for _ in 0..count {
        let Some(next) = input.next_right_pos(at) else {
            return at;
        };
        at = next;
    }
    at
}

fn position<Input: InputIndexer>(input: &Input, place: usize) -> Input::Position
    ensures { IsBoundary (Input.text input.now) (Input.Position.offset result) }
{
    position_moved_right(input, input.left_end(), place)
}

// Returns the character next to a place, and the offset past it.
pub(crate) fn character<Input: InputIndexer, Dir: Direction>(
    input: &Input,
    dir: Dir,
    place: usize,
) -> Option<(u32, usize)> {
    let mut pos = position(input, place);
    let c = cursor::next(input, dir, &mut pos)?;
    Some((c.as_u32(), input.pos_to_offset(pos)))
}

// Does the same with the calls that return only one of the two.
pub(crate) fn character_and_end_to_right<Input: InputIndexer>(
    input: &Input,
    place: usize,
) -> Option<(u32, usize)> {
    let pos = position(input, place);
    let c = input.peek_right(pos)?;
    let past = input.next_right_pos(pos)?;
    Some((c.as_u32(), input.pos_to_offset(past)))
}

pub(crate) fn character_and_end_to_left<Input: InputIndexer>(
    input: &Input,
    place: usize,
) -> Option<(u32, usize)> {
    let pos = position(input, place);
    let c = input.peek_left(pos)?;
    let past = input.next_left_pos(pos)?;
    Some((c.as_u32(), input.pos_to_offset(past)))
}

// Does the same with the calls that test for a character: returns its number to the right, and the
// offset on either side.
pub(crate) fn here<Input: InputIndexer, Dir: Direction>(
    input: &Input,
    _dir: Dir,
    place: usize,
) -> Option<(u32, usize)> {
    let pos = position(input, place);
    let at = input.pos_to_offset(pos);
    if Dir::FORWARD && at < input.unit_count() {
        Some((input.code(pos), input.pos_to_offset(input.past(pos))))
    } else if !Dir::FORWARD && at > 0 {
        Some((0, input.pos_to_offset(input.before(pos))))
    } else {
        None
    }
}

// Returns the position of an offset in units.
fn unit_position<Input: InputIndexer>(input: &Input, offset: usize) -> Option<Input::Position>
    ensures { IfSome result (λ p. Input.Position.offset p ≤ units (Input.text input.now)) }
{
    input.try_move_right(input.left_end(), offset)
}

// Returns the unit at an offset.
pub(crate) fn unit<Input: InputIndexer>(input: &Input, offset: usize) -> Option<u32> {
    let pos = unit_position(input, offset)?;
    if input.pos_to_offset(pos) < input.unit_count() {
        Some(input.unit(pos))
    } else {
        None
    }
}

// Returns the number of bytes.
pub(crate) fn byte_count<Input: InputIndexer>(input: &Input) -> Option<usize> {
    Some(input.as_bytes()?.len())
}

// Returns the offset that is `amt` units before the right end.
pub(crate) fn before_the_end<Input: InputIndexer>(input: &Input, amt: usize) -> Option<usize> {
    let pos = input.try_move_left(input.right_end(), amt)?;
    Some(input.pos_to_offset(pos))
}

// Returns the offset after moving a number of units from any offset, also from one outside of the
// text.
pub(crate) fn moved<Input: InputIndexer, Dir: Direction>(
    input: &Input,
    _dir: Dir,
    offset: usize,
    amt: usize,
) -> Option<usize> {
    let pos = Input::Position::from_offset(offset);
    let to = if Dir::FORWARD {
        input.try_move_right(pos, amt)?
    } else {
        input.try_move_left(pos, amt)?
    };
    Some(input.pos_to_offset(to))
}

// Returns the byte next to an offset, and the offset past it.
pub(crate) fn byte<Input: InputIndexer, Dir: Direction>(
    input: &Input,
    dir: Dir,
    offset: usize,
) -> Option<(u32, usize)> {
    let mut pos = unit_position(input, offset)?;
    let byte = cursor::next_byte(input, dir, &mut pos)?;
    Some((u32::from(byte), input.pos_to_offset(pos)))
}

// Returns the offset past these bytes.
pub(crate) fn past_bytes<const N: usize, Input: InputIndexer, Dir: Direction>(
    input: &Input,
    dir: Dir,
    offset: usize,
    bytes: &[u8; N],
) -> Option<usize> {
    let mut pos = unit_position(input, offset)?;
    if cursor::try_match_lit(input, dir, &mut pos, bytes) {
        Some(input.pos_to_offset(pos))
    } else {
        None
    }
}

// Returns the offset at which the searcher finds its bytes.
pub(crate) fn found<Input: InputIndexer, Search: ByteSearcher>(
    input: &Input,
    offset: usize,
    search: &Search,
) -> Option<usize> {
    let pos = unit_position(input, offset)?;
    let at = input.find_bytes(pos, search)?;
    Some(input.pos_to_offset(at))
}

// Returns the first character in a range of the text, and the length of the range.
pub(crate) fn part<Input: InputIndexer>(
    input: &Input,
    place: usize,
    count: usize,
) -> (Option<(u32, usize)>, usize) {
    let start = position(input, place);
    let end = position_moved_right(input, start, count);
    let sub = input.subinput(start..end);
    (
        character(&sub, Forward::new(), 0),
        sub.pos_to_offset(sub.right_end()),
    )
}

// Returns the offset past the characters of a range, if they occur at another place.
pub(crate) fn past_range<Input: InputIndexer, Dir: Direction>(
    input: &Input,
    dir: Dir,
    [place, count, beside]: [usize; 3],
    same: Sameness,
) -> Option<usize> {
    let start = position(input, place);
    let end = position_moved_right(input, start, count);
    let mut pos = position(input, beside);
    let matches = match same {
        Sameness::Exact => backref(input, dir, start..end, &mut pos),
        Sameness::Folded => backref_icase(input, dir, start..end, &mut pos),
        Sameness::Alike { unicode } => backref_canonical(input, dir, start..end, unicode, &mut pos),
    };
    if matches {
        Some(input.pos_to_offset(pos))
    } else {
        None
    }
}

// Returns the offset past the character that the matcher accepts.
pub(crate) fn past_match<Input: InputIndexer, Dir: Direction, M: SingleCharMatcher<Input, Dir>>(
    input: &Input,
    dir: Dir,
    matcher: &M,
    place: usize,
) -> Option<usize>
    requires { M.can_match matcher.now }
{
    let mut pos = position(input, place);
    if matcher.matches(input, dir, &mut pos) {
        Some(input.pos_to_offset(pos))
    } else {
        None
    }
}

// Returns the fold of a character, and 1 if another character has the same fold.
pub(crate) fn folded<Input: InputIndexer>(
    input: &Input,
    c: u32,
    other: u32,
) -> Option<(u32, usize)> {
    let c = Input::Element::try_from(c)?;
    let other = Input::Element::try_from(other)?;
    Some((input.fold(c).as_u32(), input.fold_equals(c, other) as usize))
}

// Returns the fold of a character, without an input.
pub(crate) fn folded_alone<Props: CharProperties>(code: u32, unicode: bool) -> Option<u32> {
    Some(Props::fold(Props::Element::try_from(code)?, unicode).as_u32())
}

// Returns the number of the element with this number.
pub(crate) fn number<E: ElementType>(code: u32) -> Option<u32> {
    Some(E::try_from(code)?.as_u32())
}

// Returns the sum of 4 for a word character, 2 for a word character if case is ignored, and 1 for a
// line terminator.
pub(crate) fn classes<Props: CharProperties>(code: u32) -> Option<usize> {
    let c = Props::Element::try_from(code)?;
    let word = if Props::is_word_char(c) { 4 } else { 0 };
    let icase = if Props::is_word_char_unicode_icase(c) {
        2
    } else {
        0
    };
    let line = if Props::is_line_terminator(c) { 1 } else { 0 };
    Some(word + icase + line)
}
