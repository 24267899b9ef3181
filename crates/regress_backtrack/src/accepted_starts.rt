//! The start positions that are tried if steps are counted: those that the start predicate admits.
#![tactic(auto, unfolding(regex_meaning::specs::StartPredicate::may_start))]

ghost use Rattle.std.specs.Prelude.{◌≡◌, IsTrue, nat_eq, option_map};
ghost use Rattle.std.specs.List.{starts_with};
ghost use Rattle.regex_meaning.specs.{CodeUnitOffsets.{IsBoundary}, StartPredicate.{first_byte_is_one_of, utf8_bytes_of_text_from_place}};
ghost use Rattle.regress_input.specs.CharAndByteReadsFromOffset.{place};
ghost use Rattle.regress_program.specs.InsnsAsSpec.{start_predicate_as_spec};
ghost use Rattle.regress_backtrack.specs.LimitedStarts.{admits_start as spec_admits_start, IsFirstTriedStart, IsTriedStartAfterFailure};

use regex_pattern_front::bytesearch::ByteSet;
use regress_input::cursor::Forward;
use regress_input::indexing::InputIndexer;
use regress_program::insn::StartPredicate;

// Checks whether the byte at a position is in a set.
#[inline(always)]
fn starts_with_byte_in<Input: InputIndexer, Set: ByteSet>(
    input: &Input,
    set: &Set,
    at: Input::Position,
) -> bool
    requires at { IsBoundary (Input.text input.now) (Input.Position.offset at) }
    requires bytes { IsTrue Input.Units.ARE_BYTES }
    ensures { let text = Input.text input.now in
        result ≡ first_byte_is_one_of (Set.members set.now) (utf8_bytes_of_text_from_place text
        (place text (Input.Position.offset at))) }
{
    match input.peek_byte_right(at) {
        Some(byte) => set.contains(byte),
        None => false,
    }
}

// Checks whether these bytes occur at a position.
#[inline(always)]
fn has_bytes_at<Input: InputIndexer>(input: &Input, bytes: &[u8], at: Input::Position) -> bool
    requires at { IsBoundary (Input.text input.now) (Input.Position.offset at) }
    requires bytes { IsTrue Input.Units.ARE_BYTES }
    ensures { let text = Input.text input.now in
        result ≡ starts_with nat_eq (utf8_bytes_of_text_from_place text
        (place text (Input.Position.offset at))) bytes.now }
{
    let mut to = at;
    input.match_bytes(Forward, &mut to, bytes)
}

// Checks whether a position is tried when the search reaches it.
fn admits_start<Input: InputIndexer>(
    input: &Input,
    start: &StartPredicate,
    at: Input::Position,
) -> bool
    requires at { IsBoundary (Input.text input.now) (Input.Position.offset at) }
    requires bytes { IsTrue Input.Units.ARE_BYTES }
    ensures { let text = Input.text input.now in
        result ≡ spec_admits_start (start_predicate_as_spec start.now) text (place text (Input.Position.offset at)) }
{
    match start {
        StartPredicate::Arbitrary | StartPredicate::StartAnchored => true,
        StartPredicate::ByteSet1(set) => starts_with_byte_in(input, set, at),
        StartPredicate::ByteSet2(set) => starts_with_byte_in(input, set, at),
        StartPredicate::ByteSet3(set) => starts_with_byte_in(input, set, at),
        StartPredicate::ByteBracket(set) => starts_with_byte_in(input, set, at),
        StartPredicate::ByteSeq(bytes) => has_bytes_at(input, bytes, at),
    }
}

/// Returns the first position at `from` or later that is tried. Returns `None` if there is none.
pub(crate) fn first_start_to_try<Input: InputIndexer>(
    input: &Input,
    start: &StartPredicate,
    from: Input::Position,
) -> Option<Input::Position>
    requires at { IsBoundary (Input.text input.now) (Input.Position.offset from) }
    requires bytes { IsTrue Input.Units.ARE_BYTES }
    ensures { let at = Input.Position.offset in
        IsFirstTriedStart (start_predicate_as_spec start.now) (Input.text input.now) (at from) (option_map at result) }
{
    let mut next = Some(from);
    'places: while let Some(at) = next {
        if admits_start(input, start, at) {
            return Some(at);
        }
        next = input.next_right_pos(at);
    }
    None
}

/// Returns the position that is tried after the failed start `tried`. Returns `None` if there is
/// none.
///
/// This holds for each tree with this start predicate, and a text of bytes.
pub(crate) fn next_start_to_try<Input: InputIndexer>(
    input: &Input,
    start: &StartPredicate,
    tried: Input::Position,
) -> Option<Input::Position>
    requires at { IsBoundary (Input.text input.now) (Input.Position.offset tried) }
    requires bytes { IsTrue Input.Units.ARE_BYTES }
    ensures { let at = Input.Position.offset in
        IsTriedStartAfterFailure (start_predicate_as_spec start.now) (Input.text input.now) (at tried)
        (option_map at result) }
{
    if start.is_anchored() {
        return None;
    }
    match input.next_right_pos(tried) {
        Some(next) => first_start_to_try(input, start, next),
        None => None,
    }
}
