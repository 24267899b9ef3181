//! Instructions that only read the text, or test the characters next to a position.

ghost use Rattle.std.specs.Prelude.{◌≡◌, IsTrue, IsSome, Some, option_map, nat_eq, encode_utf8_all, [], ◌∷◌};
ghost use lib.Pointwise.{pointwise};
ghost use Rattle.regex_meaning.specs.{Text.{is_scalar, is_word_char}, Tree.{start_of_line, end_of_line}, Outcomes.{is_at_word_boundary, is_line_boundary, is_some_and, exclusive_or}};
ghost use Rattle.regex_meaning.specs.CodeUnitOffsets.{IsBoundary};
ghost use Rattle.regex_meaning.specs.CompilationRelation.{ByteSeq, Bracket};
ghost use Rattle.regex_pattern_front.specs.AstToSpecTree.{spec_sameness_of, tree_of};
ghost use Rattle.regress_input.specs.CharAndByteReadsFromOffset.{end_if_matched, place};
ghost use Rattle.regress_program.specs.{CompilationOfTreesAsFunction.{compiled}, InsnsAsSpec.{insn_as_spec_insn}};
ghost use Rattle.regress_machine.specs.{Machine.{test_of}, InsnEffects.{is_byte_sequence_insn}};
ghost use Rattle.regress_search.specs.OffsetsAfterMatchedInsns.{anchor_matches_at, offset_after_repeated_text, char_test_of_insn};

use regress_input::cursor::Direction;
use regress_input::front::{ByteSet, Sameness};
use regress_input::indexing::{CharProperties, ElementType, InputIndexer};
use regress_input::matchers;
use regress_input::scm::is_one_of_four_chars;
use regress_program::insn::{Insn, Program};

// ---- One character

/// Returns the bytes of an instruction that reads a byte sequence.
#[inline(always)]
pub fn bytes_of_literal_insn(insn: &Insn) -> &[u8]
    requires { IsTrue (is_byte_sequence_insn (insn_as_spec_insn insn.now)) }
    ensures { insn_as_spec_insn insn.now ≡ ByteSeq result.now }
{
    match insn.bytes_of_literal_insn() {
        Some(bytes) => bytes,
        None => unreachable!(),
    }
}

// Checks whether `bytes` are the UTF-8 encoding of the character.
fn is_utf8_encoding_of_char(c: u32, bytes: &[u8]) -> bool
    requires { IsTrue (is_scalar c) }
    ensures { result ≡ pointwise nat_eq (encode_utf8_all (c ∷ [])) bytes.now }
{
    match char::from_u32(c) {
        Some(c) => {
            let mut buffer = [0; 4];
            c.encode_utf8(&mut buffer).as_bytes() == bytes
        }
        None => false,
    }
}

// Checks whether the bracket with this number contains the character.
fn bracket_contains_char<Input: InputIndexer>(
    program: &Program,
    index: usize,
    c: Input::Element,
) -> bool
    requires { IsSome (test_of (compiled (tree_of program.now)) (Some (Bracket index))) }
    ensures { Some result ≡ option_map (λ test. test (Input.Element.number c))
        (test_of (compiled (tree_of program.now)) (Some (Bracket index))) }
{
    Input::CharProps::bracket(&program.brackets()[index], c)
}

/// Checks whether an instruction that reads one character accepts `c`.
///
/// If the instruction reads byte sequences, `c` is a scalar value.
#[inline(always)]
pub fn accepts<Input: InputIndexer>(insn: Insn, program: &Program, c: Input::Element) -> bool
    requires test { IsSome (char_test_of_insn program.now insn) }
    requires scalar { IsTrue (is_byte_sequence_insn (insn_as_spec_insn insn)) → IsTrue
        (is_scalar (Input.Element.number c)) }
    ensures { Some result
        ≡ option_map (λ test. test (Input.Element.number c)) (char_test_of_insn program.now insn) }
{
    let code = c.as_u32();
    match insn {
        Insn::JustFail => false,
        Insn::Char(wanted) => code == wanted,
        Insn::CharSet(members) => is_one_of_four_chars(&members, code),
        Insn::ByteSet2(set) => set.byte_set_has_char(code),
        Insn::ByteSet3(set) => set.byte_set_has_char(code),
        Insn::ByteSet4(set) => set.byte_set_has_char(code),
        Insn::AsciiBracket(set) => set.byte_set_has_char(code),
        Insn::Bracket(index) => bracket_contains_char::<Input>(program, index, c),
        Insn::MatchAny => true,
        Insn::MatchAnyExceptLineTerminator => !Input::CharProps::is_line_terminator(c),
        _ => is_utf8_encoding_of_char(code, bytes_of_literal_insn(&insn)),
    }
}

// ---- Assertions

// Checks whether `beside`, the character next to a position, is missing or, with `multiline`, a
// line terminator.
#[inline(always)]
fn is_missing_or_line_terminator<Input: InputIndexer>(
    beside: Option<Input::Element>,
    multiline: bool,
) -> bool
    ensures { result ≡ is_line_boundary (option_map (λ e. Input.Element.number e) beside) multiline }
{
    match beside {
        None => true,
        Some(c) => multiline && Input::CharProps::is_line_terminator(c),
    }
}

// Checks whether `beside`, the character next to a position, is a word character.
#[inline(always)]
fn is_present_word_char<Input: InputIndexer>(
    beside: Option<Input::Element>,
    unicode_icase: bool,
) -> bool
    ensures { result ≡ is_some_and (option_map (λ e. Input.Element.number e) beside) (is_word_char unicode_icase) }
{
    match beside {
        None => false,
        Some(c) => {
            if unicode_icase {
                Input::CharProps::is_word_char_unicode_icase(c)
            } else {
                Input::CharProps::is_word_char(c)
            }
        }
    }
}

/// Checks whether the position is the start of the text or, with `multiline`, of a line.
#[inline(always)]
pub fn at_line_start<Input: InputIndexer>(
    input: &Input,
    multiline: bool,
    pos: Input::Position,
) -> bool
    requires { IsBoundary (Input.text input.now) (Input.Position.offset pos) }
    ensures { result ≡ anchor_matches_at (Input.text input.now) start_of_line multiline (Input.Position.offset pos) }
{
    is_missing_or_line_terminator::<Input>(input.peek_left(pos), multiline)
}

/// Checks whether the position is the end of the text or, with `multiline`, of a line.
#[inline(always)]
pub fn at_line_end<Input: InputIndexer>(
    input: &Input,
    multiline: bool,
    pos: Input::Position,
) -> bool
    requires { IsBoundary (Input.text input.now) (Input.Position.offset pos) }
    ensures { result ≡ anchor_matches_at (Input.text input.now) end_of_line multiline (Input.Position.offset pos) }
{
    is_missing_or_line_terminator::<Input>(input.peek_right(pos), multiline)
}

/// Checks whether the position is a word boundary. With `invert`, checks that it is not one.
#[inline(always)]
pub fn passes_word_boundary<Input: InputIndexer>(
    input: &Input,
    invert: bool,
    unicode_icase: bool,
    pos: Input::Position,
) -> bool
    requires { IsBoundary (Input.text input.now) (Input.Position.offset pos) }
    ensures { result ≡ exclusive_or invert (is_at_word_boundary (Input.text input.now)
        unicode_icase (place (Input.text input.now) (Input.Position.offset pos))) }
{
    let before = is_present_word_char::<Input>(input.peek_left(pos), unicode_icase);
    let behind = is_present_word_char::<Input>(input.peek_right(pos), unicode_icase);
    (before != behind) != invert
}

// ---- More than one character

/// Checks whether the characters between two boundaries occur again in the direction. If so, the
/// position is moved past them; otherwise it is unspecified. If `end` is not after `start`, there
/// are no characters.
#[inline(always)]
pub fn read_backref_text<Input: InputIndexer, Dir: Direction>(
    start: Input::Position,
    end: Input::Position,
    same: Sameness,
    input: &Input,
    dir: Dir,
    pos: &mut Input::Position,
) -> bool
    requires at { IsBoundary (Input.text input.now) (Input.Position.offset pos.old) }
    requires from { IsBoundary (Input.text input.now) (Input.Position.offset start) }
    requires to { IsBoundary (Input.text input.now) (Input.Position.offset end) }
    ensures { let at = Input.Position.offset in end_if_matched result (at pos.new)
        ≡ offset_after_repeated_text (Input.text input.now) Dir.FORWARD (spec_sameness_of same) (at start) (at end)
        (at pos.old) }
{
    if input.pos_to_offset(end) < input.pos_to_offset(start) {
        return true;
    }
    match same {
        Sameness::Exact => matchers::backref(input, dir, start..end, pos),
        Sameness::Folded => matchers::backref_icase(input, dir, start..end, pos),
        Sameness::Alike { unicode } => {
            let mut at = *pos;
            let matches = matchers::backref_canonical(input, dir, start..end, unicode, &mut at);
            *pos = at;
            matches
        }
    }
}
