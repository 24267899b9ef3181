//! Executes instructions that only read or test the text.

ghost use Rattle.std.specs.Prelude.{◌≡◌, ◌≤◌, IsTrue, IsSome, Some};
ghost use Rattle.regex_meaning.specs.CodeUnitOffsets.{IsBoundary, units};
ghost use Rattle.regress_input.specs.CharAndByteReadsFromOffset.{end_if_matched};
ghost use Rattle.regress_machine.specs.InsnEffects.{is_byte_sequence_insn};
ghost use Rattle.regress_program.specs.InsnsAsSpec.{insn_as_spec_insn};
ghost use Rattle.regress_search.specs.OffsetsAfterMatchedInsns.{HasPassed, ByteInsnHasByteText, offset_after_matched_insn, read_accepted_char, char_test_of_insn};

use regress_input::cursor::{self, Direction};
use regress_input::indexing::InputIndexer;
use regress_program::insn::Insn;
use regress_search::insns_that_read_or_test_text::{
    accepts, at_line_end, at_line_start, bytes_of_literal_insn, passes_word_boundary,
};
use regress_search::program_and_input::ProgramAndInput;

/// Checks whether an instruction that reads one character accepts the next character in the
/// direction. If so, the position is moved past the character; otherwise it is unspecified. The
/// clause (`HasPassed`) says both.
#[inline(always)]
pub fn consume_next_char_if_accepted<Input: InputIndexer, Dir: Direction>(
    searched: &ProgramAndInput<'_, Input>,
    insn: Insn,
    dir: Dir,
    pos: &mut Input::Position,
) -> bool
    requires test { IsSome (char_test_of_insn searched.now.program.now insn) }
    requires at { IsBoundary (Input.text searched.now.input) (Input.Position.offset pos.old) }
    requires bytes { ByteInsnHasByteText insn (Input.text searched.now.input) Input.Units.ARE_BYTES }
    ensures { let s = searched.now in let at = Input.Position.offset in
        HasPassed (Input.text s.input) Dir.FORWARD s.program.now insn (at pos.old) result (at pos.new) }
{
    match cursor::next(&searched.input, dir, pos) {
        Some(c) => accepts::<Input>(insn, searched.program, c),
        None => false,
    }
}

// Like `consume_next_char_if_accepted`, but the position may be no boundary and the instruction may
// be another one. The precondition `can` excludes these cases.
#[inline(always)]
fn consume_char_if_accepted<Input: InputIndexer, Dir: Direction>(
    searched: &ProgramAndInput<'_, Input>,
    insn: Insn,
    dir: Dir,
    pos: &mut Input::Position,
) -> bool
    requires executable { let s = searched.now in
        IsSome (read_accepted_char (Input.text s.input) Dir.FORWARD
        s.program.now insn (Input.Position.offset pos.old)) }
    requires bytes { ByteInsnHasByteText insn (Input.text searched.now.input) Input.Units.ARE_BYTES }
    ensures { let s = searched.now in let at = Input.Position.offset in
        Some (end_if_matched result (at pos.new))
        ≡ read_accepted_char (Input.text s.input) Dir.FORWARD s.program.now insn (at pos.old) }
{
    consume_next_char_if_accepted(searched, insn, dir, pos)
}

// Checks whether the bytes of the instruction are next in the direction, from any offset. If so,
// the position is moved past them; otherwise it is unspecified.
#[inline(always)]
fn consume_literal_if_next<Input: InputIndexer, Dir: Direction>(
    searched: &ProgramAndInput<'_, Input>,
    insn: Insn,
    dir: Dir,
    pos: &mut Input::Position,
) -> bool
    requires literal { IsTrue (is_byte_sequence_insn (insn_as_spec_insn insn)) }
    requires bytes { ByteInsnHasByteText insn (Input.text searched.now.input) Input.Units.ARE_BYTES }
    requires inside { Input.Position.offset pos.old ≤ units (Input.text searched.now.input) }
    ensures { let s = searched.now in let at = Input.Position.offset in
        Some (end_if_matched result (at pos.new))
        ≡ offset_after_matched_insn s.program.now (Input.text s.input) Dir.FORWARD insn (at pos.old) }
{
    searched
        .input
        .match_bytes(dir, pos, bytes_of_literal_insn(&insn))
}

/// Checks whether an instruction that only reads or tests the text matches at a position. If so,
/// the position is moved to where matching continues; otherwise it is unspecified.
#[inline(always)]
pub(crate) fn match_read_or_assertion_insn<Input: InputIndexer, Dir: Direction>(
    searched: &ProgramAndInput<'_, Input>,
    insn: Insn,
    dir: Dir,
    pos: &mut Input::Position,
) -> bool
    requires executable { let s = searched.now in
        IsSome (offset_after_matched_insn s.program.now (Input.text s.input)
        Dir.FORWARD insn (Input.Position.offset pos.old)) }
    requires bytes { ByteInsnHasByteText insn (Input.text searched.now.input) Input.Units.ARE_BYTES }
    requires inside { Input.Position.offset pos.old ≤ units (Input.text searched.now.input) }
    ensures { let s = searched.now in let at = Input.Position.offset in
        Some (end_if_matched result (at pos.new))
        ≡ offset_after_matched_insn s.program.now (Input.text s.input) Dir.FORWARD insn (at pos.old) }
{
    let input = &searched.input;
    match insn {
        Insn::StartOfLine { multiline } => at_line_start(input, multiline, *pos),
        Insn::EndOfLine { multiline } => at_line_end(input, multiline, *pos),
        Insn::WordBoundary { invert } => passes_word_boundary(input, invert, false, *pos),
        Insn::WordBoundaryUnicodeICase { invert } => passes_word_boundary(
            input, invert, true, *pos,
        ),
        Insn::JustFail => false,
        Insn::Char(_) => consume_char_if_accepted(searched, insn, dir, pos),
        Insn::CharSet(_) => consume_char_if_accepted(searched, insn, dir, pos),
        Insn::ByteSet2(_) => consume_char_if_accepted(searched, insn, dir, pos),
        Insn::ByteSet3(_) => consume_char_if_accepted(searched, insn, dir, pos),
        Insn::ByteSet4(_) => consume_char_if_accepted(searched, insn, dir, pos),
        Insn::AsciiBracket(_) => consume_char_if_accepted(searched, insn, dir, pos),
        Insn::Bracket(_) => consume_char_if_accepted(searched, insn, dir, pos),
        Insn::MatchAny => consume_char_if_accepted(searched, insn, dir, pos),
        Insn::MatchAnyExceptLineTerminator => consume_char_if_accepted(searched, insn, dir, pos),
        _ => consume_literal_if_next(searched, insn, dir, pos),
    }
}
