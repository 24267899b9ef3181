//! Inputs: texts that are read character by character.

ghost use Rattle.std.specs.Prelude.{◌≡◌, ◌<◌, ◌≤◌, ◌^◌, map, option_map, IfSome, IfNone, IsTrue, Some, slice_get};
ghost use Rattle.std.specs.List.{list_all};
ghost use Rattle.regex_meaning.specs.{Text.{Text, rightwards, leftwards}, CodeUnitOffsets.{HasRisingPlaceOffsets, IsBoundary, units, read}};
ghost use Rattle.regex_meaning.specs.CodeUnits.{text_units_in_encoding, HasOffsetsInEncoding, is_character_in_encoding};
ghost use Rattle.regress_input.specs.CharAndByteReadsFromOffset.{direction_of_forward_flag, end_if_matched, same_fold, character, past as spec_past, past_repeated_range_if_next, part};
ghost use Rattle.regress_input.specs.CharAndByteReadsFromOffset.{ReadsAreInverse, moved_by_units};
ghost use Rattle.regress_input.specs.TextCodeUnits.{UnitsOccurWhereCharactersDo};
ghost use Rattle.regress_input.specs.CharAndByteReadsFromOffset.{bytes_of, bytes_if_byte_units, IsEncodedInUtf8, adjacent_byte, past_numbers_if_next, read_if_units_are_bytes, IsFirstOccurrenceFrom};

mod ascii_input;
mod ucs2_input;
mod utf16_input;
mod utf8_input;

pub use self::ascii_input::{ASCIICharProperties, AsciiInput};
pub use self::ucs2_input::{Ucs2Input, Utf16CharProperties};
pub use self::utf8_input::{UTF8CharProperties, Utf8Input};
pub use self::utf16_input::Utf16Input;
pub use crate::characters_and_properties::{CharProperties, ElementType};
use crate::code_unit_slices;
pub use crate::code_units::{
    ByteCodeUnitEncoding, CodeUnit, CodeUnitEncoding, DeclaresWhetherUnitsAreBytes, HasUnitType,
    LANES, Ucs2CodeUnitEncoding, Utf16CodeUnitEncoding,
};
use crate::front::ByteSearcher;
use crate::position::{Direction, PositionType};
pub use crate::utf16_decoding::is_unit_boundary;
use std::fmt::Debug;
use std::ops::Range;

/// A text that can be read from any boundary. Contracts see the text (`text`).
pub trait InputIndexer: Copy + Debug + DeclaresWhetherUnitsAreBytes {
    /// The type of its characters, which are read one at a time.
    type Element: ElementType;

    /// The fold and the classes of its characters.
    type CharProps: CharProperties<Element = Self::Element>;

    /// The type of its positions.
    type Position: PositionType;

    ghost text: { Self → Text };

    /// Returns whether characters are folded as with the flag `u`.
    fn unicode(&self) -> bool
        ensures { result ≡ (text self.now).unicode };

    /// Returns the code units that encode the characters. A range of them occurs again where its
    /// characters do.
    fn code_units(&self) -> &[<Self::Units as CodeUnitEncoding>::Unit]
        ensures units { map Self.Units.Unit.number result.now
            ≡ text_units_in_encoding Self.Units.encoding (text self.now) }
        ensures again { UnitsOccurWhereCharactersDo Self.Units.encoding
            (map Self.Units.Unit.number result.now) (text self.now) };

    /// Returns the character to the right of a boundary that is not the right end, and the position
    /// past it.
    fn read_existing_char_right(&self, pos: Self::Position) -> (Self::Element, Self::Position)
        requires at { IsBoundary (text self.now) (Self.Position.offset pos) }
        requires inside { Self.Position.offset pos < units (text self.now) }
        ensures { let at = Self.Position.offset in
            read (text self.now) rightwards (at pos) ≡ Some (Self.Element.number result.0, at result.1) };

    /// Returns the character to the left of a boundary that is not the left end, and the position
    /// before it.
    fn read_existing_char_left(&self, pos: Self::Position) -> (Self::Element, Self::Position)
        requires at { IsBoundary (text self.now) (Self.Position.offset pos) }
        requires inside { 0 < Self.Position.offset pos }
        ensures { let at = Self.Position.offset in
            read (text self.now) leftwards (at pos) ≡ Some (Self.Element.number result.0, at result.1) };

    /// Returns the text between two boundaries. Its positions are counted from its own left end.
    fn text_between(&self, start: Self::Position, end: Self::Position) -> Self
        requires from { IsBoundary (text self.now) (Self.Position.offset start) }
        requires to { IsBoundary (text self.now) (Self.Position.offset end) }
        requires in_order { Self.Position.offset start ≤ Self.Position.offset end }
        ensures { let at = Self.Position.offset in text result ≡ part (text self.now) (at start) (at end) };

    ghost is_text: { (it : Self) → HasRisingPlaceOffsets (text it) };

    // Offsets are below 2^63, so one offset is left for the value that stands for no position.
    ghost offsets_fit: { (it : Self) → units (text it) < 2 ^ 63 };

    ghost spelled: { (it : Self) → HasOffsetsInEncoding Self.Units.encoding (text it) };

    ghost characters: { (it : Self) → IsTrue (list_all (is_character_in_encoding Self.Units.encoding)
        (text it).characters) };

    // If code units are bytes, they are those of UTF-8.
    ghost in_utf8: { (it : Self) → IsTrue Self.Units.ARE_BYTES → IsEncodedInUtf8 (text it) };

    ghost folds: { (it : Self) → (text it).fold ≡ Self.CharProps.folded (text it).unicode };

    /// Returns the fold of a character, which represents it if case is ignored.
    #[inline(always)]
    final fn fold(&self, c: Self::Element) -> Self::Element
        ensures { Self.Element.number result ≡ (text self.now).fold (Self.Element.number c) }
    {
        Self::CharProps::fold(c, self.unicode())
    }

    /// Returns the length in code units.
    #[inline(always)]
    final fn unit_count(&self) -> usize
        ensures { result ≡ units (text self.now) }
    {
        self.code_units().len()
    }

    /// Returns the bytes, or `None` if code units are not bytes.
    #[inline(always)]
    final fn as_bytes(&self) -> Option<&[u8]>
        ensures { option_map (λ all. all.now) result ≡ bytes_if_byte_units Self.Units.ARE_BYTES (text self.now) }
    {
        <Self::Units as CodeUnitEncoding>::Unit::as_bytes(self.code_units())
    }

    /// Returns the code unit at any offset that is not the right end.
    #[inline(always)]
    final fn unit(&self, pos: Self::Position) -> u32
        requires { Self.Position.offset pos < units (text self.now) }
        ensures { slice_get (text_units_in_encoding Self.Units.encoding (text self.now)) (Self.Position.offset pos)
            ≡ Some result }
    {
        let unit = self.code_units()[pos.to_offset()];
        unit.to_u32()
    }

    /// Returns the position past the character to the right of a boundary that is not the right
    /// end.
    #[inline(always)]
    final fn past(&self, pos: Self::Position) -> Self::Position
        requires at { IsBoundary (text self.now) (Self.Position.offset pos) }
        requires inside { Self.Position.offset pos < units (text self.now) }
        ensures { let at = Self.Position.offset in
            spec_past (text self.now) rightwards (at pos) ≡ Some (at result) }
    {
        let (_c, to) = self.read_existing_char_right(pos);
        to
    }

    /// Returns the position before the character to the left of a boundary that is not the left
    /// end.
    #[inline(always)]
    final fn before(&self, pos: Self::Position) -> Self::Position
        requires at { IsBoundary (text self.now) (Self.Position.offset pos) }
        requires inside { 0 < Self.Position.offset pos }
        ensures { let at = Self.Position.offset in
            spec_past (text self.now) leftwards (at pos) ≡ Some (at result) }
    {
        let (_c, to) = self.read_existing_char_left(pos);
        to
    }

    /// Returns the position past the characters between the boundaries `start` and `end` if they
    /// occur again next to the boundary `pos` in the direction, read left to right, and `None`
    /// otherwise.
    #[inline(always)]
    final fn past_again<Dir: Direction>(
        &self,
        _dir: Dir,
        pos: Self::Position,
        start: Self::Position,
        end: Self::Position,
    ) -> Option<Self::Position>
        requires at { IsBoundary (text self.now) (Self.Position.offset pos) }
        requires from { IsBoundary (text self.now) (Self.Position.offset start) }
        requires to { IsBoundary (text self.now) (Self.Position.offset end) }
        requires in_order { Self.Position.offset start ≤ Self.Position.offset end }
        ensures { let at = Self.Position.offset in option_map at result
            ≡ past_repeated_range_if_next (text self.now) (at start) (at end)
            (direction_of_forward_flag Dir.FORWARD) (at pos) }
    {
        let all = self.code_units();
        let at = pos.to_offset();
        let to = code_unit_slices::past_repeated_range_if_next(
            all,
            Dir::FORWARD,
            at,
            start.to_offset(),
            end.to_offset(),
        );
        code_unit_slices::position_at(Self::Units::unless_splitting_pair(all, to))
    }

    /// Checks whether two characters are equal or have equal folds.
    #[inline(always)]
    final fn fold_equals(&self, c1: Self::Element, c2: Self::Element) -> bool
        ensures { result ≡ same_fold (text self.now).fold (Self.Element.number c1) (Self.Element.number c2) }
    {
        c1.as_u32() == c2.as_u32() || self.fold(c1).as_u32() == self.fold(c2).as_u32()
    }

    /// Returns the left end.
    #[inline(always)]
    final fn left_end(&self) -> Self::Position
        ensures offset { Self.Position.offset result ≡ 0 }
        ensures boundary { IsBoundary (text self.now) (Self.Position.offset result) }
    {
        Self::Position::from_offset(0)
    }

    /// Returns the right end.
    #[inline(always)]
    final fn right_end(&self) -> Self::Position
        ensures offset { Self.Position.offset result ≡ units (text self.now) }
        ensures boundary { IsBoundary (text self.now) (Self.Position.offset result) }
    {
        Self::Position::from_offset(self.unit_count())
    }

    /// Returns the offset of a position in code units.
    #[inline(always)]
    final fn pos_to_offset(&self, pos: Self::Position) -> usize
        ensures { result ≡ Self.Position.offset pos }
    {
        pos.to_offset()
    }

    /// Returns the text between two boundaries. Its positions are counted from its own left end.
    #[inline(always)]
    final fn subinput(&self, range: Range<Self::Position>) -> Self
        requires from { IsBoundary (text self.now) (Self.Position.offset range.start) }
        requires to { IsBoundary (text self.now) (Self.Position.offset range.end) }
        requires in_order { Self.Position.offset range.start ≤ Self.Position.offset range.end }
        ensures { let at = Self.Position.offset in
            text result ≡ part (text self.now) (at range.start) (at range.end) }
    {
        self.text_between(range.start, range.end)
    }

    /// Returns the character to the right and moves `pos` past it. Returns `None`, and leaves `pos`
    /// unchanged, at the right end.
    #[inline(always)]
    final fn next_right(&self, pos: &mut Self::Position) -> Option<Self::Element>
        requires { IsBoundary (text self.now) (Self.Position.offset pos.old) }
        ensures read { let at = Self.Position.offset in
            option_map (λ e. (Self.Element.number e, at pos.new)) result
            ≡ read (text self.now) rightwards (at pos.old) }
        ensures stays { IfNone result (pos.new ≡ pos.old) }
        ensures ahead { IfSome result (λ _. Self.Position.offset pos.old < Self.Position.offset pos.new) }
        ensures boundary { IsBoundary (text self.now) (Self.Position.offset pos.new) }
        ensures inside { Self.Position.offset pos.new ≤ units (text self.now) }
    {
        if pos.to_offset() == self.unit_count() {
            return None;
        }
        let (c, to) = self.read_existing_char_right(*pos);
        *pos = to;
        Some(c)
    }

    /// Returns the character to the left and moves `pos` before it. Returns `None`, and leaves
    /// `pos` unchanged, at the left end.
    #[inline(always)]
    final fn next_left(&self, pos: &mut Self::Position) -> Option<Self::Element>
        requires { IsBoundary (text self.now) (Self.Position.offset pos.old) }
        ensures read { let at = Self.Position.offset in
            option_map (λ e. (Self.Element.number e, at pos.new)) result
            ≡ read (text self.now) leftwards (at pos.old) }
        ensures stays { IfNone result (pos.new ≡ pos.old) }
        ensures ahead { IfSome result (λ _. Self.Position.offset pos.new < Self.Position.offset pos.old) }
        ensures boundary { IsBoundary (text self.now) (Self.Position.offset pos.new) }
        ensures inside { Self.Position.offset pos.new ≤ units (text self.now) }
    {
        if pos.to_offset() == 0 {
            return None;
        }
        let (c, to) = self.read_existing_char_left(*pos);
        *pos = to;
        Some(c)
    }

    /// Returns the position past the character to the right, or `None` at the right end.
    #[inline(always)]
    final fn next_right_pos(&self, pos: Self::Position) -> Option<Self::Position>
        requires { IsBoundary (text self.now) (Self.Position.offset pos) }
        ensures read { let at = Self.Position.offset in
            option_map at result ≡ spec_past (text self.now) rightwards (at pos) }
        ensures ahead { IfSome result (λ p. Self.Position.offset pos < Self.Position.offset p) }
        ensures boundary { IfSome result (λ p. IsBoundary (text self.now) (Self.Position.offset p)) }
        ensures inside { IfSome result (λ p. Self.Position.offset p ≤ units (text self.now)) }
    {
        if pos.to_offset() == self.unit_count() {
            return None;
        }
        Some(self.past(pos))
    }

    /// Returns the position before the character to the left, or `None` at the left end.
    #[inline(always)]
    final fn next_left_pos(&self, pos: Self::Position) -> Option<Self::Position>
        requires { IsBoundary (text self.now) (Self.Position.offset pos) }
        ensures read { let at = Self.Position.offset in
            option_map at result ≡ spec_past (text self.now) leftwards (at pos) }
        ensures ahead { IfSome result (λ p. Self.Position.offset p < Self.Position.offset pos) }
        ensures boundary { IfSome result (λ p. IsBoundary (text self.now) (Self.Position.offset p)) }
        ensures inside { IfSome result (λ p. Self.Position.offset p ≤ units (text self.now)) }
    {
        if pos.to_offset() == 0 {
            return None;
        }
        Some(self.before(pos))
    }

    /// Returns the character to the right, or `None` at the right end.
    #[inline(always)]
    final fn peek_right(&self, pos: Self::Position) -> Option<Self::Element>
        requires { IsBoundary (text self.now) (Self.Position.offset pos) }
        ensures { option_map Self.Element.number result
            ≡ character (text self.now) rightwards (Self.Position.offset pos) }
    {
        let mut at = pos;
        self.next_right(&mut at)
    }

    /// Returns the character to the left, or `None` at the left end.
    #[inline(always)]
    final fn peek_left(&self, pos: Self::Position) -> Option<Self::Element>
        requires { IsBoundary (text self.now) (Self.Position.offset pos) }
        ensures { option_map Self.Element.number result
            ≡ character (text self.now) leftwards (Self.Position.offset pos) }
    {
        let mut at = pos;
        self.next_left(&mut at)
    }

    /// Returns the number of the character to the right of a boundary that is not the right end.
    #[inline(always)]
    final fn code(&self, pos: Self::Position) -> u32
        requires at { IsBoundary (text self.now) (Self.Position.offset pos) }
        requires inside { Self.Position.offset pos < units (text self.now) }
        ensures { character (text self.now) rightwards (Self.Position.offset pos) ≡ Some result }
    {
        let (c, _to) = self.read_existing_char_right(pos);
        c.as_u32()
    }

    /// Returns the byte to the right of any offset, or `None` at the right end or if code units
    /// are not bytes.
    #[inline(always)]
    final fn peek_byte_right(&self, pos: Self::Position) -> Option<u8>
        requires inside { Self.Position.offset pos ≤ units (text self.now) }
        ensures { result ≡ read_if_units_are_bytes Self.Units.ARE_BYTES
            (adjacent_byte (bytes_of (text self.now)) rightwards (Self.Position.offset pos)) }
    {
        match self.as_bytes() {
            Some(all) => code_unit_slices::byte_right(all, pos.to_offset()),
            None => None,
        }
    }

    /// Returns the byte to the left of any offset, or `None` at the left end or if code units are
    /// not bytes.
    #[inline(always)]
    final fn peek_byte_left(&self, pos: Self::Position) -> Option<u8>
        requires inside { Self.Position.offset pos ≤ units (text self.now) }
        ensures { result ≡ read_if_units_are_bytes Self.Units.ARE_BYTES
            (adjacent_byte (bytes_of (text self.now)) leftwards (Self.Position.offset pos)) }
    {
        match self.as_bytes() {
            Some(all) => code_unit_slices::byte_left(all, pos.to_offset()),
            None => None,
        }
    }

    /// Returns the position `amt` code units to the right, or `None` if that is past the right end.
    /// `pos` may be any position, even one that is past the right end already.
    #[inline(always)]
    final fn try_move_right(&self, pos: Self::Position, amt: usize) -> Option<Self::Position>
        ensures { let at = Self.Position.offset in
            option_map at result ≡ moved_by_units (units (text self.now)) rightwards amt (at pos) }
    {
        let to = code_unit_slices::offset_moved_right(self.unit_count(), pos.to_offset(), amt);
        code_unit_slices::position_at(to)
    }

    /// Returns the position `amt` code units to the left, or `None` if that is past the left end.
    /// `pos` may be any position. If `pos` is past the right end and the move still ends past it,
    /// the result is also `None`.
    #[inline(always)]
    final fn try_move_left(&self, pos: Self::Position, amt: usize) -> Option<Self::Position>
        ensures { let at = Self.Position.offset in
            option_map at result ≡ moved_by_units (units (text self.now)) leftwards amt (at pos) }
    {
        let to = code_unit_slices::offset_moved_left(self.unit_count(), pos.to_offset(), amt);
        code_unit_slices::position_at(to)
    }

    /// Returns the first position, from any offset on, at which the searched bytes occur. Returns
    /// `None` if there is none or if code units are not bytes.
    #[inline(always)]
    final fn find_bytes<Search: ByteSearcher>(
        &self,
        pos: Self::Position,
        search: &Search,
    ) -> Option<Self::Position>
        requires inside { Self.Position.offset pos ≤ units (text self.now) }
        ensures { let at = Self.Position.offset in
            IsFirstOccurrenceFrom Self.Units.ARE_BYTES (Search.stands_at search.now)
            (bytes_of (text self.now)) (at pos) (option_map at result) }
    {
        match self.as_bytes() {
            Some(all) => code_unit_slices::position_at(code_unit_slices::find_by_byte_searcher_from(
                all,
                pos.to_offset(),
                search,
            )),
            None => None,
        }
    }

    /// Checks whether the characters of `range` occur next to the boundary `pos` in the direction,
    /// read left to right. If so, `pos` is moved past them; otherwise its new value is unspecified.
    #[inline(always)]
    final fn subrange_eq<Dir: Direction>(
        &self,
        dir: Dir,
        pos: &mut Self::Position,
        range: Range<Self::Position>,
    ) -> bool
        requires at { IsBoundary (text self.now) (Self.Position.offset pos.old) }
        requires from { IsBoundary (text self.now) (Self.Position.offset range.start) }
        requires to { IsBoundary (text self.now) (Self.Position.offset range.end) }
        requires in_order { Self.Position.offset range.start ≤ Self.Position.offset range.end }
        ensures { let at = Self.Position.offset in end_if_matched result (at pos.new)
            ≡ past_repeated_range_if_next (text self.now) (at range.start) (at range.end)
            (direction_of_forward_flag Dir.FORWARD) (at pos.old) }
    {
        let to = self.past_again(dir, *pos, range.start, range.end);
        code_unit_slices::move_position_if_some(pos, to)
    }

    /// Checks whether `bytes` occur next to any offset in the direction, read left to right. They
    /// never do if code units are not bytes. If they do, `pos` is moved past them; otherwise its
    /// new value is unspecified.
    #[inline(always)]
    final fn match_bytes<Dir: Direction>(
        &self,
        _dir: Dir,
        pos: &mut Self::Position,
        bytes: &[u8],
    ) -> bool
        requires inside { Self.Position.offset pos.old ≤ units (text self.now) }
        ensures { let at = Self.Position.offset in
            end_if_matched result (at pos.new) ≡ read_if_units_are_bytes Self.Units.ARE_BYTES
            (past_numbers_if_next (bytes_of (text self.now)) bytes.now (direction_of_forward_flag Dir.FORWARD)
            (at pos.old)) }
    {
        let Some(all) = self.as_bytes() else {
            return false;
        };
        let to = code_unit_slices::past_units_if_next(all, Dir::FORWARD, pos.to_offset(), bytes);
        code_unit_slices::move_position_if_some(pos, code_unit_slices::position_at(to))
    }
}

/// States a law and does nothing: a read to the right and a read to the left are inverse to each
/// other. Each returns the character that the other one returned, and ends where the other one
/// began.
pub fn law_reads_are_inverse<Input: InputIndexer>(_input: &Input)
    ensures right_then_left { ReadsAreInverse (Input.text _input.now) rightwards leftwards }
    ensures left_then_right { ReadsAreInverse (Input.text _input.now) leftwards rightwards }
{}
