//! Reading characters and bytes in a direction.

ghost use Rattle.std.specs.Prelude.{◌≡◌, ◌≤◌, ℕ, IfSome, IfNone, option_map};
ghost use Rattle.regex_meaning.specs.CodeUnitOffsets.{IsBoundary, units, read};
ghost use Rattle.regress_input.specs.CharAndByteReadsFromOffset.{direction_of_forward_flag, end_if_matched, bytes_of, adjacent_byte, past_numbers_if_next, read_if_units_are_bytes};
ghost use Rattle.regress_input.specs.CharAndByteReadsFromOffset.{offset_after_one_unit};

use crate::indexing::InputIndexer;
pub use crate::position::{Backward, Direction, Forward};

/// Returns the next character in the direction and moves `pos` past it. Returns `None`, and leaves
/// `pos` unchanged, at the end of the text in that direction.
#[inline(always)]
pub fn next<Input: InputIndexer, Dir: Direction>(
    input: &Input,
    _dir: Dir,
    pos: &mut Input::Position,
) -> Option<Input::Element>
    requires { IsBoundary (Input.text input.now) (Input.Position.offset pos.old) }
    ensures read { let at = Input.Position.offset in
        option_map (λ e. (Input.Element.number e, at pos.new)) result
        ≡ read (Input.text input.now) (direction_of_forward_flag Dir.FORWARD) (at pos.old) }
    ensures stays { IfNone result (pos.new ≡ pos.old) }
    ensures boundary { IsBoundary (Input.text input.now) (Input.Position.offset pos.new) }
    ensures inside { Input.Position.offset pos.new ≤ units (Input.text input.now) }
{
    if Dir::FORWARD {
        input.next_right(pos)
    } else {
        input.next_left(pos)
    }
}

/// Returns the next byte in the direction from any offset and moves `pos` past it. Returns `None`,
/// and leaves `pos` unchanged, at the end of the text in that direction or if code units are not
/// bytes. Between two bytes of a character, `pos` is not a boundary.
#[inline(always)]
pub fn next_byte<Input: InputIndexer, Dir: Direction>(
    input: &Input,
    _dir: Dir,
    pos: &mut Input::Position,
) -> Option<u8>
    requires inside { Input.Position.offset pos.old ≤ units (Input.text input.now) }
    ensures byte { result ≡ read_if_units_are_bytes Input.Units.ARE_BYTES (adjacent_byte
        (bytes_of (Input.text input.now)) (direction_of_forward_flag Dir.FORWARD) (Input.Position.offset pos.old)) }
    ensures moves { let at = Input.Position.offset in
        IfSome result (λ _. at pos.new ≡ offset_after_one_unit (direction_of_forward_flag Dir.FORWARD) (at pos.old)) }
    ensures stays { IfNone result (pos.new ≡ pos.old) }
{
    if Dir::FORWARD {
        let byte = input.peek_byte_right(*pos)?;
        *pos += 1;
        Some(byte)
    } else {
        let byte = input.peek_byte_left(*pos)?;
        *pos -= 1;
        Some(byte)
    }
}

/// Checks whether `bytes` occur next to any offset in the direction, read left to right. They never
/// do if code units are not bytes. If they do, `pos` is moved past them; otherwise its new value is
/// unspecified.
#[inline(always)]
pub fn try_match_lit<const N: usize, Input: InputIndexer, Dir: Direction>(
    input: &Input,
    dir: Dir,
    pos: &mut Input::Position,
    bytes: &[u8; N],
) -> bool
    requires inside { Input.Position.offset pos.old ≤ units (Input.text input.now) }
    ensures { end_if_matched result (Input.Position.offset pos.new)
        ≡ read_if_units_are_bytes Input.Units.ARE_BYTES (past_numbers_if_next (bytes_of (Input.text input.now))
        bytes.now (direction_of_forward_flag Dir.FORWARD) (Input.Position.offset pos.old)) }
{
    input.match_bytes(dir, pos, bytes)
}
