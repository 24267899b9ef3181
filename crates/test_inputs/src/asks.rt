//! The questions to an input, and their answers.

use crate::answers::{
    before_the_end, byte, byte_count, character, character_and_end_to_left,
    character_and_end_to_right, classes, folded, folded_alone, found, here, moved, number, part,
    past_bytes, past_range, unit,
};
use crate::matches::{matching, past_char};
use regress_input::cursor::{Backward, Direction, Forward};
use regress_input::front::{BracketContents, Sameness};
use regress_input::indexing::{InputIndexer, law_reads_are_inverse};
use std::alloc::AllocError;

#[derive(Clone, Copy)]
pub(crate) struct Ask<'a> {
    // The direction. Empty if the question has none.
    pub(crate) way: &'a str,
    pub(crate) name: &'a str,
    pub(crate) numbers: [u32; 4],
    // The class with which the matchers of one character are tested.
    pub(crate) class: &'a BracketContents,
}

// The number of a character (if there is one), and an offset or another number.
pub(crate) type Answer = Option<(u32, usize)>;

// The answer to an unknown question, which no row expects.
const NO_QUESTION: Answer = Some((u32::MAX, usize::MAX));

fn at(offset: Option<usize>) -> Answer {
    Some((0, offset?))
}

fn numbered(number: Option<u32>) -> Answer {
    Some((number?, 0))
}

fn low_byte(number: u32) -> u8 {
    (number & 0xFF) as u8
}

fn beside<Input: InputIndexer, Dir: Direction>(input: &Input, dir: Dir, ask: &Ask<'_>) -> Answer {
    let [a, b, c, _] = ask.numbers;
    let place = a as usize;
    match ask.name {
        "character" => character(input, dir, place),
        "here" => here(input, dir, place),
        "byte" => byte(input, dir, place),
        "moved" => at(moved(input, dir, place, b as usize)),
        "moved_far" => at(moved(input, dir, usize::MAX - place, usize::MAX - b as usize)),
        "literal" => at(past_bytes(input, dir, place, &[low_byte(b)])),
        "literal2" => at(past_bytes(input, dir, place, &[low_byte(b), low_byte(c)])),
        "char" => at(past_char(input, dir, place, b)),
        name => match sameness(name) {
            Some(same) => at(past_range(input, dir, [place, b as usize, c as usize], same)),
            None => NO_QUESTION,
        },
    }
}

// Returns how a question about a range compares characters.
fn sameness(name: &str) -> Option<Sameness> {
    match name {
        "range" => Some(Sameness::Exact),
        "icase" => Some(Sameness::Folded),
        "alike" => Some(Sameness::Alike { unicode: false }),
        "alike_u" => Some(Sameness::Alike { unicode: true }),
        _ => None,
    }
}

fn of_text<Input: InputIndexer>(input: &Input, ask: &Ask<'_>) -> Answer {
    let [a, b, c, d] = ask.numbers;
    let place = a as usize;
    match ask.name {
        "part" => part(input, place, b as usize).0,
        "part_end" => Some((0, part(input, place, b as usize).1)),
        "before_end" => at(before_the_end(input, place)),
        "unit" => numbered(unit(input, place)),
        "bytes" => at(byte_count(input)),
        "find" => at(found(input, place, &[low_byte(b)])),
        "find2" => at(found(input, place, &[low_byte(b), low_byte(c)])),
        "find3" => at(found(input, place, &[low_byte(b), low_byte(c), low_byte(d)])),
        _ => of_encoding(input, ask),
    }
}

// Answers a question that is not about a text.
fn of_encoding<Input: InputIndexer>(input: &Input, ask: &Ask<'_>) -> Answer {
    let [code, other, _, _] = ask.numbers;
    match ask.name {
        "unicode" => Some((0, input.unicode() as usize)),
        "fold" => folded(input, code, other),
        "fold_alone" => numbered(folded_alone::<Input::CharProps>(code, other == 1)),
        "number" => numbered(number::<Input::Element>(code)),
        "classes" => at(classes::<Input::CharProps>(code)),
        _ => NO_QUESTION,
    }
}

fn answer<Input: InputIndexer>(input: &Input, ask: &Ask<'_>) -> Answer {
    let [place, _, _, _] = ask.numbers;
    match ask.way {
        "right" => beside(input, Forward::new(), ask),
        "left" => beside(input, Backward::new(), ask),
        "seen right" => character_and_end_to_right(input, place as usize),
        "seen left" => character_and_end_to_left(input, place as usize),
        _ => of_text(input, ask),
    }
}

fn matchers<Input: InputIndexer>(input: &Input, ask: &Ask<'_>) -> Option<[Option<usize>; 9]> {
    let [place, _, _, _] = ask.numbers;
    match ask.way {
        "right" => matching(input, Forward::new(), place as usize, ask.class),
        _ => matching(input, Backward::new(), place as usize, ask.class),
    }
}

pub(crate) fn write_offset(line: &mut String, offset: Option<usize>) -> Result<(), AllocError> {
    match offset {
        Some(offset) => write!(line, " {offset:X}"),
        None => line.push_str(" -"),
    }
}

fn write_matchers(
    line: &mut String,
    offsets: &Option<[Option<usize>; 9]>,
) -> Result<(), AllocError> {
    if let Some(offsets) = offsets {
        for offset in offsets {
            write_offset(line, *offset)?;
        }
    }
    Ok(())
}

fn write_numbers(line: &mut String, answer: Answer) -> Result<(), AllocError> {
    match answer {
        Some((c, number)) => write!(line, " {c:X} {number:X}"),
        None => line.push_str(" -"),
    }
}

// Writes the answer of an input. Each number follows a blank.
pub(crate) fn write_answer<Input: InputIndexer>(
    line: &mut String,
    input: &Input,
    ask: &Ask<'_>,
) -> Result<(), AllocError> {
    law_reads_are_inverse(input);
    if ask.name == "matchers" {
        return write_matchers(line, &matchers(input, ask));
    }
    write_numbers(line, answer(input, ask))
}
