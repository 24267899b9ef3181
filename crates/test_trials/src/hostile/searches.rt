//! Rows of searches. Each row is searched by all calls, and in each encoding that can hold its
//! text.

use crate::fault::ParseFault;
use crate::hostile::bytes::{Way, in_ascii, in_utf8, is_start};
use crate::hostile::fields::Fields;
use crate::hostile::patterns::{Compiled, compile};
use crate::hostile::units::Units;
use crate::hostile::wide::{
    all_in_ucs2, all_in_utf16, asked_in_ucs2, asked_in_utf16, is_unit_start,
};
use std::alloc::Global;

/// The word for an encoding that cannot hold the text or the tree.
const NOT_REPRESENTABLE: &str = "apart";

/// The word for a start at which a search may not begin.
const INVALID_START: &str = "no start";

/// How a text is encoded and searched.
#[derive(Clone, Copy)]
enum Search {
    Utf8(Way),
    Ascii(Way),
    Utf16,
    Utf16Asked,
    Ucs2,
    Ucs2Asked,
}

/// All searches.
const SEARCHES: [Search; 15] = [
    Search::Utf8(Way::First),
    Search::Utf8(Way::All),
    Search::Utf8(Way::Limited),
    Search::Utf8(Way::Asked),
    Search::Utf8(Way::CopyingAll),
    Search::Utf8(Way::CopyingAsked),
    Search::Ascii(Way::First),
    Search::Ascii(Way::All),
    Search::Ascii(Way::Asked),
    Search::Ascii(Way::CopyingAll),
    Search::Ascii(Way::CopyingAsked),
    Search::Utf16,
    Search::Utf16Asked,
    Search::Ucs2,
    Search::Ucs2Asked,
];

// A text, the start of its search, and the expected matches in each encoding.
#[derive(Clone, Copy)]
struct Row<'a> {
    text: &'a str,
    start: usize,
    bytes: &'a str,
    utf16: &'a str,
    ucs2: &'a str,
}

// Checks whether a search in bytes has the expected result.
fn agrees_in_bytes(re: &Compiled, row: Row<'_>, way: Way, ascii: bool) -> Result<bool, ParseFault> {
    let Row {
        text,
        start,
        bytes,
        ..
    } = row;
    if bytes == NOT_REPRESENTABLE {
        Ok(true)
    } else if ascii {
        if text.is_ascii() {
            in_ascii(re, text, start, bytes, way)
        } else {
            Ok(true)
        }
    } else if is_start(text, start) {
        in_utf8(re, text, start, bytes, way)
    } else {
        Ok(bytes == INVALID_START)
    }
}

// Checks whether a search in UTF-16 has the expected result.
fn agrees_in_utf16(re: &Compiled, row: Row<'_>, asked: bool) -> Result<bool, ParseFault> {
    let made = Units::of(row.text);
    let units = made.as_slice();
    if row.utf16 == NOT_REPRESENTABLE {
        Ok(true)
    } else if !is_unit_start(units, row.start) {
        Ok(row.utf16 == INVALID_START)
    } else if asked {
        asked_in_utf16(&re.units, units, row.start, row.utf16)
    } else {
        all_in_utf16(&re.regex, units, row.start, row.utf16)
    }
}

// Checks whether a search in UCS-2 has the expected result.
fn agrees_in_ucs2(re: &Compiled, row: Row<'_>, asked: bool) -> Result<bool, ParseFault> {
    let made = Units::of(row.text);
    let units = made.as_slice();
    if row.ucs2 == NOT_REPRESENTABLE {
        Ok(true)
    } else if asked {
        asked_in_ucs2(&re.units, units, row.start, row.ucs2)
    } else {
        all_in_ucs2(&re.regex, units, row.start, row.ucs2)
    }
}

fn agrees(re: &Compiled, row: Row<'_>, search: Search) -> Result<bool, ParseFault> {
    match search {
        Search::Utf8(way) => agrees_in_bytes(re, row, way, false),
        Search::Ascii(way) => agrees_in_bytes(re, row, way, true),
        Search::Utf16 => agrees_in_utf16(re, row, false),
        Search::Utf16Asked => agrees_in_utf16(re, row, true),
        Search::Ucs2 => agrees_in_ucs2(re, row, false),
        Search::Ucs2Asked => agrees_in_ucs2(re, row, true),
    }
}

// Checks whether all searches have the expected results. If an allocation fails, the search is
// repeated with the same pattern.
fn all_agree(re: &Compiled, row: Row<'_>) -> bool {
    let mut agree = true;
    for search in SEARCHES {
        let mut tried = agrees(re, row, search);
        if matches!(tried, Err(ParseFault::Refused)) {
            tried = agrees(re, row, search);
        }
        agree &= matches!(tried, Ok(true));
    }
    agree
}

/// Checks whether the searches of a row have the expected results, by the unoptimized and by the
/// optimized pattern.
pub fn agree(alloc: Global, line: &str) -> Result<bool, ParseFault> {
    let mut fields = Fields::of(line);
    let (pattern, flags) = (fields.next(), fields.next());
    let row = Row {
        text: fields.next(),
        start: fields.next().parse::<usize>().unwrap_or(0),
        bytes: fields.next(),
        utf16: fields.next(),
        ucs2: fields.next(),
    };
    let mut agree = true;
    for no_opt in [false, true] {
        agree &= all_agree(&compile(alloc, pattern, flags, no_opt)?, row);
    }
    Ok(agree)
}
