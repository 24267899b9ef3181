//! Searches in texts of 16-bit units.

use crate::calls::SearchCall;
use crate::lines::{write_match_if_any, write_ucs2, write_utf16};
use crate::patterns::{refusal, regex_of};
use crate::rows::{Row, compare};
use regress_match::{Regex, SearchError, is_unit_boundary};
use std::alloc::{AllocError, Global};

// Rows of six fields: a pattern, the letters of its flags, or `tree` if it is a tree in words, the
// units in hexadecimal, their encoding or `both`, a start, and all matches from there. Rows with
// one encoding are those in which the two differ.
pub const UNITS: &str = r#".~~61 D83D DE00 61~utf16~0~0..1; 1..3; 3..4
.~~61 D83D DE00 61~ucs2~0~0..1; 1..2; 2..3; 3..4
.~~D83D DE00~utf16~0~0..2
.~~D83D DE00~ucs2~0~0..1; 1..2
.~~DE00 D83D~both~0~0..1; 1..2
(.)\1~~D83D D83D DE00~utf16~0~
(.)\1~~D83D D83D DE00~ucs2~0~0..2 0..1
(.)\1~~D83D DE00 DE00~utf16~0~
(.)\1~~D83D DE00 DE00~ucs2~0~1..3 1..2
(.)\1~~DE00 DE00~both~0~0..2 0..1
([a-z])\1~~61 D83D D83D 62 62~both~0~3..5 3..4
(?<=(.))$~~D83D DE00~utf16~0~2..2 0..2
(?<=(.))$~~D83D DE00~ucs2~0~2..2 1..2
k~~D83D DE00 D83D DE00 D83D DE00 D83D DE00 D83D DE00 D83D DE00 D83D DE00 D83D DE00 D83D DE00 D83D DE00 D83D DE00 D83D DE00 D83D DE00 D83D DE00 D83D DE00 D83D DE00 D83D DE00 D83D DE00 D83D DE00 D83D DE00 6B~both~0~40..41
x~~178 178 178 178 178 178 178 178 178 178 178 178 178 178 178 178 178 178 178 178 178 178 178 178 178 178 178 178 178 178 178 178 178 178 178 178 178 178 178 178 78~both~0~40..41
^k~m~2019 2019 2019 2019 2019 2019 2019 2019 2019 2019 2019 2019 2019 2019 2019 2019 2019 2019 2019 2019 2019 2019 2019 2019 2019 2019 2019 2019 2019 2019 2019 2019 2019 2019 2019 2019 2019 2019 2019 2019 A 6B~both~0~41..42
j.*k~~6A 2019 2019 2019 2019 2019 2019 2019 2019 2019 2019 2019 2019 2019 2019 2019 2019 2019 2019 2019 2019 2019 2019 2019 2019 2019 2019 2019 2019 2019 2019 2019 2019 2019 2019 2019 2019 2019 2019 2019 2019 6B~both~0~0..42
j[^k]*k~~6A D83D DE00 D83D DE00 D83D DE00 D83D DE00 D83D DE00 D83D DE00 D83D DE00 D83D DE00 D83D DE00 D83D DE00 D83D DE00 D83D DE00 D83D DE00 D83D DE00 D83D DE00 D83D DE00 D83D DE00 D83D DE00 D83D DE00 D83D DE00 6B~both~0~0..42
j[^k]*k~~6A DE00 DE00 DE00 DE00 DE00 DE00 DE00 DE00 DE00 DE00 DE00 DE00 DE00 DE00 DE00 DE00 DE00 DE00 DE00 DE00 DE00 DE00 DE00 DE00 DE00 DE00 DE00 DE00 DE00 DE00 DE00 DE00 DE00 DE00 DE00 DE00 DE00 DE00 DE00 DE00 6B~both~0~0..42
j[^é]*k~~6A 61 61 61 61 61 61 61 61 61 61 61 61 61 61 61 61 61 61 61 61 61 61 61 61 61 61 61 61 61 61 61 61 61 61 61 61 61 61 61 61 6B~both~0~0..42
Qab~~7A 7A 7A 7A 7A 7A 7A 7A 7A 7A 7A 7A 7A 7A 7A 7A 7A 7A 7A 7A 7A 7A 7A 7A 7A 7A 7A 7A 7A 7A 7A 7A 51 61 62 7A 7A 7A 7A 7A 7A 7A 7A 7A 7A 7A 7A 7A 7A 7A 7A 7A 7A 7A 7A 7A 7A 7A 7A 7A 7A 7A 7A 7A 7A 7A 7A 7A 7A 7A 7A 7A 7A 7A 7A~both~0~32..35
Qab~~51 51 51 51 51 51 51 51 51 51 51 51 51 51 51 51 51 51 51 51 51 51 51 51 51 51 51 51 51 51 51 51 51 51 51 51 51 51 51 51 51 51 51 51 51 51 51 51 51 51 51 51 51 51 51 51 51 51 51 51 51 51 51 51 51 51 51 51 51 51 61 62~both~0~69..72
Qab~~7A 7A 7A 7A 7A 7A 7A 7A 7A 7A 7A 7A 7A 7A 7A 7A 7A 7A 7A 7A 7A 7A 7A 7A 7A 7A 7A 7A 7A 7A 7A 7A 51 7A 62 51 7A 62 51 7A 62 51 7A 62 51 7A 62 51 7A 62 51 7A 62 51 7A 62 51 7A 62 51 7A 62 51 7A 62 51 7A 62 51 61 62~both~0~68..71
Qab~~151 151 151 151 151 151 151 151 151 151 151 151 151 151 151 151 151 151 151 151 151 151 151 151 151 151 151 151 151 151 151 151 151 151 151 151 151 151 151 151 161 161 161 161 161 161 161 161 161 161 161 161 161 161 161 161 161 161 161 161 162 162 162 162 162 162 162 162 162 162 162 162 162 162 162 162 162 162 162 162~both~0~
[a-z]~~161~both~0~
.~~D83D DE00~ucs2~1~1..2
.~~D83D DE00~utf16~1~no start
.~~D83D DE00~both~2~
.~~DE00~both~1~
$~~DE00~both~1~1..1
(k)\1~iu~6B 212A~both~0~0..2 0..1
.*b~~62 E9~both~0~0..1
.*b~~62 D83D DE00~both~0~0..1
[^a]~~61 E9~both~0~1..2
[^a]~~61 D83D DE00~utf16~0~1..3
[^a]~~61 D83D DE00~ucs2~0~1..2; 2..3
a.{1,2}~~61 E9 E9 20AC~both~0~0..3
é.*?[ü;]~~61 E9 DF FC 20 E9 3B E9 62 A FC~both~0~1..4; 5..7
b~~61 62 E9 62~both~first~1..2
b~~61 62 E9 62~both~all~1..2; 3..4
b~~61 62 E9 62~both~2~3..4
b~~61 62 E9 62~both~3~3..4
b~~61 62 E9 62~both~4~
b~~61 62 E9 62~both~5~
b|é~~61 62 E9 62~both~2~2..3; 3..4
^.~~D800 61~both~0~0..1
^a~~D800 61 61~both~0~
^a~~61 61~both~1~
^a~m~D800 A 61~both~0~2..3
b~~E9~both~first~
b~new~E9~both~first~
cat:2 any goal~tree~E9 20AC~both~0~0..1; 1..2
cat:2 any goal~tree~E9 20AC~both~2~
cat:2 any goal~tree~E9 20AC~both~3~
cat:2 empty goal~tree~E9 20AC~both~0~0..0; 1..1; 2..2
cat:2 empty goal~tree~E9 20AC~both~2~2..2
cat:2 empty goal~tree~E9 20AC~both~3~
é~points~78 61 E9~both~all~2..3
a*~~61 61 62~both~1~1..2; 2..2; 3..3
a*~~61 61 62~both~4~
a~~61~both~18446744073709551615~
cat:2 char:D800 goal~tree~D800~both~0~0..1
cat:2 char:110000 goal~tree~61~both~0~
cat:2 a goal/cat:2 b goal~pair~61 62~both~0~1..2
.~~61 D83D DE00 61~utf16~at 1~1..3
.~~61 D83D DE00 61~utf16~at 2~no start
.~~61 D83D DE00 61~ucs2~at 2~2..3
.~~61 D83D DE00~both~at 3~
.~~61 D83D DE00~both~at 4~
b|é~~61 62 E9 62~both~at 0~
b|é~~61 62 E9 62~both~at 2~2..3
$~~DE00~both~at 1~1..1
(?<=(.))~~D83D DE00~utf16~at 2~2..2 0..2
(?<=(.))~~D83D DE00~ucs2~at 2~2..2 1..2
a~~61~both~at 18446744073709551615~
"#;

// Rows of two fields: units in hexadecimal, and for each offset from 0 to 3 whether it is a
// boundary.
pub const BOUNDARIES: &str = "\
D83D DE00~true false true false
DE00~true true false false";

// A text of units with its encoding, a start, and the call that searches.
#[derive(Clone, Copy)]
struct Search<'a> {
    units: &'a [u16],
    encoding: &'a str,
    asked: SearchCall,
}

fn units_of(alloc: Global, written: &str) -> Result<Vec<u16>, AllocError> {
    let mut units = Vec::new(alloc);
    for word in written.split(' ') {
        units.push(u16::from_str_radix(word, 16).unwrap_or(0))?;
    }
    Ok(units)
}

pub fn write_of_utf16(
    line: &mut String,
    re: &Regex,
    units: &[u16],
    asked: SearchCall,
) -> Result<(), SearchError> {
    let start = asked.start();
    if is_unit_boundary(units, start) || units.len() < start {
        if asked.is_at() {
            return write_match_if_any(line, &re.match_at_utf16(units, start)?);
        }
        let mut matches = re.find_from_utf16(units, start)?;
        write_utf16(line, &mut matches, asked.is_first())
    } else {
        Ok(line.push_str("no start")?)
    }
}

pub fn write_of_ucs2(
    line: &mut String,
    re: &Regex,
    units: &[u16],
    asked: SearchCall,
) -> Result<(), SearchError> {
    if asked.is_at() {
        return write_match_if_any(line, &re.match_at_ucs2(units, asked.start())?);
    }
    let mut matches = re.find_from_ucs2(units, asked.start())?;
    write_ucs2(line, &mut matches, asked.is_first())
}

fn check_encodings(
    alloc: Global,
    differing: &mut String,
    row: Row<'_>,
    re: &Regex,
    search: &Search<'_>,
) -> Result<(), SearchError> {
    if search.encoding != "ucs2" {
        let mut found = String::new(alloc);
        write_of_utf16(&mut found, re, search.units, search.asked)?;
        compare(differing, row, &found, "in UTF-16")?;
    }
    if search.encoding != "utf16" {
        let mut found = String::new(alloc);
        write_of_ucs2(&mut found, re, search.units, search.asked)?;
        compare(differing, row, &found, "in UCS-2")?;
    }
    Ok(())
}

pub fn check_units(alloc: Global, differing: &mut String, row: Row<'_>) -> Result<(), SearchError> {
    let fields: Vec<&str> = row.asked.split('~').collect(alloc)?;
    let [pattern, flags, written, encoding, call] = *fields.as_slice() else {
        return Ok(compare(differing, row, "other than six fields", "")?);
    };
    let units = units_of(alloc, written)?;
    let search = Search {
        units: &units,
        encoding,
        asked: SearchCall::of(call),
    };
    for no_opt in [false, true] {
        match regex_of(alloc, pattern, flags, no_opt) {
            Ok(re) => check_encodings(alloc, differing, row, &re, &search)?,
            Err(error) => compare(differing, row, refusal(&error), "")?,
        }
    }
    Ok(())
}

pub fn check_boundaries(
    alloc: Global,
    differing: &mut String,
    row: Row<'_>,
) -> Result<(), AllocError> {
    let units = units_of(alloc, row.asked)?;
    let mut found = String::new(alloc);
    for offset in 0..4 {
        if offset > 0 {
            found.push(' ')?;
        }
        write!(found, "{}", is_unit_boundary(&units, offset))?;
    }
    compare(differing, row, &found, "")
}
