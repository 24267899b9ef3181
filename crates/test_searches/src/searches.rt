//! Searches in each encoding, by each call and executor.

use crate::calls::SearchCall;
use crate::patterns::{refusal, regex_of};
use crate::rows::{Row, compare};
use crate::search_methods::{ALL_METHODS, SearchMethod, write_found};
use regress_match::{Regex, SearchError};
use std::alloc::{AllocError, Global};

// A pattern, a text, and the call that searches.
#[derive(Clone, Copy)]
pub struct Search<'a> {
    pub pattern: &'a str,
    pub flags: &'a str,
    pub text: &'a str,
    pub asked: SearchCall,
}

// Appends a text of a row, in which `␤` stands for a line feed.
pub fn push_text(text: &mut String, written: &str) -> Result<(), AllocError> {
    for c in written.chars() {
        text.push(if c == '␤' { '\n' } else { c })?;
    }
    Ok(())
}

// Returns whether a row is searched by a method. ASCII texts are searched as ASCII and in 16-bit
// units too, since offsets are the same there. Trees with bytes have no program for units, unless
// the second tree of a pair gives it. A search at one offset is a call of each encoding, and of no
// named executor.
fn is_row_for_method(search: &Search<'_>, method: SearchMethod) -> bool {
    let is_of_bytes = search.flags == "pair"
        || search.flags == "tree" && search.pattern.contains("byte");
    match method {
        SearchMethod::Utf8 => true,
        SearchMethod::Ascii => search.text.is_ascii(),
        SearchMethod::Named | SearchMethod::Limited | SearchMethod::Copying => !search
            .asked
            .is_at(),
        SearchMethod::AsciiNamed | SearchMethod::AsciiCopying => search.text.is_ascii()
            && !search.asked.is_at(),
        SearchMethod::Utf16 | SearchMethod::Ucs2 => search.text.is_ascii() && !is_of_bytes,
    }
}

pub fn check_methods(
    alloc: Global,
    differing: &mut String,
    row: Row<'_>,
    re: &Regex,
    search: &Search<'_>,
    methods: &[(SearchMethod, &str)],
) -> Result<(), SearchError> {
    for (method, name) in methods {
        if is_row_for_method(search, *method) {
            let mut found = String::new(alloc);
            write_found(alloc, &mut found, re, search.text, search.asked, *method)?;
            compare(differing, row, &found, name)?;
        }
    }
    Ok(())
}

fn check_pattern(
    alloc: Global,
    differing: &mut String,
    row: Row<'_>,
    search: &Search<'_>,
    no_opt: bool,
) -> Result<(), SearchError> {
    match regex_of(alloc, search.pattern, search.flags, no_opt) {
        Ok(re) => check_methods(alloc, differing, row, &re, search, &ALL_METHODS),
        Err(error) => Ok(compare(differing, row, refusal(&error), "")?),
    }
}

pub fn check_search(
    alloc: Global,
    differing: &mut String,
    row: Row<'_>,
) -> Result<(), SearchError> {
    let fields: Vec<&str> = row.asked.split('~').collect(alloc)?;
    let [pattern, flags, written, call] = *fields.as_slice() else {
        return Ok(compare(differing, row, "other than five fields", "")?);
    };
    let mut text = String::new(alloc);
    push_text(&mut text, written)?;
    let search = Search {
        pattern,
        flags,
        text: &text,
        asked: SearchCall::of(call),
    };
    for no_opt in [false, true] {
        check_pattern(alloc, differing, row, &search, no_opt)?;
    }
    Ok(())
}
