//! Answers questions about trees, row by row.

use crate::alternation_dispatch::{write_arms_by_key, write_unit_arms_by_key};
use crate::classes::{write_classes, write_unit_classes};
use crate::listing::{write_program, write_unit_program};
use crate::lookahead_and_exit_tables::{write_lookaheads, write_unit_lookaheads};
use crate::memo_analyses::{write_codes, write_memo_analysis};
use crate::memo_tables::write_memo_table;
use crate::must_iterate_tables::{write_must_iterate, write_unit_must_iterate};
use crate::parts::{write_displayed_group_names, write_program_and_copy, write_unit_parts};
use crate::plans::{write_leading_loop, write_plan, write_unit_plan};
use crate::predicates::write_predicate;
use crate::table::ROWS;
use regex_parser::parse::try_parse;
use regex_pattern_front::flags::Flags;
use regex_pattern_front::ir::Regex;
use regex_pattern_front::optimizer::optimize;
use std::alloc::{AllocError, Global};
use std::process::Abort;
use std::test::Fail;
use test_trees::tree_of;

// Writes the answer to a question about a tree.
fn write_answer(
    alloc: Global,
    text: &mut String,
    question: &str,
    tree: &mut Regex,
) -> Result<(), AllocError> {
    match question {
        "program" => write_program(alloc, text, tree),
        "optimized" => {
            optimize(tree);
            write_program(alloc, text, tree)
        }
        "units" => write_unit_program(alloc, text, tree),
        "predicate" => write_predicate(alloc, text, tree),
        "parts" => write_program_and_copy(alloc, text, tree),
        "unit_parts" => write_unit_parts(alloc, text, tree),
        "names" => write_displayed_group_names(alloc, text, tree),
        "plan" => write_plan(alloc, text, tree),
        "unit_plan" => write_unit_plan(alloc, text, tree),
        "leading_loop" => write_leading_loop(alloc, text, tree),
        "arms" => write_arms_by_key(alloc, text, tree),
        "unit_arms" => write_unit_arms_by_key(alloc, text, tree),
        "lookaheads" => write_lookaheads(alloc, text, tree),
        "unit_lookaheads" => write_unit_lookaheads(alloc, text, tree),
        "must_iterate" => write_must_iterate(alloc, text, tree),
        "unit_must_iterate" => write_unit_must_iterate(alloc, text, tree),
        "classes" => write_classes(alloc, text, tree),
        "unit_classes" => write_unit_classes(alloc, text, tree),
        "memo_analysis" => write_memo_analysis(alloc, text, tree),
        "codes" => write_codes(alloc, text, tree),
        "memo" => write_memo_table(alloc, text, tree),
        _ => text.push_str("no question"),
    }
}

// Returns the optimized tree of a pattern with the flags of these letters. Returns `None` if it is
// not a pattern.
fn optimized_tree_of_pattern(alloc: Global, pattern: &str, letters: &str) -> Option<Regex> {
    let code_points: Vec<u32> = pattern.chars().map(u32::from).collect(alloc).ok()?;
    let flags = Flags {
        icase: letters.contains('i'),
        multiline: letters.contains('m'),
        dot_all: letters.contains('s'),
        unicode: letters.contains('u'),
        ..Flags::default()
    };
    let mut tree = try_parse(alloc, &code_points, flags).ok()?;
    optimize(&mut tree);
    Some(tree)
}

// Returns the tree of these words, or of a pattern between slashes and the letters of its flags.
fn tree_in_question(alloc: Global, words: &str) -> Option<Regex> {
    let Some(pattern) = words.strip_prefix('/') else {
        return tree_of(alloc, words);
    };
    let (pattern, letters) = pattern.rsplit_once('/')?;
    optimized_tree_of_pattern(alloc, pattern, letters)
}

// Writes the answer to a question. The question is followed by a blank and a tree in words, or a
// pattern.
fn write_answer_to_row(alloc: Global, text: &mut String, asked: &str) -> Result<(), AllocError> {
    let (question, words) = asked.split_once(' ').unwrap_or((asked, ""));
    match tree_in_question(alloc, words) {
        Some(mut tree) => write_answer(alloc, text, question, &mut tree),
        None => text.push_str("no tree"),
    }
}

#[test]
fn trees_have_these_answers(rt: HostRuntime) -> Result<(), Fail> {
    for line in ROWS.lines() {
        let (asked, wanted) = line.split_once(" → ").unwrap_or((line, "no answer"));
        let mut found = String::new(rt.alloc());
        write_answer_to_row(rt.alloc(), &mut found, asked)?;
        assert!(rt; found.as_str() == wanted, "{found} at {line}");
    }
    Ok(())
}
