//! Char loops, word boundaries and repeated characters with which each match begins, and which let
//! a search skip starts after a failed attempt.

ghost use Rattle.std.specs.Prelude.{◌≡◌, ◌<◌, ℕ, true, false};
ghost use Rattle.regress_program.specs.LeadingCharLoops.{OnlyOpensGroups, opens_group, opens_group_at, refers_back_at};

use crate::ops::{CharLoop, Op};
use crate::plan::Plan;

// The maximum number of code units of a character.
const MOST_UNITS: usize = 4;

// The maximum number of operations that are searched for a backreference.
const MOST_OPS: usize = 256;

/// The char loop with which each match begins, if it has no maximum, so that scanning it again
/// after a failed attempt is worthwhile. Two other kinds of matches are treated alike: those that
/// begin with a word boundary (the word is scanned), and those that begin with a group of one
/// character that a backreference repeats (the units up to the next repeated one are scanned).
#[derive(Clone, Copy)]
pub struct LeadingCharLoop {
    /// The maximum number of code units of a character after which the loop is scanned again; 0 if
    /// there is no such loop.
    pub max_char_units: usize,
    /// The number of groups that are opened before it. If there are any, the program has no
    /// backreference, so no match depends on where they begin.
    pub opens: usize,
}

impl LeadingCharLoop {
    /// The value for a plan whose matches are not known to begin with a char loop.
    pub(crate) const NONE: LeadingCharLoop = LeadingCharLoop {
        max_char_units: 0,
        opens: 0,
    };

    /// Finds the leading char loop in the operations of a plan.
    pub(crate) fn of(plan: &Plan) -> LeadingCharLoop
        ensures { OnlyOpensGroups plan.now result.opens }
    {
        let opens = leading_opens(&plan.ops);
        let max_char_units = max_char_units_at(plan, opens);
        if opens == 0 {
            return LeadingCharLoop {
                max_char_units,
                opens: 0,
            };
        }
        if max_char_units != 0 && !may_refer_back(&plan.ops) {
            return LeadingCharLoop {
                max_char_units,
                opens,
            };
        }
        LeadingCharLoop {
            max_char_units: max_units_before_repetition(&plan.ops),
            opens: 0,
        }
    }
}

// Checks whether an operation opens a group.
fn is_group_opening(op: &Op) -> bool
    ensures { result ≡ opens_group op.now }
{
    matches!(op, Op::OpenGroup(_))
}

// Returns the number of operations that open groups before any other operation.
fn leading_opens(ops: &[Op]) -> usize
    ensures { (ip : ℕ) → ip < result → opens_group_at ops.now ip ≡ true }
{
    for ip in 0..ops.len() {
        if !is_group_opening(&ops[ip]) {
            return ip;
        }
    }
    ops.len()
}

// Checks whether an operation is a backreference, or there are too many operations to find out.
fn may_refer_back(ops: &[Op]) -> bool
    ensures { result ≡ false → (ip : ℕ) → refers_back_at ops.now ip ≡ false }
{
    if ops.len() > MOST_OPS {
        return true;
    }
    for ip in 0..ops.len() {
        if ops[ip].is_backreference() {
            return true;
        }
    }
    false
}

// Returns the maximum number of code units of a character after which the char loop at `ip`, or the
// word after a boundary at `ip`, is scanned again. Returns 0 if there is neither, or if the loop
// has a maximum.
fn max_char_units_at(plan: &Plan, ip: usize) -> usize {
    if ip >= plan.ops.len() {
        return 0;
    }
    if ip == 0 && is_word_boundary(&plan.ops[ip]) {
        return 1;
    }
    match plan.ops[ip].as_char_loop() {
        Some(run) if is_unlimited(plan, run) => max_char_units_of(plan, run),
        _ => 0,
    }
}

// Checks whether an operation matches at word boundaries.
fn is_word_boundary(op: &Op) -> bool {
    match op {
        Op::WordEdge(edge) => !edge.invert,
        _ => false,
    }
}

// Returns the same number for a program that may begin with a group of one character that a
// backreference repeats. Such a character has one unit. Returns 0 for all others.
fn max_units_before_repetition(ops: &[Op]) -> usize {
    if ops.len() > 3 && is_group_opening(&ops[0]) && ops[3].is_backreference() {
        1
    } else {
        0
    }
}

// Checks whether a char loop has no maximum.
fn is_unlimited(plan: &Plan, run: CharLoop) -> bool {
    let number = run.bounds as usize;
    number < plan.bounds.len() && plan.bounds[number].max == usize::MAX
}

// Returns the same number for a char loop. If the loop ends neither by single units nor by a few
// stop bytes, its characters of several units are not scanned again, because that takes about as
// long as trying them.
fn max_char_units_of(plan: &Plan, run: CharLoop) -> usize {
    let number = run.class as usize;
    if number >= plan.classes.len() {
        return 0;
    }
    let class = &plan.classes[number];
    if !class.single_unit && class.stops.is_some() {
        MOST_UNITS
    } else {
        1
    }
}
