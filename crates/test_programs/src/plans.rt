//! Writes plans in words: where a match may begin, and what may follow.

ghost use Rattle.std.specs.Prelude.{◌<◌};

use regex_pattern_front::codepointset::Interval;
use regex_pattern_front::ir::Regex;
use regress_program::emit::{emit, emit_units};
use regress_program::first_set_type::FirstSet;
use regress_program::leading_char_loop::LeadingCharLoop;
use regress_program::lookbehind_filter::PrecedingCharFilter;
use regress_program::ops::Op;
use regress_program::plan::{ANYTHING, CandidateStarts, Plan};
use regress_program::required_prefix_prefilters::{
    FirstUnitsPrefilter, LiteralPrefilter, MaskedUnitProbe, OtherPrefilter, RequiredPrefixPrefilter,
};
use regress_program::required_prefix_types::{Literal, Prefix};
use regress_program::table_keys_of_units::KEYS;
use regress_program::up_to_three_units::UpToThreeUnits;
use std::alloc::{AllocError, Global};

// Writes the plan of a tree for texts in bytes.
pub(crate) fn write_plan(alloc: Global, text: &mut String, tree: &Regex) -> Result<(), AllocError> {
    match emit(alloc, tree) {
        Ok(program) => write_candidate_and_exit_sets(text, program.plan()),
        Err(_) => Ok(()),
    }
}

// Writes the plan for texts of 16-bit units.
pub(crate) fn write_unit_plan(
    alloc: Global,
    text: &mut String,
    tree: &Regex,
) -> Result<(), AllocError> {
    match emit_units(alloc, tree) {
        Ok(program) => write_candidate_and_exit_sets(text, program.plan()),
        Err(_) => Ok(()),
    }
}

// Writes after how many units of a character the leading char loop is scanned again, and how many
// groups are opened before it.
pub(crate) fn write_leading_loop(
    alloc: Global,
    text: &mut String,
    tree: &Regex,
) -> Result<(), AllocError> {
    let Ok(program) = emit(alloc, tree) else {
        return Ok(());
    };
    let LeadingCharLoop {
        max_char_units,
        opens,
    } = program.plan().leading_loop;
    if max_char_units == 0 {
        return text.push_str("none");
    }
    write!(text, "{max_char_units} behind {opens}")
}

// Writes where a search has to try, and what may follow each char loop.
fn write_candidate_and_exit_sets(text: &mut String, plan: &Plan) -> Result<(), AllocError> {
    match plan.start {
        CandidateStarts::Anywhere => text.push_str("anywhere")?,
        CandidateStarts::InSet { set } => write_named_set(text, plan, "among", set)?,
        CandidateStarts::FewUnits(few) => write!(text, "few {} {:?}", few.len, few.units)?,
        CandidateStarts::Behind(before) => write_preceding_char_filter(text, before)?,
        CandidateStarts::Prefix { prefix, prefilter } => write_prefix(text, &prefix, prefilter)?,
    }
    for op in &plan.ops {
        match op {
            Op::PossessiveCharLoop(run) => write_named_set(text, plan, ", apart", run.next)?,
            Op::GreedyCharLoop(run) => write_named_set(text, plan, ", run", run.next)?,
            Op::LazyCharLoop(run) => write_named_set(text, plan, ", lazy", run.next)?,
            _ => {}
        }
    }
    write_rows(text, plan)?;
    write_leap_goal(text, plan)
}

// Writes the tables of the plan's classes.
fn write_rows(text: &mut String, plan: &Plan) -> Result<(), AllocError> {
    for class in &plan.classes {
        let Interval { first, last } = class.known;
        if first <= last {
            write!(text, ", knows {first} to {last}")?;
        }
    }
    Ok(())
}

// Writes the units of the goal to which a search leaps, and the first key of each run of keys that
// a match may read before it.
fn write_leap_goal(text: &mut String, plan: &Plan) -> Result<(), AllocError> {
    match &plan.leap {
        Some(leap) => {
            write!(text, ", leap {} {:?} over", leap.goal.len, leap.goal.units)?;
            write_table_boundaries(text, &leap.over)
        }
        None => Ok(()),
    }
}

// Writes the keys with one of which the character before a match begins, and whether the left end
// is allowed too.
fn write_preceding_char_filter(
    text: &mut String,
    before: PrecedingCharFilter,
) -> Result<(), AllocError> {
    let PrecedingCharFilter { keys, edge } = before;
    write!(text, "behind {} {:?}", keys.len, keys.units)?;
    if edge { text.push_str(" edge") } else { Ok(()) }
}

// Writes which keys may be first, second and so on in a match, and what is searched for first.
fn write_prefix(
    text: &mut String,
    prefix: &Prefix,
    prefilter: RequiredPrefixPrefilter,
) -> Result<(), AllocError> {
    text.push_str("prefix")?;
    for ahead in 0..prefix.len {
        if ahead > 0 {
            text.push_str(" /")?;
        }
        write_set_boundaries(text, &keys_at_offset_in_match(prefix, ahead))?;
    }
    match prefilter {
        RequiredPrefixPrefilter::Absent => Ok(()),
        RequiredPrefixPrefilter::ByLiteral(known) => write_literal_prefilter(text, &known),
        RequiredPrefixPrefilter::ByFirstUnits(first) => write_first_units(text, &first),
        RequiredPrefixPrefilter::Probes(probes) => write_probes(text, &probes),
    }
}

// Writes the literal that is searched for and its offset in a match, and what is searched for in a
// short text.
fn write_literal_prefilter(text: &mut String, known: &LiteralPrefilter) -> Result<(), AllocError> {
    write_literal(text, &known.literal)?;
    if let Some(rare) = known.rare {
        write!(text, " rare {} at {}", rare.unit, rare.ahead)?;
    }
    match &known.probes {
        Some(probes) => write_probes(text, probes),
        None => Ok(()),
    }
}

// Writes a literal and its offset in a match.
fn write_literal(text: &mut String, literal: &Literal) -> Result<(), AllocError> {
    let Literal { units, len, ahead } = literal;
    write!(text, " row {len} of {units:?} at {ahead}")
}

// Writes the units with which a match begins, and what is searched for where they are frequent.
fn write_first_units(text: &mut String, first: &FirstUnitsPrefilter) -> Result<(), AllocError> {
    let UpToThreeUnits { units, len } = first.units;
    write!(text, " first {len} of {units:?}")?;
    match &first.otherwise {
        OtherPrefilter::Literal(literal) => write_literal(text, literal),
        OtherPrefilter::Probes(probes) => write_probes(text, probes),
        OtherPrefilter::Units => Ok(()),
    }
}

// Writes the masks that are tested, with the expected bits and the offset in a match.
fn write_probes(text: &mut String, probes: &[MaskedUnitProbe]) -> Result<(), AllocError> {
    for probe in probes {
        let MaskedUnitProbe { ahead, mask, bits } = *probe;
        write!(text, " bits {bits} of {mask} at {ahead}")?;
    }
    Ok(())
}

// Returns the keys of the units that may be at an offset in a match.
fn keys_at_offset_in_match(prefix: &Prefix, ahead: usize) -> FirstSet
    requires { ahead < 16 }
{
    let mut keys = [false; 256];
    for key in 0..KEYS {
        keys[key] = prefix.is_key_allowed(key, ahead);
    }
    FirstSet { keys, end: false }
}

fn write_named_set(
    text: &mut String,
    plan: &Plan,
    name: &str,
    number: u32,
) -> Result<(), AllocError> {
    text.push_str(name)?;
    if number == ANYTHING {
        return text.push_str(" anything");
    }
    match plan.sets.get(number as usize) {
        Some(set) => write_set_boundaries(text, set),
        None => text.push_str(" no set"),
    }
}

// Writes the first key of each run of keys that are all in the set, or all not, and whether the end
// is in it.
fn write_set_boundaries(text: &mut String, set: &FirstSet) -> Result<(), AllocError> {
    write_table_boundaries(text, &set.keys)?;
    if set.end {
        text.push_str(" end")
    } else {
        Ok(())
    }
}

// Writes each key for which a table has another value than for the key before.
fn write_table_boundaries(text: &mut String, keys: &[bool; 256]) -> Result<(), AllocError> {
    let mut before = false;
    for (key, here) in keys.iter().enumerate() {
        if *here != before {
            write!(text, " {key}")?;
        }
        before = *here;
    }
    Ok(())
}
