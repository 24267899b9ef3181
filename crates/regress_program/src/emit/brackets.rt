//! Emits the code of brackets (character classes).

ghost use Rattle.std.specs.Prelude.{◌≡◌, ◌||◌, ◌&&◌, nat_lt, is_some, map, OnOk, IfSome};
ghost use Rattle.std.specs.Int.{is_in_range};
ghost use Rattle.std.specs.List.{list_all};
ghost use Rattle.regex_meaning.specs.{NumberListHelpers.{contains}, Tree.{bracket}, CompilationRelation.{is_uninverted_ascii_class}, Outcomes.{in_intervals}};
ghost use Rattle.regex_meaning.specs.StartPredicate.{bytes_that_pass};
ghost use Rattle.regex_pattern_front.specs.AstToSpecTree.{class_as_spec};
ghost use Rattle.regex_pattern_front.specs.ByteSetMembers.{member_bytes_of_ascii_bitmap};
ghost use Rattle.regex_pattern_front.specs.Intervals.{interval_of};
ghost use Rattle.regress_program.specs.EmitterStateAndAppendedCode.{IsEmitted, emitter_state, with_bracket_table_entry};

use crate::emit::emitter::{EmitMode, Emitter};
use crate::instructions::Insn;
use regex_pattern_front::bytesearch::AsciiBitmap;
use regex_pattern_front::codepointset::Interval;
use regex_pattern_front::types::BracketContents;
use std::alloc::AllocError;

impl Emitter {
    // Emits a bracket. A set of bytes below 128 is stored in the instruction, and any other set in
    // the list of brackets.
    pub(crate) fn emit_bracket(
        &mut self,
        mode: EmitMode,
        contents: &BracketContents,
    ) -> Result<(), AllocError>
        ensures { OnOk result (IsEmitted mode (bracket (class_as_spec contents.now)) self.old self.new) }
    {
        match ascii_bitmap(contents) {
            Some(bitmap) => {
                self.append_insn(Insn::AsciiBracket(bitmap))?;
                Ok(())
            }
            None => {
                let index = self.brackets.len();
                self.append_insn(Insn::Bracket(index))?;
                self.add_bracket(contents)?;
                Ok(())
            }
        }
    }

    // Adds a bracket to the list of brackets.
    fn add_bracket(&mut self, contents: &BracketContents) -> Result<(), AllocError>
        ensures { OnOk result (emitter_state self.new
            ≡ with_bracket_table_entry (class_as_spec contents.now) (emitter_state self.old)) }
    {
        self.brackets.push(contents.clone()?)?;
        Ok(())
    }
}

// Returns the set as a bitmap if it has only bytes below 128.
fn ascii_bitmap(contents: &BracketContents) -> Option<AsciiBitmap>
    ensures found { is_some result ≡ is_uninverted_ascii_class (class_as_spec contents.now) }
    ensures members { IfSome result (λ b. member_bytes_of_ascii_bitmap b
        ≡ bytes_that_pass (in_intervals (class_as_spec contents.now).intervals)) }
{
    if !is_ascii(contents) {
        return None;
    }
    Some(ascii_members(contents.cps.intervals()))
}

// Returns the members of these intervals that are below 128.
fn ascii_members(intervals: &[Interval]) -> AsciiBitmap
    ensures { member_bytes_of_ascii_bitmap result
        ≡ bytes_that_pass (λ b. nat_lt b 128 && in_intervals (map interval_of intervals.now) b) }
{
    let mut bitmap = AsciiBitmap::default();
    for interval in intervals {
        add_ascii_members(*interval, &mut bitmap);
    }
    bitmap
}

// Adds the members of the interval that are below 128.
fn add_ascii_members(interval: Interval, bitmap: &mut AsciiBitmap)
    ensures { member_bytes_of_ascii_bitmap bitmap.new
        ≡ bytes_that_pass (λ b. contains (member_bytes_of_ascii_bitmap bitmap.old) b
        || (nat_lt b 128 && is_in_range interval.first interval.last b)) }
{
    let end = interval.last.min(127) + 1;
    for member in interval.first..end {
        bitmap.set(member as u8);
    }
}

// Checks whether the set has only bytes below 128.
fn is_ascii(contents: &BracketContents) -> bool
    ensures { result ≡ is_uninverted_ascii_class (class_as_spec contents.now) }
{
    !contents.invert && intervals_are_ascii(contents.cps.intervals())
}

fn intervals_are_ascii(intervals: &[Interval]) -> bool
    ensures { result ≡ list_all (λ i. nat_lt i.last 128 || nat_lt i.last i.first) intervals.now }
{
    intervals.iter().all(|i| i.last < 128 || i.last < i.first)
}
