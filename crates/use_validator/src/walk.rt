//! Walks over the values of a document, and checks each with the schemas that apply to it.

use crate::judge::Verdict;
use crate::pointer::child;
use crate::report::{Finding, Outcome, Report, Tally};
use crate::schema::{Counted, Part, Schema, Test, TextRule};
use crate::search::Search;
use anyhow::{Result, bail};
use serde_json::Value;
use std::alloc::{AllocError, Global};
use std::io;
use std::io::IsTerminal;

// A value of the document, its position, and the number of the part of the schema to check it with.
#[derive(Drop)]
struct PendingCheck<'v> {
    pointer: String,
    value: &'v Value,
    part: usize,
    // How many parts were applied to the value, each because of the one before it.
    applied: usize,
}

// The data that are needed to check a document.
#[derive(Clone, Copy)]
struct Walk<'p> {
    alloc: Global,
    parts: &'p [Part<'p>],
    search: Search<'p>,
}

// On a terminal, progress is shown each time this many values were checked.
const VALUES_PER_PROGRESS_UPDATE: u64 = 100_000;

// The maximum nesting depth of tests of schemas.
const DEPTH: u32 = 300;

/// Returns the report on a document in which whole numbers are integers. It has a finding for each
/// value that the schema refuses, or for which the steps of a search did not suffice.
///
/// # Errors
///
/// Returns an error if the schema applies to a value infinitely often, or if its tests are nested
/// too deeply. The error says where. Also returns an error if an allocation fails.
pub fn report(
    rt: &HostRuntime,
    schema: &Schema<'_>,
    steps: u64,
    document: &Value,
) -> Result<Report> {
    let alloc = rt.alloc();
    let patterns = &schema.patterns;
    let walk = Walk {
        alloc,
        parts: schema.parts.as_slice(),
        search: Search { patterns, steps },
    };
    let mut report = Report::new(alloc, false);
    let mut spots = Vec::new(alloc);
    spots.push(PendingCheck::new(String::new(alloc), document, 0))?;
    for done in 1..u64::MAX {
        let Some(spot) = spots.pop() else {
            break;
        };
        tell(rt, done)?;
        walk.step(&spot, DEPTH, &mut spots, &mut report)?;
    }
    clear(rt)?;
    Ok(report)
}

// Shows the progress on a terminal.
fn tell(rt: &HostRuntime, done: u64) -> io::Result<()> {
    if done % VALUES_PER_PROGRESS_UPDATE == 0 && rt.stderr().is_terminal() {
        eprint!(rt; "\r{done} values")?;
    }
    Ok(())
}

// Clears the progress line.
fn clear(rt: &HostRuntime) -> io::Result<()> {
    if rt.stderr().is_terminal() {
        eprint!(rt; "\r\u{1b}[K")?;
    }
    Ok(())
}

impl<'v> PendingCheck<'v> {
    fn new(pointer: String, value: &'v Value, part: usize) -> Self {
        PendingCheck {
            pointer,
            value,
            part,
            applied: 0,
        }
    }
}

impl<'p> Walk<'p> {
    // Checks a value with a part, and pushes what else has to be checked onto the stack.
    #[cycle(walk)]
    fn step<'v>(
        self,
        spot: &PendingCheck<'v>,
        depth: u32,
        spots: &mut Vec<PendingCheck<'v>>,
        report: &mut Report,
    ) -> Result<()> {
        let Some(part) = self.parts.get(spot.part) else {
            bail!("the schema has no such part");
        };
        let mut next = Vec::new(self.alloc);
        self.check_rules(part, spot, report)?;
        self.check_texts(part, spot, report)?;
        for test in &part.tests {
            self.check_test(test, spot, depth, &mut next, report)?;
        }
        self.push_same_value_with_its_parts(part, spot, &mut next)?;
        self.push_items(part, spot, &mut next)?;
        self.push_members(part, spot, &mut next, report)?;
        Ok(push_in_reverse_order(&mut next, spots)?)
    }

    // Checks a value with a test, which depends on whether other parts hold.
    #[cycle(walk)]
    fn check_test<'v>(
        self,
        test: &Test,
        spot: &PendingCheck<'v>,
        depth: u32,
        next: &mut Vec<PendingCheck<'v>>,
        report: &mut Report,
    ) -> Result<()> {
        match test {
            Test::Count {
                by,
                counted,
                limits,
            } => {
                if !counted.is_in(spot.value) {
                    return Ok(());
                }
                let tally = self.count_holding(counted, spot, depth)?;
                let outcome = tally.conclude(limits.least, limits.most);
                let told = by.complaint(tally.possible < limits.least);
                self.add_test_finding(by.keyword(), spot, outcome, told, report)
            }
            Test::If {
                test,
                then,
                otherwise,
            } => {
                let of = self.with_part(spot, *test)?;
                match self.outcome(of, depth)? {
                    Outcome::Holds => self.push_same_value_with_part_if_some(spot, *then, next),
                    Outcome::Fails => self.push_same_value_with_part_if_some(
                        spot, *otherwise, next,
                    ),
                    outcome => self.add_test_finding("if", spot, outcome, "", report),
                }
            }
            Test::Names(part) => self.check_names(*part, spot, depth, report),
        }
    }

    // Counts the parts that hold for a value, or the items for which a part holds.
    #[cycle(walk)]
    fn count_holding(
        self,
        counted: &Counted,
        spot: &PendingCheck<'_>,
        depth: u32,
    ) -> Result<Tally> {
        let mut tally = Tally::NONE;
        let mut tried = Vec::new(self.alloc);
        self.push_values_to_count(counted, spot, &mut tried)?;
        for of in tried {
            tally.count(self.outcome(of, depth)?);
        }
        Ok(tally)
    }

    // Checks the name of each member with a part.
    #[cycle(walk)]
    fn check_names(
        self,
        part: usize,
        spot: &PendingCheck<'_>,
        depth: u32,
        report: &mut Report,
    ) -> Result<()> {
        let Some(members) = spot.value.as_object() else {
            return Ok(());
        };
        for (name, _) in members {
            let pointer = child(self.alloc, spot.pointer.as_str(), name.as_str())?;
            let value = Value::String(name.clone()?);
            let outcome = self.outcome(PendingCheck::new(pointer, &value, part), depth)?;
            self.add_member_name_finding(name.as_str(), spot, outcome, report)?;
        }
        Ok(())
    }

    // Checks whether a part holds for a value.
    #[cycle(walk)]
    fn outcome(self, spot: PendingCheck<'_>, depth: u32) -> Result<Outcome> {
        let Some(depth) = depth.checked_sub(1) else {
            bail!(
                "the value at \"{}\": more than {DEPTH} tests of the schema stand in one another",
                spot.pointer
            );
        };
        let mut report = Report::new(self.alloc, true);
        let mut spots = Vec::new(self.alloc);
        spots.push(spot)?;
        for _ in 0..u64::MAX {
            let Some(spot) = spots.pop() else {
                break;
            };
            self.step(&spot, depth, &mut spots, &mut report)?;
            if report.is_done() {
                break;
            }
        }
        Ok(report.outcome())
    }
}

impl<'p> Walk<'p> {
    // Checks a value with the keywords that do not refer to other parts.
    fn check_rules(
        self,
        part: &Part<'_>,
        spot: &PendingCheck<'_>,
        report: &mut Report,
    ) -> Result<(), AllocError> {
        for rule in &part.rules {
            if !rule.holds(self.alloc, spot.value)? && report.note(Outcome::Fails) {
                let told = rule.complaint(self.alloc)?;
                report.findings.push(Finding {
                    pointer: spot.pointer.clone()?,
                    place: self.place(part, rule.keyword)?,
                    told,
                })?;
            }
        }
        Ok(())
    }

    // Checks a string with the patterns that apply to it.
    fn check_texts(
        self,
        part: &Part<'_>,
        spot: &PendingCheck<'_>,
        report: &mut Report,
    ) -> Result<()> {
        let Some(text) = spot.value.as_str() else {
            return Ok(());
        };
        for rule in &part.texts {
            let outcome = match self.search.verdict(rule.pattern.as_str(), text)? {
                Verdict::Matches => Outcome::Holds,
                Verdict::NoMatch => Outcome::Fails,
                Verdict::OutOfSteps => Outcome::Undecided,
            };
            if report.note(outcome) {
                let told = rule.complaint(self.alloc, outcome)?;
                report.findings.push(Finding {
                    pointer: spot.pointer.clone()?,
                    place: self.place(part, rule.keyword)?,
                    told,
                })?;
            }
        }
        Ok(())
    }

    // Adds a finding that a value fails a test, or that this is undecided.
    fn add_test_finding(
        self,
        keyword: &str,
        spot: &PendingCheck<'_>,
        outcome: Outcome,
        told: &str,
        report: &mut Report,
    ) -> Result<()> {
        if !report.note(outcome) {
            return Ok(());
        }
        let told = if outcome == Outcome::Undecided {
            "too few steps to tell"
        } else {
            told
        };
        let told = String::from_str(self.alloc, told)?;
        self.tell(keyword, spot, told, report)
    }

    // Adds a finding that a member's name is refused, or that this is undecided.
    fn add_member_name_finding(
        self,
        name: &str,
        spot: &PendingCheck<'_>,
        outcome: Outcome,
        report: &mut Report,
    ) -> Result<()> {
        if !report.note(outcome) {
            return Ok(());
        }
        let before = if outcome == Outcome::Undecided {
            "too few steps to tell of the member name \""
        } else {
            "the schema does not allow the member name \""
        };
        let mut told = String::from_str(self.alloc, before)?;
        told.push_str(name)?;
        told.push('"')?;
        self.tell("propertyNames", spot, told, report)
    }

    // Adds a finding at a keyword of the part.
    fn tell(
        self,
        keyword: &str,
        spot: &PendingCheck<'_>,
        told: String,
        report: &mut Report,
    ) -> Result<()> {
        let Some(part) = self.parts.get(spot.part) else {
            bail!("the schema has no such part");
        };
        Ok(
            report.findings.push(Finding {
                pointer: spot.pointer.clone()?,
                place: self.place(part, keyword)?,
                told,
            })?,
        )
    }

    // Returns the position of a keyword. If the keyword has no name, it is the position of the
    // part.
    fn place(self, part: &Part<'_>, keyword: &str) -> Result<String, AllocError> {
        if keyword.is_empty() {
            part.place.clone()
        } else {
            child(self.alloc, part.place.as_str(), keyword)
        }
    }

    // Returns the same value with another part. If more parts were applied to the value than there
    // are, one was applied twice, and would be applied infinitely often.
    fn with_part<'v>(self, spot: &PendingCheck<'v>, part: usize) -> Result<PendingCheck<'v>> {
        if spot.applied >= self.parts.len() {
            let place = self.parts.get(part).map_or("", |part| part.place.as_str());
            bail!(
                "the schema's #{place} applies to the value at \"{}\" without end",
                spot.pointer
            );
        }
        Ok(PendingCheck {
            pointer: spot.pointer.clone()?,
            value: spot.value,
            part,
            applied: spot.applied + 1,
        })
    }

    // Pushes the same value with this part, if there is one.
    fn push_same_value_with_part_if_some<'v>(
        self,
        spot: &PendingCheck<'v>,
        part: Option<usize>,
        next: &mut Vec<PendingCheck<'v>>,
    ) -> Result<()> {
        match part {
            Some(part) => Ok(next.push(self.with_part(spot, part)?)?),
            None => Ok(()),
        }
    }

    // Pushes the value with each part that applies to it onto the stack.
    fn push_same_value_with_its_parts<'v>(
        self,
        part: &Part<'_>,
        spot: &PendingCheck<'v>,
        next: &mut Vec<PendingCheck<'v>>,
    ) -> Result<()> {
        for number in &part.here {
            next.push(self.with_part(spot, *number)?)?;
        }
        let Some(members) = spot.value.as_object() else {
            return Ok(());
        };
        for (name, number) in &part.with_member {
            if members.contains_key(name.as_str()) {
                next.push(self.with_part(spot, *number)?)?;
            }
        }
        Ok(())
    }

    // Pushes what is counted onto the stack.
    fn push_values_to_count<'v>(
        self,
        counted: &Counted,
        spot: &PendingCheck<'v>,
        next: &mut Vec<PendingCheck<'v>>,
    ) -> Result<()> {
        match counted {
            Counted::Parts(parts) => {
                for part in parts {
                    next.push(self.with_part(spot, *part)?)?;
                }
            }
            Counted::Items(part) => {
                let items = spot.value.as_array();
                let items = items.map_or(&[] as &[Value], |items| items.as_slice());
                for (i, value) in items.iter().enumerate() {
                    next.push(self.item(spot, i, value, *part)?)?;
                }
            }
        }
        Ok(())
    }

    // Pushes the items of an array onto the stack, each with its part.
    fn push_items<'v>(
        self,
        part: &Part<'_>,
        spot: &PendingCheck<'v>,
        next: &mut Vec<PendingCheck<'v>>,
    ) -> Result<(), AllocError> {
        let Some(items) = spot.value.as_array() else {
            return Ok(());
        };
        for (i, value) in items.iter().enumerate() {
            let number = part.first.get(i).copied().or(part.rest);
            if let Some(number) = number {
                next.push(self.item(spot, i, value, number)?)?;
            }
        }
        Ok(())
    }

    // Returns an item of an array, with a part.
    fn item<'v>(
        self,
        spot: &PendingCheck<'_>,
        i: usize,
        value: &'v Value,
        part: usize,
    ) -> Result<PendingCheck<'v>, AllocError> {
        let name = format!(in self.alloc; "{i}")?;
        let pointer = child(self.alloc, spot.pointer.as_str(), name.as_str())?;
        Ok(PendingCheck::new(pointer, value, part))
    }

    // Pushes the members of an object onto the stack, each with its parts.
    fn push_members<'v>(
        self,
        part: &Part<'_>,
        spot: &PendingCheck<'v>,
        next: &mut Vec<PendingCheck<'v>>,
        report: &mut Report,
    ) -> Result<()> {
        if !part.has_parts_for_members() {
            return Ok(());
        }
        let Some(members) = spot.value.as_object() else {
            return Ok(());
        };
        for (name, value) in members {
            let pointer = child(self.alloc, spot.pointer.as_str(), name.as_str())?;
            let member = PendingCheck::new(pointer, value, spot.part);
            self.push_member(part, name.as_str(), &member, next, report)?;
        }
        Ok(())
    }

    // Pushes a member onto the stack, with its parts.
    fn push_member<'v>(
        self,
        part: &Part<'_>,
        name: &str,
        member: &PendingCheck<'v>,
        next: &mut Vec<PendingCheck<'v>>,
        report: &mut Report,
    ) -> Result<()> {
        let named = part.named.get(name).copied();
        push_member_with_part_if_some(member, named, next)?;
        let by_pattern = self.push_with_parts_of_matching_patterns(
            part, name, member, next, report,
        )?;
        if named.is_none() && !by_pattern {
            push_member_with_part_if_some(member, part.others, next)?;
        }
        Ok(())
    }

    // Pushes a member onto the stack with the part of each pattern that its name matches. Returns
    // whether its name matches a pattern, or may match one.
    fn push_with_parts_of_matching_patterns<'v>(
        self,
        part: &Part<'_>,
        name: &str,
        member: &PendingCheck<'v>,
        next: &mut Vec<PendingCheck<'v>>,
        report: &mut Report,
    ) -> Result<bool> {
        let mut matches = false;
        for (pattern, number) in &part.by_pattern {
            match self.search.verdict(pattern.as_str(), name)? {
                Verdict::NoMatch => {}
                Verdict::Matches => {
                    matches = true;
                    push_member_with_part_if_some(member, Some(*number), next)?;
                }
                Verdict::OutOfSteps => {
                    matches = true;
                    self.add_undecided_pattern_finding(pattern.as_str(), member, report)?;
                }
            }
        }
        Ok(matches)
    }

    // Adds a finding that it is undecided whether a pattern matches a member's name.
    fn add_undecided_pattern_finding(
        self,
        pattern: &str,
        member: &PendingCheck<'_>,
        report: &mut Report,
    ) -> Result<()> {
        if !report.note(Outcome::Undecided) {
            return Ok(());
        }
        let mut told = String::from_str(self.alloc, "too few steps for ")?;
        told.push_str(pattern)?;
        self.tell("patternProperties", member, told, report)
    }
}

impl Part<'_> {
    // Checks whether the part applies other parts to members.
    fn has_parts_for_members(&self) -> bool {
        self.others.is_some() || !self.named.is_empty() || !self.by_pattern.is_empty()
    }
}

impl Counted {
    // Checks whether the value has what is counted.
    fn is_in(&self, value: &Value) -> bool {
        match self {
            Counted::Parts(_) => true,
            Counted::Items(_) => value.is_array(),
        }
    }
}

impl TextRule<'_> {
    // Returns the message for a string that has no match, or may have none.
    fn complaint(&self, alloc: Global, outcome: Outcome) -> Result<String, AllocError> {
        let pattern = self.pattern.as_str();
        let (before, name) = match self.format {
            Some(format) if outcome == Outcome::Fails => ("not of the format ", format),
            Some(format) => ("too few steps for the format ", format),
            None if outcome == Outcome::Fails => ("no match of ", pattern),
            None => ("too few steps for ", pattern),
        };
        let mut text = String::from_str(alloc, before)?;
        text.push_str(name)?;
        Ok(text)
    }
}

// If there is a part, pushes a member with it onto the stack.
fn push_member_with_part_if_some<'v>(
    member: &PendingCheck<'v>,
    part: Option<usize>,
    next: &mut Vec<PendingCheck<'v>>,
) -> Result<(), AllocError> {
    if let Some(part) = part {
        next.push(PendingCheck::new(member.pointer.clone()?, member.value, part))?;
    }
    Ok(())
}

// Pushes the given items onto the stack in reverse order, so that the first one comes next.
fn push_in_reverse_order<'v>(
    next: &mut Vec<PendingCheck<'v>>,
    spots: &mut Vec<PendingCheck<'v>>,
) -> Result<(), AllocError> {
    for _ in 0..u64::MAX {
        let Some(spot) = next.pop() else {
            break;
        };
        spots.push(spot)?;
    }
    Ok(())
}
