//! Leaps: a unit that each match must reach, if it is rarer than the starts at which a match may
//! begin.
//!
//! A walk over the operations from the first one proposes a leap. One pass over the operations of
//! the walk then checks it, so the walk may propose anything.

ghost use Rattle.std.specs.Prelude.{◌≡◌, ◌≢◌, ◌<◌, ◌+◌, ◌^◌, true, false, length, slice_get, slice_index_or, Some, IfOk, IfSome, if◌then◌else◌};
ghost use Rattle.regex_meaning.specs.CompilationRelation.{Program};
ghost use Rattle.regress_program.specs.RequiredPrefixAnalysis.{AreOpsOfProgram};
ghost use Rattle.regress_program.specs.TableKeysOfUnits.{is_16_bit_width, unit_table_of_set};
ghost use Rattle.regress_program.specs.Leaps.{is_goal_key, is_passed_key, AreHighKeysAlike, AreGoalsFewAscii, IsLeapRightForProgram};
ghost use Rattle.regress_program.specs.LeapCertificatesOfPlans.{is_op_on_way, AreAllGoalKeys, PassesUnits, PassesReadLengths, ArrivesAtGoal, PassesByteSeq, PassesClass, LoopStaysOnWay};
ghost use Rattle.regress_program.specs.LeapCertificatesOfPlans.{LookaroundStaysOnWay, OpReachesGoal, OpOnWayReachesGoal, OpsOnWayReachGoal};

use crate::char_class_tables::Class;
use crate::first_set_type::FirstSet;
use crate::ops::{CharLoop, LookaroundAndNextOp, Op};
use crate::plan::{CandidateStarts, Plan};
use crate::required_prefix_analysis::{OpPrefixContribution, prefix_step_at};
use crate::required_prefix_prefilters::{RequiredPrefixPrefilter, frequency};
use crate::table_keys_of_units::{KEYS, UnitWidth};
use crate::up_to_three_units::UpToThreeUnits;
use std::alloc::{AllocError, Global};

/// A unit that each match reaches: one of a few units, its goal. The goal may occur before the end
/// of a match or, by a lookahead, after it. All units from the start of the match to the goal are
/// in `over`.
#[derive(Clone, Copy)]
pub struct Leap {
    /// For each key, whether a match may read such a unit before its goal. The entries of all keys
    /// from 128 on are equal.
    pub over: [bool; 256],
    /// The units of the goal. All are below 128.
    pub goal: UpToThreeUnits,
}

impl Leap {
    // Checks whether a key is a key of the goal, if the set contains it.
    fn is_goal_if_in(&self, set: &FirstSet, key: usize) -> bool
        requires { key < 256 }
        ensures { result ≡ true → (unit_table_of_set set.now).keys key ≡ true → is_goal_key self.now key ≡ true }
    {
        !set.keys[key] || self.goal.has(key)
    }

    // Checks whether each key of a set is a key of the goal.
    fn has_as_goals(&self, set: &FirstSet) -> bool
        ensures { result ≡ true → AreAllGoalKeys self.now (unit_table_of_set set.now) }
    {
        for key in 0..KEYS {
            if !self.is_goal_if_in(set, key) {
                return false;
            }
        }
        true
    }

    // Checks whether a match may read a unit with this key before its goal.
    #[inline(always)]
    fn passes_key(&self, key: usize) -> bool
        requires { key < 256 }
        ensures { result ≡ is_passed_key self.now key }
    {
        self.over[key]
    }

    // Checks whether a match may read each of these bytes before its goal.
    fn passes_bytes(&self, bytes: &[u8]) -> bool
        ensures { result ≡ true → PassesUnits self.now bytes.now }
    {
        for i in 0..bytes.len() {
            if !self.passes_key(usize::from(bytes[i])) {
                return false;
            }
        }
        true
    }

    // Checks whether a match may read the characters of a class that begin with a key before its
    // goal.
    fn passes_class_at(&self, class: &Class, key: usize) -> bool
        requires { key < 256 }
        ensures { result ≡ true → slice_index_or class.now.steps key 0 ≢ 0 → is_passed_key self.now key ≡ true }
    {
        (class.steps[key] == 0) | self.passes_key(key)
    }

    // Checks whether a match may read each character of a class before its goal.
    fn passes_class(&self, class: &Class) -> bool
        ensures { result ≡ true → PassesReadLengths self.now class.now.steps }
    {
        // Without an early exit, the loop can process many keys at a time.
        let mut passes = true;
        for key in 0..KEYS {
            passes = passes & self.passes_class_at(class, key);
        }
        passes
    }

    // Allows the characters of a class before the goal.
    fn pass_class(&mut self, class: &Class) {
        for key in 0..128 {
            self.over[key] |= class.steps[key] != 0;
        }
        if has_high_key(class) {
            self.pass_high_keys();
        }
    }

    // Allows units with the keys from 128 on before the goal.
    fn pass_high_keys(&mut self) {
        self.over[128..].fill(true);
    }

    // Checks whether the entry of a key is equal to that of the key 128.
    fn is_like_first_high_key(&self, key: usize) -> bool
        requires { key < 256 }
        ensures { result ≡ true → is_passed_key self.now key ≡ is_passed_key self.now 128 }
    {
        self.passes_key(key) == self.passes_key(128)
    }

    // Checks whether the entries of the keys from 128 on are equal.
    fn treats_high_keys_alike(&self) -> bool
        ensures { result ≡ true → AreHighKeysAlike self.now }
    {
        // Without an early exit, the loop can process many keys at a time.
        let mut alike = true;
        for key in 128..KEYS {
            alike = alike & self.is_like_first_high_key(key);
        }
        alike
    }

    // Checks whether the goal is at most three units, all below 128.
    fn has_few_ascii_goals(&self) -> bool
        ensures { result ≡ true → AreGoalsFewAscii self.now }
    {
        let UpToThreeUnits { units, len } = self.goal;
        let [a, b, c] = units;
        len <= 3 && a < 128 && b < 128 && c < 128
    }
}

/// A leap of a plan, and for each operation whether it is on the way to the goal: a match may reach
/// the operation before it reaches the goal.
#[derive(Clone, Copy)]
struct LeapCheck<'p> {
    plan: &'p Plan,
    units: UnitWidth,
    leap: &'p Leap,
    on_way: &'p [bool],
}

impl LeapCheck<'_> {
    // Checks whether an operation is on the way.
    fn has(self, ip: usize) -> bool
        ensures { result ≡ is_op_on_way self.entry.on_way.now ip }
    {
        match self.on_way.get(ip) {
            Some(on_way) => *on_way,
            None => false,
        }
    }

    // Checks whether the first unit that an operation reads is the goal.
    fn arrives(self, ip: usize) -> bool
        ensures { result ≡ true → ArrivesAtGoal self.entry.plan.now self.entry.leap.now ip }
    {
        match prefix_step_at(self.plan, ip) {
            OpPrefixContribution::OneUnit { key, .. } => self.leap.goal.has(usize::from(key)),
            OpPrefixContribution::Units { set, count, .. } => {
                count > 0 && self.leap.has_as_goals(&set)
            }
            _ => false,
        }
    }

    // Checks whether a match may read each byte of a byte sequence before its goal.
    fn passes_bytes(self, number: u32) -> bool
        ensures { result ≡ true → PassesByteSeq self.entry.plan.now self.entry.leap.now number }
    {
        match self.plan.parts.get(number as usize) {
            Some(part) => match self
                .plan
                .bytes
                .get(part.at..part.at.saturating_add(part.len))
            {
                Some(bytes) => self.leap.passes_bytes(bytes),
                None => false,
            },
            None => false,
        }
    }

    // Checks whether units are bytes and a match may read each byte of a byte sequence before its
    // goal. Programs for 16-bit units have no byte sequences.
    fn passes_byte_seq(self, number: u32) -> bool
        ensures { result ≡ true → (is_16_bit_width self.entry.units ≡ false)
            × PassesByteSeq self.entry.plan.now self.entry.leap.now number }
    {
        match self.units {
            UnitWidth::Bytes => self.passes_bytes(number),
            UnitWidth::Wide => false,
        }
    }

    // Checks whether a match may read each character of a class before its goal.
    fn passes_class(self, number: u32) -> bool
        ensures { result ≡ true → PassesClass self.entry.plan.now self.entry.leap.now number }
    {
        match self.plan.classes.get(number as usize) {
            Some(class) => self.leap.passes_class(class),
            None => false,
        }
    }

    // Checks whether each operation at which a loop continues is on the way: its body and, unless
    // it has to iterate, the operation after it.
    // A loop has to iterate if `entered` is set and its minimum is not 0.
    fn loop_leads(self, number: u32, entered: bool) -> bool
        ensures { result ≡ true
            → LoopStaysOnWay self.entry.plan.now (is_op_on_way self.entry.on_way.now) number
            (λ c. if entered then c.min else 0) }
    {
        match self.plan.counted.get(number as usize) {
            Some(counted) => {
                self.has(counted.begin as usize + 1)
                    && (entered && counted.min > 0 || self.has(counted.exit as usize))
            }
            None => false,
        }
    }

    // Checks whether the operation after a lookaround is on the way. For a positive lookahead, the
    // first operation of its contents may be instead.
    fn lookaround_leads(self, look: LookaroundAndNextOp, ip: usize) -> bool
        requires { ip + 1 < 2 ^ 64 }
        ensures { result ≡ true → LookaroundStaysOnWay (is_op_on_way self.entry.on_way.now) look ip }
    {
        self.has(look.past as usize) || look.forward && !look.negate && self.has(ip + 1)
    }

    // Checks whether an operation reads only units that may precede the goal, and leads only to
    // operations on the way.
    fn leads(self, ip: usize) -> bool
        requires { ip < length self.plan.now.ops.items }
        ensures { (op : Op) → slice_get self.entry.plan.now.ops.items ip ≡ Some op → result ≡ true
            → OpReachesGoal (is_16_bit_width self.entry.units) self.entry.plan.now self.entry.leap.now
            (is_op_on_way self.entry.on_way.now) op ip }
    {
        let op = self.plan.ops[ip];
        if let Some(run) = op.as_char_loop() {
            return self.passes_class(run.class) && self.has(ip + 2);
        }
        match op {
            Op::Fail => true,
            Op::UnitChar(c) | Op::Char(c) => self.leap.over[c.min(128) as usize]
                && self.has(ip + 1),
            Op::Bytes(number) => self.passes_byte_seq(number) && self.has(ip + 1),
            Op::One(number) => self.passes_class(number) && self.has(ip + 1),
            Op::LineStart { .. }
            | Op::LineEnd { .. }
            | Op::WordEdge(_)
            | Op::OpenGroup(_)
            | Op::CloseGroup(_)
            | Op::ResetGroup(_) => self.has(ip + 1),
            Op::Goto(to) => self.has(to as usize),
            Op::Either(other) => self.has(ip + 1) && self.has(other as usize),
            Op::Enter(number) => self.loop_leads(number, true),
            Op::LoopEnd(number) => self.loop_leads(number, false),
            Op::Look(look) => self.lookaround_leads(look, ip),
            // A match ends without the goal. A backreference may read any units.
            _ => false,
        }
    }

    // If an operation is on the way, checks whether it reads the goal first, or leads only to
    // operations on the way.
    fn leads_if_on_way(self, ip: usize) -> bool
        requires { ip < length self.plan.now.ops.items }
        ensures { (op : Op) → slice_get self.entry.plan.now.ops.items ip ≡ Some op → result ≡ true
            → OpOnWayReachesGoal (is_16_bit_width self.entry.units) self.entry.plan.now self.entry.leap.now
            (is_op_on_way self.entry.on_way.now) op ip }
    {
        !self.has(ip) || self.leads(ip) || self.arrives(ip)
    }

    // Checks whether each operation on the way reads the goal first, or leads only to operations on
    // the way.
    fn every_op_on_way_reaches_goal(self) -> bool
        ensures { result ≡ true → OpsOnWayReachGoal (is_16_bit_width self.entry.units) self.entry.plan.now
            self.entry.leap.now (is_op_on_way self.entry.on_way.now) }
    {
        for ip in 0..self.plan.ops.len() {
            if !self.leads_if_on_way(ip) {
                return false;
            }
        }
        true
    }

    // Checks whether each match reaches the goal.
    fn is_leap(self) -> bool
        ensures { let wide = is_16_bit_width self.entry.units in result ≡ true → (program : Program)
            → AreOpsOfProgram wide program self.entry.plan.now → IsLeapRightForProgram wide program
            self.entry.leap.now }
    {
        if !self.has(0) {
            return false;
        }
        if !self.leap.treats_high_keys_alike() {
            return false;
        }
        if !self.leap.has_few_ascii_goals() {
            return false;
        }
        self.every_op_on_way_reaches_goal()
    }
}

// ---- Proposing a leap

/// The maximum number of operations of a walk.
const MOST_STEPS: usize = 512;

/// The maximum frequency of a unit of the goal, in a thousand.
const MAX_GOAL_UNIT_FREQUENCY: u8 = 16;

// Checks whether a unit with this key may be the goal.
fn is_rare(key: usize) -> bool {
    key < 128 && frequency(key as u8) <= MAX_GOAL_UNIT_FREQUENCY
}

/// A walk over all operations to which the first one leads. It stops at each one that reads only a
/// few rare units, which become the goal.
#[derive(Drop)]
struct LeapWalk<'p> {
    plan: &'p Plan,
    // Whether the walk enters the contents of positive lookaheads, and omits what comes after them.
    into_lookaheads: bool,
    leap: Leap,
    on_way: Vec<bool>,
    // The operations on the way that have not been walked over yet.
    ahead: Vec<usize>,
}

impl<'p> LeapWalk<'p> {
    // Returns a walk that has only reached the first operation.
    fn new(alloc: Global, plan: &'p Plan, into_lookaheads: bool) -> Result<Self, AllocError> {
        let mut walk = LeapWalk {
            plan,
            into_lookaheads,
            leap: Leap {
                over: [false; 256],
                goal: UpToThreeUnits {
                    units: [0; 3],
                    len: 0,
                },
            },
            on_way: Vec::from_elem(alloc, false, plan.ops.len())?,
            ahead: Vec::new(alloc),
        };
        walk.mark_op_on_way(0)?;
        Ok(walk)
    }

    // Records that an operation is on the way.
    fn mark_op_on_way(&mut self, ip: usize) -> Result<(), AllocError> {
        if let Some(on_way) = self.on_way.get_mut(ip) {
            if !*on_way {
                *on_way = true;
                self.ahead.push(ip)?;
            }
        }
        Ok(())
    }

    // Allows units with this key before the goal.
    fn pass_key(&mut self, key: usize) {
        if key < 128 {
            self.leap.over[key] = true;
        } else {
            self.leap.pass_high_keys();
        }
    }

    // Adds a unit to the goal, if the goal has room.
    fn add_to_goal(&mut self, unit: u8) -> bool {
        let goal = &mut self.leap.goal;
        if goal.has(usize::from(unit)) {
            return true;
        }
        if goal.len >= 3 {
            return false;
        }
        goal.units[goal.len] = unit;
        goal.len += 1;
        true
    }

    // Makes a character part of the goal, or else allows it before the goal. Returns whether it is
    // part of the goal.
    fn add_char_to_goal_or_pass(&mut self, c: u32) -> bool {
        let key = c.min(128) as usize;
        if is_rare(key) && self.add_to_goal(key as u8) {
            return true;
        }
        self.pass_key(key);
        false
    }

    // Makes the characters of a class part of the goal if they may be, or else allows them before
    // the goal. Returns whether they are part of the goal.
    fn add_class_to_goal_or_pass(&mut self, number: u32, may_be_goal: bool) -> bool {
        let Some(class) = self.plan.classes.get(number as usize) else {
            return false;
        };
        if may_be_goal && are_few_and_rare(class) {
            return self.add_few_keys_to_goal_or_pass(class);
        }
        self.leap.pass_class(class);
        false
    }

    // Makes the few units of a class part of the goal, as far as the goal has room, and allows the
    // others before the goal. Returns whether all are part of the goal.
    fn add_few_keys_to_goal_or_pass(&mut self, class: &Class) -> bool {
        let mut arrives = true;
        for key in 0..KEYS {
            if class.steps[key] != 0 {
                arrives = arrives && self.add_to_goal(key as u8);
                if !arrives {
                    self.pass_key(key);
                }
            }
        }
        arrives
    }

    // Allows the bytes of a byte sequence before the goal.
    fn pass_bytes(&mut self, number: u32) {
        if let Some(part) = self.plan.parts.get(number as usize) {
            for i in part.at..part.at.saturating_add(part.len) {
                if let Some(byte) = self.plan.bytes.get(i).copied() {
                    self.pass_key(usize::from(byte));
                }
            }
        }
    }

    // Walks over a char loop.
    fn step_over_char_loop(&mut self, run: CharLoop, ip: usize) -> Result<(), AllocError> {
        let reads = match self.plan.bounds.get(run.bounds as usize) {
            Some(bounds) => bounds.min > 0,
            None => false,
        };
        if self.add_class_to_goal_or_pass(run.class, reads) {
            Ok(())
        } else {
            self.mark_op_on_way(ip.saturating_add(2))
        }
    }

    // Walks into the body of a loop and over the loop.
    fn step_over_loop(&mut self, number: u32, entered: bool) -> Result<(), AllocError> {
        if let Some(counted) = self.plan.counted.get(number as usize).copied() {
            self.mark_op_on_way(counted.begin as usize + 1)?;
            if !entered || counted.min == 0 {
                self.mark_op_on_way(counted.exit as usize)?;
            }
        }
        Ok(())
    }

    // Walks over a lookaround, or into its contents.
    fn step_over_lookaround(
        &mut self,
        look: LookaroundAndNextOp,
        ip: usize,
    ) -> Result<(), AllocError> {
        if self.into_lookaheads && look.forward && !look.negate {
            self.mark_op_on_way(ip.saturating_add(1))
        } else {
            self.mark_op_on_way(look.past as usize)
        }
    }

    // Walks over one operation. Returns whether each match may still reach a goal.
    fn step_over(&mut self, ip: usize) -> Result<bool, AllocError> {
        let Some(op) = self.plan.ops.get(ip).copied() else {
            return Ok(false);
        };
        if let Some(run) = op.as_char_loop() {
            self.step_over_char_loop(run, ip)?;
            return Ok(true);
        }
        match op {
            Op::Goal | Op::MatchBackref(_) => return Ok(false),
            Op::UnitChar(c) | Op::Char(c) => {
                if !self.add_char_to_goal_or_pass(c) {
                    self.mark_op_on_way(ip.saturating_add(1))?;
                }
            }
            Op::One(number) => {
                if !self.add_class_to_goal_or_pass(number, true) {
                    self.mark_op_on_way(ip.saturating_add(1))?;
                }
            }
            Op::Bytes(number) => {
                self.pass_bytes(number);
                self.mark_op_on_way(ip.saturating_add(1))?;
            }
            Op::Goto(to) => self.mark_op_on_way(to as usize)?,
            Op::Either(other) => {
                self.mark_op_on_way(ip.saturating_add(1))?;
                self.mark_op_on_way(other as usize)?;
            }
            Op::Enter(number) => self.step_over_loop(number, true)?,
            Op::LoopEnd(number) => self.step_over_loop(number, false)?,
            Op::Look(look) => self.step_over_lookaround(look, ip)?,
            Op::Fail => {}
            _ => self.mark_op_on_way(ip.saturating_add(1))?,
        }
        Ok(true)
    }

    // Walks over all operations. Returns whether each match reaches a goal, as far as the walk can
    // tell.
    fn walk(&mut self) -> Result<bool, AllocError> {
        for _step in 0..MOST_STEPS {
            let Some(ip) = self.ahead.pop() else {
                return Ok(self.leap.goal.len > 0);
            };
            if !self.step_over(ip)? {
                return Ok(false);
            }
        }
        Ok(false)
    }
}

// Checks whether a class may accept a character whose first unit has a key from 128 on.
fn has_high_key(class: &Class) -> bool {
    // Without an early exit, the loop can process many keys at a time.
    let mut has = false;
    for key in 128..KEYS {
        has |= class.steps[key] != 0;
    }
    has
}

// Checks whether a class accepts at most three units, all of which are rare.
fn are_few_and_rare(class: &Class) -> bool {
    if !class.single_unit {
        return false;
    }
    let mut count = 0usize;
    for key in 0..KEYS {
        if class.steps[key] != 0 {
            count = count.saturating_add(1);
            if count > 3 || !is_rare(key) {
                return false;
            }
        }
    }
    count > 0
}

// Estimates how often one of a few units occurs in texts, in a thousand.
fn frequency_of(few: UpToThreeUnits) -> u32 {
    let mut sum = 0u32;
    for i in 0..few.len.min(3) {
        sum = sum.saturating_add(u32::from(frequency(few.units[i])));
    }
    sum
}

// Checks whether a start is searched for with vector instructions, as a goal is.
fn is_start_fast(start: &CandidateStarts) -> bool {
    match start {
        CandidateStarts::FewUnits(_) => true,
        CandidateStarts::Prefix { prefilter, .. } => !prefilter.is_absent(),
        _ => false,
    }
}

// Checks whether the goal of a leap is rarer than what must precede a match, if that is known.
fn is_rarer(leap: &Leap, start: &CandidateStarts) -> bool {
    match start {
        CandidateStarts::Behind(before) => { frequency_of(leap.goal) < frequency_of(before.keys) }
        _ => true,
    }
}

// Checks whether an operation is a positive lookahead.
fn is_positive_lookahead(op: &Op) -> bool {
    match op {
        Op::Look(look) => look.forward && !look.negate,
        _ => false,
    }
}

// Checks whether a plan has a positive lookahead.
fn has_positive_lookahead(plan: &Plan) -> bool {
    for op in &plan.ops {
        if is_positive_lookahead(op) {
            return true;
        }
    }
    false
}

// Returns the leap that a walk proposes, if the check accepts it.
fn leap_of_walk(
    alloc: Global,
    plan: &Plan,
    units: UnitWidth,
    into_lookaheads: bool,
) -> Result<Option<Leap>, AllocError>
    ensures { let wide = is_16_bit_width units in IfOk result (λ found. IfSome found (λ leap.
        (program : Program) → AreOpsOfProgram wide program plan.now → IsLeapRightForProgram wide program leap)) }
{
    let mut walk = LeapWalk::new(alloc, plan, into_lookaheads)?;
    if !walk.walk()? {
        return Ok(None);
    }
    let leap = walk.leap;
    if !is_rarer(&leap, &plan.start) {
        return Ok(None);
    }
    let way = LeapCheck {
        plan,
        units,
        leap: &leap,
        on_way: &walk.on_way,
    };
    if way.is_leap() {
        Ok(Some(leap))
    } else {
        Ok(None)
    }
}

// Checks whether a plan reads a unit that may be the goal of a leap. If it does not, no walk finds
// a goal.
fn has_rare_unit(plan: &Plan) -> bool {
    has_rare_char(&plan.ops) || has_rare_class(&plan.classes)
}

// Checks whether one of these classes may be the goal of a leap.
fn has_rare_class(classes: &[Class]) -> bool {
    for class in classes {
        if are_few_and_rare(class) {
            return true;
        }
    }
    false
}

// Checks whether one of these operations reads a character that may be the goal of a leap.
fn has_rare_char(ops: &[Op]) -> bool {
    for op in ops {
        if let Op::UnitChar(c) = op {
            if is_rare((*c).min(128) as usize) {
                return true;
            }
        }
    }
    false
}

/// Returns the leap of a plan for texts of these units. `None` if there is none, or if the plan's
/// start is searched for as fast.
///
/// # Errors
///
/// Returns `Err` if an allocation fails.
pub(crate) fn leap_of(
    alloc: Global,
    plan: &Plan,
    units: UnitWidth,
) -> Result<Option<Leap>, AllocError>
    ensures { let wide = is_16_bit_width units in IfOk result (λ found. IfSome found (λ leap.
        (program : Program) → AreOpsOfProgram wide program plan.now → IsLeapRightForProgram wide program leap)) }
{
    if is_start_fast(&plan.start) || !has_rare_unit(plan) {
        return Ok(None);
    }
    let leap = leap_of_walk(alloc, plan, units, false)?;
    if leap.is_some() || !has_positive_lookahead(plan) {
        return Ok(leap);
    }
    leap_of_walk(alloc, plan, units, true)
}
