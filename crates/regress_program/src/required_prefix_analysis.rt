//! Computes the required prefix of a program, unit by unit.
//!
//! The prefix is computed from the operations at the beginning of the program. An operation that
//! reads no character is passed, and one that reads a character with a known unit adds that unit.
//! The prefix ends at an operation that does not determine a unit.

ghost use Rattle.std.specs.Prelude.{Bool, ℕ, ◌≡◌, ◌==◌, ◌<◌, ◌≤◌, ◌+◌, ◌^◌, true, false, length};
ghost use Rattle.std.specs.Int.{bit_at};
ghost use Rattle.regex_meaning.specs.CompilationRelation.{Program};
ghost use Rattle.regress_program.specs.declared.ops.Op.TheVariants.{UnitChar, One, Enter};
ghost use Rattle.regress_program.specs.PrefixesAndPrefilters.{units_allowed_by_prefix, IsRequiredPrefixFromInsn, AllowsOnlyAsciiAt, ExcludesKeys};
ghost use Rattle.regress_program.specs.RequiredPrefixAnalysis.{allows_only_key, units_allowed_by_first_set, joined_masks, falls_through, ExtendsPrefix, AllowsEitherPrefix, AreOpsOfProgram};
ghost use Rattle.regress_program.specs.RequiredPrefixAnalysis.{FollowsFromSuccessors, IsOpPrefixContributionOf, IsPrefixOfCharLoop};

use crate::first_set_type::FirstSet;
use crate::ops::{CharLoop, Op};
use crate::plan::Plan;
use crate::required_prefix_types::{MOST, Prefix, is_mask_bit_clear};
use crate::table_keys_of_units::KEYS;

/// The maximum number of operations that are examined.
const STEPS: usize = 64;

/// What an operation contributes to the prefix, from its position on.
#[derive(Clone, Copy)]
pub(crate) enum OpPrefixContribution {
    Unknown,
    /// The contribution of the operation with this index.
    SameAs(usize),
    /// The union of the contributions of both operations.
    UnionOf(usize, usize),
    /// A unit with this key, followed by the contribution of the operation `to`.
    OneUnit {
        key: u8,
        to: usize,
    },
    /// `count` units of the set, followed by the contribution of the operation `to`, if there is
    /// one.
    Units {
        set: FirstSet,
        count: usize,
        to: Option<usize>,
    },
}

impl Prefix {
    // Returns a prefix that restricts nothing. The bits of units that it does not restrict are set,
    // so that adding a unit only clears the bits of the unit itself.
    fn unrestricted_prefix() -> Self
        ensures { result.len ≡ 0 }
    {
        Prefix {
            masks: [u16::MAX; 256],
            len: 0,
        }
    }

    // Appends one unit.
    fn add_unit(&mut self, key: u8)
        requires { self.old.len < 15 }
        ensures { ExtendsPrefix self.old 1 (allows_only_key key) self.new }
    {
        self.masks[usize::from(key)] &= mask_without_bits(self.len, 1);
        self.len += 1;
    }

    // Appends `count` units of a set, as far as there is room.
    fn add_units(&mut self, set: &FirstSet, count: usize)
        ensures { ExtendsPrefix self.old count (units_allowed_by_first_set set.now) self.new }
    {
        let more = count.min(MOST - self.len);
        let kept = mask_without_bits(self.len, more);
        for key in 0..KEYS {
            self.masks[key] &= if set.keys[key] { kept } else { u16::MAX };
        }
        self.len += more;
    }

    // Appends the units of another prefix, as far as there is room.
    fn add_prefix(&mut self, behind: &Prefix)
        ensures { ExtendsPrefix self.old behind.now.len (units_allowed_by_prefix behind.now) self.new }
    {
        let len = self.len;
        for key in 0..KEYS {
            self.masks[key] = join_masks(self.masks[key], len, behind.masks[key]);
        }
        self.len = (len + behind.len).min(MOST);
    }

    // Makes this prefix the union of both.
    fn or(&mut self, other: &Prefix)
        ensures { AllowsEitherPrefix self.old other.now self.new }
    {
        let len = self.len.min(other.len);
        for key in 0..KEYS {
            self.masks[key] = join_masks(self.masks[key] & other.masks[key], len, u16::MAX);
        }
        self.len = len;
    }

    /// Checks whether a unit with this key may occur `ahead` units after the start.
    #[inline(always)]
    pub fn is_key_allowed(&self, key: usize, ahead: usize) -> bool
        requires key { key < 256 }
        requires ahead { ahead < 16 }
        ensures { result ≡ units_allowed_by_prefix self.now ahead key }
    {
        is_mask_bit_clear(self.masks[key], ahead)
    }

    /// Checks whether only units below 128 may occur `ahead` units after the start.
    pub(crate) fn allows_only_ascii_at(&self, ahead: usize) -> bool
        requires { ahead < 16 }
        ensures { result ≡ true → AllowsOnlyAsciiAt self.now ahead }
    {
        self.excludes_key_range_at(128, KEYS, ahead)
    }

    // Checks whether no unit with a key in `from..end` may occur `ahead` units after the start.
    pub(crate) fn excludes_key_range_at(&self, from: usize, end: usize, ahead: usize) -> bool
        requires inside { end ≤ 256 }
        requires ahead { ahead < 16 }
        ensures { result ≡ true → ExcludesKeys self.now from end ahead }
    {
        !is_mask_bit_clear(self.mask_excluding_keys(from, end), ahead)
    }

    /// Returns a mask: bit `j` is set if no unit with a key in `from..end` may occur `j` units
    /// after the start.
    pub(crate) fn mask_excluding_keys(&self, from: usize, end: usize) -> u16
        requires inside { end ≤ 256 }
        ensures { (ahead : ℕ) → (bit_at result ahead == 0) ≡ false → ExcludesKeys self.now from end ahead }
    {
        // Without an early exit, the loop can process many keys at a time.
        let mut mask = u16::MAX;
        for key in from..end {
            mask &= self.masks[key];
        }
        mask
    }
}

// Returns the lowest `count` bits of a mask, followed by the bits of another one.
#[inline(always)]
fn join_masks(first: u16, count: usize, behind: u16) -> u16
    requires { count < 16 }
    ensures { result ≡ joined_masks first count behind }
{
    first & ((1 << count) - 1) | behind << count
}

// Returns a mask with all bits set except `count` bits from `from` on.
#[inline(always)]
fn mask_without_bits(from: usize, count: usize) -> u16
    requires { from + count < 16 }
    ensures { (ahead : ℕ) → from ≤ ahead → ahead < from + count → bit_at result ahead ≡ 0 }
{
    join_masks(u16::MAX, from, u16::MAX << count)
}

/// Returns the required prefix of the program of this plan.
///
/// A search from the first instruction finds nothing unless the prefix allows each of the next
/// units.
pub(crate) fn compute_required_prefix(plan: &Plan) -> Prefix
    ensures { (wide : Bool) (program : Program)
        → AreOpsOfProgram wide program plan.now → IsRequiredPrefixFromInsn wide program 0 result }
{
    prefix_at(plan, 0, STEPS)
}

// Returns the required prefix from an operation on, as far as `steps` operations decide it. At an
// alternation, each arm gets half of the remaining steps.
fn prefix_at(plan: &Plan, from: usize, steps: usize) -> Prefix
    ensures { (wide : Bool) (program : Program)
        → AreOpsOfProgram wide program plan.now → IsRequiredPrefixFromInsn wide program from result }
{
    let mut prefix = Prefix::unrestricted_prefix();
    let mut ip = from;
    let mut left = steps;
    'path: while left > 0 && prefix.len < MOST {
        left -= 1;
        match prefix_step_at(plan, ip) {
            OpPrefixContribution::Unknown => return prefix,
            OpPrefixContribution::SameAs(to) => ip = to,
            OpPrefixContribution::UnionOf(a, b) => {
                let mut either = prefix_at(plan, a, left / 2);
                if either.len == 0 {
                    return prefix;
                }
                either.or(&prefix_at(plan, b, left / 2));
                prefix.add_prefix(&either);
                return prefix;
            }
            OpPrefixContribution::OneUnit { key, to } => {
                prefix.add_unit(key);
                ip = to;
            }
            OpPrefixContribution::Units { set, count, to } => {
                prefix.add_units(&set, count);
                let Some(next) = to else {
                    return prefix;
                };
                ip = next;
            }
        }
    }
    prefix
}

/// Returns the contribution of the operation at `ip`. Inlined into its callers, because the result
/// has room for a set, which each call would clear and copy.
#[inline(always)]
pub(crate) fn prefix_step_at(plan: &Plan, ip: usize) -> OpPrefixContribution
    ensures { (wide : Bool) (program : Program)
        → AreOpsOfProgram wide program plan.now → FollowsFromSuccessors wide program ip result }
{
    match plan.ops.get(ip) {
        Some(op) => prefix_step_of_op(plan, *op, ip),
        None => OpPrefixContribution::Unknown,
    }
}

// Returns the contribution of this operation, which is at `ip`.
#[inline(always)]
fn prefix_step_of_op(plan: &Plan, op: Op, ip: usize) -> OpPrefixContribution
    requires { ip < length plan.now.ops.items }
    ensures { IsOpPrefixContributionOf plan.now op ip result }
{
    if falls_through_silently(op) {
        return OpPrefixContribution::SameAs(ip + 1);
    }
    if let Some(run) = op.as_char_loop() {
        return prefix_step_of_run(plan, run, ip);
    }
    match op {
        Op::UnitChar(c) => prefix_contribution_of_unit(c, ip),
        Op::One(number) => prefix_contribution_of_class(plan, number, ip),
        Op::Goto(to) => OpPrefixContribution::SameAs(to as usize),
        Op::Look(look) => OpPrefixContribution::SameAs(look.past as usize),
        Op::Either(other) => OpPrefixContribution::UnionOf(ip + 1, other as usize),
        Op::Enter(number) => prefix_step_of_entry(plan, number, ip),
        _ => OpPrefixContribution::Unknown,
    }
}

// Checks whether an operation reads nothing, and continues at the next one or fails.
fn falls_through_silently(op: Op) -> bool
    ensures { result ≡ falls_through op }
{
    matches!(
        op,
        Op::LineStart { .. }
            | Op::WordEdge(_)
            | Op::OpenGroup(_)
            | Op::CloseGroup(_)
            | Op::ResetGroup(_)
    )
}

// Returns the contribution of a one-unit character.
// The contribution is right if the plan has this character at `ip`.
fn prefix_contribution_of_unit(c: u32, ip: usize) -> OpPrefixContribution
    requires { ip + 1 < 2 ^ 64 }
    ensures { (plan : Plan) → IsOpPrefixContributionOf plan (UnitChar c) ip result }
{
    if c >= 128 {
        return OpPrefixContribution::Unknown;
    }
    OpPrefixContribution::OneUnit {
        key: c as u8,
        to: ip + 1,
    }
}

// Returns the contribution of a class.
fn prefix_contribution_of_class(plan: &Plan, number: u32, ip: usize) -> OpPrefixContribution
    requires { ip + 1 < 2 ^ 64 }
    ensures { IsOpPrefixContributionOf plan.now (One number) ip result }
{
    match plan.classes.get(number as usize) {
        Some(class) if class.single_unit => OpPrefixContribution::Units {
            set: FirstSet::first_keys_of_class(class),
            count: 1,
            to: Some(ip + 1),
        },
        _ => OpPrefixContribution::Unknown,
    }
}

// Returns the contribution of a char loop: its minimum number of characters and, if that is also
// its maximum, the contribution of what follows.
fn prefix_step_of_run(plan: &Plan, run: CharLoop, ip: usize) -> OpPrefixContribution
    requires { ip + 2 < 2 ^ 64 }
    ensures { IsPrefixOfCharLoop plan.now run ip result }
{
    match (
        plan.classes.get(run.class as usize),
        plan.bounds.get(run.bounds as usize),
    ) {
        (Some(class), Some(bounds)) if class.single_unit => OpPrefixContribution::Units {
            set: FirstSet::first_keys_of_class(class),
            count: bounds.min,
            to: if bounds.min == bounds.max {
                Some(ip + 2)
            } else {
                None
            },
        },
        _ => OpPrefixContribution::Unknown,
    }
}

// Returns the contribution of the head of a loop, if the loop cannot be exited at once.
fn prefix_step_of_entry(plan: &Plan, number: u32, ip: usize) -> OpPrefixContribution
    requires { ip + 1 < 2 ^ 64 }
    ensures { IsOpPrefixContributionOf plan.now (Enter number) ip result }
{
    match plan.counted.get(number as usize) {
        Some(counted) if counted.min > 0 => OpPrefixContribution::SameAs(ip + 1),
        _ => OpPrefixContribution::Unknown,
    }
}
