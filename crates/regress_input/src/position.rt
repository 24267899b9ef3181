//! Positions in a text: offsets in code units from its left end.

ghost use Rattle.std.specs.Prelude.{◌≡◌, ◌<◌, ◌≤◌, ◌+◌, ◌-◌, ◌^◌, ◌==◌, ℕ, Bool, true, false, Some};
ghost use Rattle.std.specs.Ordering.{nat_cmp};
ghost use Rattle.std.proofs.Common.{rules};

use std::fmt::Debug;
use std::marker::PhantomData;
use std::ops::{Add, AddAssign, Sub, SubAssign};

/// A position in a text. Contracts see its offset in code units (bytes or 16-bit units).
/// Arithmetic, equality and order are those of offsets.
pub trait PositionType: Copy
    + Debug
    + Ord
    + Add<usize, Output = Self>
    + Sub<usize, Output = Self>
    + Sub<Self, Output = usize>
    + AddAssign<usize>
    + SubAssign<usize> {
    ghost offset: { Self → ℕ };

    /// Returns the position at an offset.
    fn from_offset(units: usize) -> Self
        ensures { offset result ≡ units };

    /// Returns the offset of the position.
    fn to_offset(self) -> usize
        ensures { result ≡ offset self };

    /// Returns the value that stands for no position. Its offset is the greatest one, which no text
    /// has.
    fn no_position() -> Self
        ensures { offset result ≡ 2 ^ 64 - 1 };

    // Equality and order of positions are those of their offsets.
    ghost equal: { (p q : Self) → Self.eq p q ≡ (offset p == offset q) };

    ghost in_order: { (p q : Self) → Self.cmp p q ≡ nat_cmp (offset p) (offset q) };

    ghost compared: { (p q : Self) → Self.partial_cmp p q ≡ Some (nat_cmp (offset p) (offset q)) };

    // A position may be moved wherever the new offset fits.
    ghost may_add: { (p : Self) (n : ℕ) → offset p + n < 2 ^ 64 → ⟦<Self as Add<usize>>⟧.can_add p n };

    ghost may_add_assign: { (p : Self) (n : ℕ) → offset p + n < 2 ^ 64
        → ⟦<Self as AddAssign<usize>>⟧.can_add_assign p n };

    ghost may_sub: { (p : Self) (n : ℕ) → n ≤ offset p → ⟦<Self as Sub<usize>>⟧.can_sub p n };

    ghost may_sub_assign: { (p : Self) (n : ℕ) → n ≤ offset p → ⟦<Self as SubAssign<usize>>⟧.can_sub_assign p n };

    ghost can_subtract_positions: { (p q : Self) → offset q ≤ offset p → ⟦<Self as Sub<Self>>⟧.can_sub p q };

    // The new offset is then the sum or the difference.
    ghost added: { (p : Self) (n : ℕ) (q : Self) → ⟦<Self as Add<usize>>⟧.add_gives p n q → offset q ≡ offset p + n };

    ghost add_assigned: { (p : Self) (n : ℕ) (q : Self) → ⟦<Self as AddAssign<usize>>⟧.add_assign_gives p n q
        → offset q ≡ offset p + n };

    ghost subtracted: { (p : Self) (n : ℕ) (q : Self) → ⟦<Self as Sub<usize>>⟧.sub_gives p n q
        → offset q ≡ offset p - n };

    ghost sub_assigned: { (p : Self) (n : ℕ) (q : Self) → ⟦<Self as SubAssign<usize>>⟧.sub_assign_gives p n q
        → offset q ≡ offset p - n };

    ghost measured: { (p q : Self) (n : ℕ) → ⟦<Self as Sub<Self>>⟧.sub_gives p q n → n ≡ offset p - offset q };
}

/// The direction in which a text is read.
pub trait Direction: Copy + Debug {
    ghost FORWARD: { Bool };

    /// Whether the direction is from left to right.
    const FORWARD: bool;

    /// Returns the direction, which has no data.
    fn new() -> Self;
}

/// The direction from left to right.
#[derive(Clone, Copy, Debug)]
pub struct Forward;

/// The direction from right to left.
#[derive(Clone, Copy, Debug)]
pub struct Backward;

impl Direction for Forward {
    ghost FORWARD = { true };

    const FORWARD: bool = true;

    #[inline(always)]
    fn new() -> Self {
        Forward
    }
}

impl Direction for Backward {
    ghost FORWARD = { false };

    const FORWARD: bool = false;

    #[inline(always)]
    fn new() -> Self {
        Backward
    }
}

/// A position that is stored as an offset.
#[derive(Clone, Copy, Debug, PartialEq, Eq, PartialOrd, Ord)]
pub struct IndexPosition<'a> {
    pub(crate) offset: usize,
    text: PhantomData<&'a ()>,
}

impl<'a> IndexPosition<'a> {
    /// Does nothing: a position that is an offset has no size to be checked.
    #[inline(always)]
    pub fn check_size() {}

    /// Returns the position with this offset.
    #[inline(always)]
    pub fn new(offset: usize) -> Self
        ensures { ⟦<IndexPosition<'a> as PositionType>⟧.offset result ≡ offset }
    {
        IndexPosition {
            offset,
            text: PhantomData,
        }
    }
}

/// The position type of the inputs.
pub type DefPosition<'a> = IndexPosition<'a>;

impl<'a> Add<usize> for IndexPosition<'a> {
    type Output = IndexPosition<'a>;

    ghost can_add = { λ p n. p.offset + n < 2 ^ 64 };

    ghost add_gives = { λ p n q. q.offset ≡ p.offset + n };

    #[inline(always)]
    fn add(self, units: usize) -> IndexPosition<'a> {
        IndexPosition {
            offset: self.offset + units,
            text: PhantomData,
        }
    }
}

impl<'a> Sub<usize> for IndexPosition<'a> {
    type Output = IndexPosition<'a>;

    ghost can_sub = { λ p n. n ≤ p.offset };

    ghost sub_gives = { λ p n q. q.offset ≡ p.offset - n };

    #[inline(always)]
    fn sub(self, units: usize) -> IndexPosition<'a> {
        IndexPosition {
            offset: self.offset - units,
            text: PhantomData,
        }
    }
}

impl<'a> Sub<IndexPosition<'a>> for IndexPosition<'a> {
    type Output = usize;

    ghost can_sub = { λ p q. q.offset ≤ p.offset };

    ghost sub_gives = { λ p q n. n ≡ p.offset - q.offset };

    #[inline(always)]
    fn sub(self, other: IndexPosition<'a>) -> usize {
        self.offset - other.offset
    }
}

impl AddAssign<usize> for IndexPosition<'_> {
    ghost can_add_assign = { λ p n. p.offset + n < 2 ^ 64 };

    ghost add_assign_gives = { λ p n q. q.offset ≡ p.offset + n };

    #[inline(always)]
    fn add_assign(&mut self, units: usize) {
        self.offset += units;
    }
}

impl SubAssign<usize> for IndexPosition<'_> {
    ghost can_sub_assign = { λ p n. n ≤ p.offset };

    ghost sub_assign_gives = { λ p n q. q.offset ≡ p.offset - n };

    #[inline(always)]
    fn sub_assign(&mut self, units: usize) {
        self.offset -= units;
    }
}

impl<'a> PositionType for IndexPosition<'a> {
    ghost offset = { λ p. p.offset };

    #[inline(always)]
    fn from_offset(units: usize) -> Self {
        IndexPosition::new(units)
    }

    #[inline(always)]
    fn to_offset(self) -> usize {
        self.offset
    }

    #[inline(always)]
    fn no_position() -> Self {
        IndexPosition::new(usize::MAX)
    }

    ghost equal = { Prim.search rules };

    ghost in_order = { Prim.search rules };

    ghost compared = { Prim.search rules };

    ghost may_add = { λ p n fits. fits };

    ghost may_add_assign = { λ p n fits. fits };

    ghost may_sub = { λ p n fits. fits };

    ghost may_sub_assign = { λ p n fits. fits };

    ghost can_subtract_positions = { λ p q fits. fits };

    ghost added = { λ p n q gives. gives };

    ghost add_assigned = { λ p n q gives. gives };

    ghost subtracted = { λ p n q gives. gives };

    ghost sub_assigned = { λ p n q gives. gives };

    ghost measured = { λ p q n gives. gives };
}
