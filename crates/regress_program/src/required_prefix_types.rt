//! Required prefixes: which units may occur where a match begins, and literals in them.

ghost use Rattle.std.specs.Prelude.{◌≡◌, ◌≤◌, ◌<◌, ◌==◌};
ghost use Rattle.std.specs.Int.{bit_at};

/// The maximum number of units that a prefix restricts.
pub const MOST: usize = 15;

/// A required prefix: which units may occur where a match begins.
#[derive(Clone, Copy)]
pub struct Prefix {
    /// For each key of a unit, a mask. Bit `j` is set if such a unit may not occur `j` units after
    /// the start of a match.
    pub masks: [u16; 256],
    /// The number of units that the prefix restricts.
    pub len: usize,
    ghost short: { len ≤ 15 },
}

/// The only unit that may occur `ahead` units after the start of a match.
#[derive(Clone, Copy)]
pub struct RequiredUnitAndOffset {
    pub unit: u8,
    pub ahead: usize,
}

/// Consecutive units, each of which is the only one that may occur at its position: the first `len`
/// of `units`, from `ahead` units after the start of a match on.
#[derive(Clone, Copy)]
pub struct Literal {
    pub units: [u8; 15],
    pub len: usize,
    pub ahead: usize,
}

/// Checks whether a bit of a mask is clear.
#[inline(always)]
pub fn is_mask_bit_clear(mask: u16, bit: usize) -> bool
    requires { bit < 16 }
    ensures { result ≡ (bit_at mask bit == 0) }
{
    mask >> bit & 1 == 0
}
