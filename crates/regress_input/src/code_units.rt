//! Code units, in which offsets are counted.

ghost use Rattle.std.specs.Prelude.{◌≡◌, ◌==◌, ◌+◌, ◌≤◌, ℕ, Bool, true, false, refl, map, length, option_map};
ghost use Rattle.std.proofs.Common.{rules};
ghost use Rattle.regex_meaning.specs.CodeUnits.{Encoding, utf8, utf16, ucs2};
ghost use Rattle.regress_input.specs.CharAndByteReadsFromOffset.{is_byte_encoding};
ghost use Rattle.regress_input.specs.TextCodeUnits.{unless_splitting_pair as spec_unless_splitting_pair, as_bytes as spec_as_bytes, MarksUnitsWithBits};

use crate::utf16_decoding;
use std::simd::prelude::*;

/// The number of code units that are tested together.
pub const LANES: usize = 32;

/// A code unit as texts store it: a byte or a 16-bit number.
pub trait CodeUnit: Copy + PartialEq {
    ghost number: { Self → ℕ };

    ghost is_byte: { Bool };

    /// Returns the unit as a number.
    fn to_u32(self) -> u32
        ensures { result ≡ number self };

    /// Returns the units as bytes, or `None` if they are not bytes.
    fn as_bytes(all: &[Self]) -> Option<&[u8]>
        ensures { option_map (λ bytes. bytes.now) result ≡ spec_as_bytes is_byte number all.now };

    /// Tests 32 units from `at` on. Bit `i` of the result is set if and only if, among the bits in
    /// `mask`, exactly those in `bits` are set in unit `at + i`.
    fn units_with_bits(all: &[Self], at: usize, mask: u16, bits: u16) -> u64
        requires { at + 32 ≤ length all.now }
        ensures { MarksUnitsWithBits (map number all.now) at mask bits result };

    /// Does what `units_with_bits` does, for a mask that fits in a byte. 16-bit units are packed to
    /// bytes, so that fewer vectors are compared.
    #[inline(always)]
    fn units_with_byte_bits(all: &[Self], at: usize, mask: u8, bits: u8) -> u64
        requires { at + 32 ≤ length all.now }
        ensures { MarksUnitsWithBits (map number all.now) at mask bits result }
    {
        Self::units_with_bits(all, at, mask as u16, bits as u16)
    }

    ghost equal: { (a b : Self) → Self.eq a b ≡ (number a == number b) };
}

impl CodeUnit for u8 {
    ghost number = { λ u. u };

    ghost is_byte = { true };

    ghost equal = { Prim.search rules };

    #[inline(always)]
    fn to_u32(self) -> u32 {
        self as u32
    }

    #[inline(always)]
    fn as_bytes(all: &[u8]) -> Option<&[u8]> {
        Some(all)
    }

    #[inline(always)]
    fn units_with_bits(all: &[u8], at: usize, mask: u16, bits: u16) -> u64 {
        if bits > 255 {
            return 0;
        }
        let units = u8x32::from_slice(&all[at..]);
        (units & u8x32::splat((mask % 256) as u8))
            .simd_eq(u8x32::splat(bits as u8))
            .to_bitmask()
    }
}

impl CodeUnit for u16 {
    ghost number = { λ u. u };

    ghost is_byte = { false };

    ghost equal = { Prim.search rules };

    #[inline(always)]
    fn to_u32(self) -> u32 {
        self as u32
    }

    #[inline(always)]
    fn as_bytes(_all: &[u16]) -> Option<&[u8]> {
        None
    }

    #[inline(always)]
    fn units_with_bits(all: &[u16], at: usize, mask: u16, bits: u16) -> u64 {
        let units = u16x32::from_slice(&all[at..]);
        (units & u16x32::splat(mask))
            .simd_eq(u16x32::splat(bits))
            .to_bitmask()
    }

    #[inline(always)]
    fn units_with_byte_bits(all: &[u16], at: usize, mask: u8, bits: u8) -> u64 {
        let units = u16x32::from_slice(&all[at..]);
        (units & u16x32::splat(mask as u16))
            .cast::<u8>()
            .simd_eq(u8x32::splat(bits))
            .to_bitmask()
    }
}

/// The code units in which offsets are counted, identified by their encoding.
pub trait CodeUnitEncoding {
    ghost encoding: { Encoding };

    /// The type of a code unit as a text stores it.
    type Unit: CodeUnit;

    ghost ARE_BYTES: { Bool };

    /// Whether the code units are bytes.
    const ARE_BYTES: bool;

    ghost by_encoding: { ARE_BYTES ≡ is_byte_encoding encoding };

    /// Returns `to`, the offset past code units that encode characters. Returns `None` if `to` is
    /// `None` or splits a surrogate pair.
    fn unless_splitting_pair(all: &[Self::Unit], to: Option<usize>) -> Option<usize>
        ensures { result ≡ spec_unless_splitting_pair encoding (map Self.Unit.number all.now) to };

    ghost by_unit: { Self.Unit.is_byte ≡ is_byte_encoding encoding };
}

/// Bytes of UTF-8, which includes ASCII.
pub struct ByteCodeUnitEncoding;

/// 16-bit code units of UTF-16.
pub struct Utf16CodeUnitEncoding;

/// 16-bit code units, each of which is a character.
pub struct Ucs2CodeUnitEncoding;

impl CodeUnitEncoding for ByteCodeUnitEncoding {
    ghost encoding = { utf8 };

    type Unit = u8;

    ghost by_unit = { refl };

    ghost ARE_BYTES = { true };

    const ARE_BYTES: bool = true;

    ghost by_encoding = { refl };

    #[inline(always)]
    fn unless_splitting_pair(_all: &[u8], to: Option<usize>) -> Option<usize> {
        to
    }
}

impl CodeUnitEncoding for Utf16CodeUnitEncoding {
    ghost encoding = { utf16 };

    type Unit = u16;

    ghost by_unit = { refl };

    ghost ARE_BYTES = { false };

    const ARE_BYTES: bool = false;

    ghost by_encoding = { refl };

    #[inline(always)]
    fn unless_splitting_pair(all: &[u16], to: Option<usize>) -> Option<usize> {
        utf16_decoding::offset_if_boundary(all, to)
    }
}

impl CodeUnitEncoding for Ucs2CodeUnitEncoding {
    ghost encoding = { ucs2 };

    type Unit = u16;

    ghost by_unit = { refl };

    ghost ARE_BYTES = { false };

    const ARE_BYTES: bool = false;

    ghost by_encoding = { refl };

    #[inline(always)]
    fn unless_splitting_pair(_all: &[u16], to: Option<usize>) -> Option<usize> {
        to
    }
}

/// A type with code units.
pub trait HasUnitType {
    /// The code units in which its offsets are counted.
    type Units: CodeUnitEncoding;
}

/// States whether code units are bytes. It is implemented for each type with `HasUnitType`, in one
/// way only.
pub trait DeclaresWhetherUnitsAreBytes: HasUnitType {
    ghost CODE_UNITS_ARE_BYTES: { Bool };

    /// Whether code units are bytes, so that the text can be read byte by byte.
    const CODE_UNITS_ARE_BYTES: bool;

    ghost by_units: { CODE_UNITS_ARE_BYTES ≡ Self.Units.ARE_BYTES };
}

impl<Text: HasUnitType> DeclaresWhetherUnitsAreBytes for Text {
    ghost CODE_UNITS_ARE_BYTES = { Text.Units.ARE_BYTES };

    const CODE_UNITS_ARE_BYTES: bool = Text::Units::ARE_BYTES;

    ghost by_units = { refl };
}
