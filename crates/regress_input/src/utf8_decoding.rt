//! Decoding characters from UTF-8 bytes.

ghost use Rattle.std.specs.Prelude.{◌≡◌, ◌+◌, ◌*◌, ℕ};
ghost use Rattle.std.specs.Char.{IsScalar, len_utf8};
ghost use Rattle.regress_input.specs.Utf8.{IsEncodedAt, IsEncodedBetween};

/// Returns the character that begins at offset `at`, and the offset at which it ends.
#[inline(always)]
pub(crate) fn character_at(bytes: &[u8], at: usize) -> (char, usize)
    requires { (c : ℕ) × IsEncodedAt bytes.now at c }
    ensures { (c : ℕ) → IsEncodedAt bytes.now at c → (result.0 ≡ c) × (result.1 ≡ at + len_utf8 c) }
{
    let first = bytes[at];
    if first < 0x80 {
        return (first as char, at + 1);
    }
    let second = bytes[at + 1];
    if first < 0xE0 {
        return (character_of_two(first, second), at + 2);
    }
    let third = bytes[at + 2];
    if first < 0xF0 {
        return (character_of_three(first, second, third), at + 3);
    }
    (
        character_of_four(first, second, third, bytes[at + 3]),
        at + 4,
    )
}

/// Returns the character that ends at offset `end`, and the offset at which it begins.
#[inline(always)]
pub(crate) fn character_before(bytes: &[u8], end: usize) -> (char, usize)
    requires { (start : ℕ) × (c : ℕ) × IsEncodedBetween bytes.now end start c }
    ensures { (start c : ℕ) → IsEncodedBetween bytes.now end start c → (result.0 ≡ c) × (result.1 ≡ start) }
{
    let last = bytes[end - 1];
    if last < 0x80 {
        return (last as char, end - 1);
    }
    let second = bytes[end - 2];
    if second >= 0xC0 {
        return (character_of_two(second, last), end - 2);
    }
    let third = bytes[end - 3];
    if third >= 0xC0 {
        return (character_of_three(third, second, last), end - 3);
    }
    (
        character_of_four(bytes[end - 4], third, second, last),
        end - 4,
    )
}

// The characters that two, three and four bytes encode. The lead byte and each continuation byte
// have a fixed part. The number that is subtracted is the sum of these parts.

#[inline(always)]
fn character_of_two(first: u8, second: u8) -> char
    requires { (c : ℕ) × IsScalar c × (c + 12416 ≡ first * 64 + second) }
    ensures { result + 12416 ≡ first * 64 + second }
{
    unsafe { char::from_u32_unchecked(first as u32 * 64 + second as u32 - 12416) }
}

#[inline(always)]
fn character_of_three(first: u8, second: u8, third: u8) -> char
    requires { (c : ℕ) × IsScalar c × (c + 925824 ≡ first * 4096 + second * 64 + third) }
    ensures { result + 925824 ≡ first * 4096 + second * 64 + third }
{
    unsafe {
        char::from_u32_unchecked(first as u32 * 4096 + second as u32 * 64 + third as u32 - 925824)
    }
}

#[inline(always)]
fn character_of_four(first: u8, second: u8, third: u8, fourth: u8) -> char
    requires { (c : ℕ) × IsScalar c
        × (c + 63447168 ≡ first * 262144 + second * 4096 + third * 64 + fourth) }
    ensures { result + 63447168 ≡ first * 262144 + second * 4096 + third * 64 + fourth }
{
    let code = first as u32 * 262144 + second as u32 * 4096 + third as u32 * 64 + fourth as u32
        - 63447168;
    unsafe { char::from_u32_unchecked(code) }
}
