//! Sets of bytes, and the search for their first occurrence.

ghost use Rattle.std.specs.Prelude.{◌≡◌, ◌<◌, ◌≤◌, ◌||◌, ◌==◌, ℕ, Bool, true, List, [], length, slice_index};
ghost use Rattle.regex_meaning.specs.{NumberListHelpers.{contains}, StartPredicate.{bytes_that_pass}};
ghost use Rattle.regex_pattern_front.specs.FirstPassingIndex.{FindsFirstPassingIndex, is_member_byte_at_index};

/// A set of bytes. Contracts refer to its `members`.
pub trait ByteSet: Copy {
    ghost members: { Self → List ℕ };

    /// Checks whether a byte is in the set.
    fn contains(&self, byte: u8) -> bool
        ensures { result ≡ contains (members self.now) byte };

    /// Checks whether a character is in the set. A character that is not a byte is not in the set.
    fn byte_set_has_char(&self, c: u32) -> bool
        ensures { result ≡ contains (members self.now) c };
}

/// A set of bytes that is an array of at most four bytes.
pub trait SmallArraySet: ByteSet {}

/// A set or a sequence of bytes to search for. Contracts refer to the indices at which it occurs
/// (`stands_at`).
pub trait ByteSearcher {
    ghost stands_at: { Self → (bytes : List ℕ) → (index : ℕ) → Bool };

    /// Returns the first index at which it occurs, or `None` if it does not occur.
    fn find_in(&self, bytes: &[u8]) -> Option<usize>
        ensures { FindsFirstPassingIndex (stands_at self.now bytes.now) (length bytes.now) result };
}

/// A set of bytes below 128.
#[derive(Clone, Copy)]
pub struct AsciiBitmap {
    bits: [u64; 2],
    ghost sized: { length bits ≡ 2 },
}

impl Default for AsciiBitmap {
    ghost use Rattle.regex_pattern_front.specs.ByteSetMembers.{member_bytes_of_ascii_bitmap};

    fn default() -> Self
        ensures { member_bytes_of_ascii_bitmap result ≡ [] }
    {
        AsciiBitmap { bits: [0; 2] }
    }
}

impl AsciiBitmap {
    ghost use Rattle.regex_pattern_front.specs.ByteSetMembers.{member_bytes_of_ascii_bitmap};

    /// Adds a byte. A byte of 128 or more is not ASCII, and leaves the set unchanged.
    pub fn set(&mut self, byte: u8)
        ensures added { byte < 128 → member_bytes_of_ascii_bitmap self.new
            ≡ bytes_that_pass (λ b. b == byte || contains (member_bytes_of_ascii_bitmap self.old) b) }
        ensures kept { 128 ≤ byte → member_bytes_of_ascii_bitmap self.new ≡ member_bytes_of_ascii_bitmap self.old }
    {
        if byte < 128 {
            self.bits[usize::from(byte / 64)] |= 1 << (byte % 64);
        }
    }

    /// Checks whether both sets have the same bytes.
    pub fn has_same_bytes(&self, other: &AsciiBitmap) -> bool
        ensures { result ≡ true → member_bytes_of_ascii_bitmap self.now ≡ member_bytes_of_ascii_bitmap other.now }
    {
        self.bits == other.bits
    }
}

impl ByteSet for AsciiBitmap {
    ghost use Rattle.regex_pattern_front.specs.ByteSetMembers.{member_bytes_of_ascii_bitmap};

    ghost members = { member_bytes_of_ascii_bitmap };

    #[inline(always)]
    fn contains(&self, byte: u8) -> bool {
        byte < 128 && self.bits[usize::from(byte / 64)] >> (byte % 64) & 1 != 0
    }

    #[inline(always)]
    fn byte_set_has_char(&self, c: u32) -> bool {
        c < 128 && self.contains(c as u8)
    }
}

/// A set of bytes: for each byte, whether it is in the set.
#[derive(Clone, Copy)]
pub struct ByteBitmap {
    table: [bool; 256],
    ghost sized: { length table ≡ 256 },
}

impl Default for ByteBitmap {
    ghost use Rattle.regex_pattern_front.specs.ByteSetMembers.{member_bytes_of_byte_bitmap};

    fn default() -> Self
        ensures { member_bytes_of_byte_bitmap result ≡ [] }
    {
        ByteBitmap {
            table: [false; 256],
        }
    }
}

impl ByteBitmap {
    ghost use Rattle.regex_pattern_front.specs.ByteSetMembers.{member_bytes_of_byte_bitmap};

    /// Adds a byte.
    pub fn set(&mut self, byte: u8)
        ensures { member_bytes_of_byte_bitmap self.new ≡ bytes_that_pass
            (λ b. b == byte || contains (member_bytes_of_byte_bitmap self.old) b) }
    {
        self.table[usize::from(byte)] = true;
    }
}

impl ByteSet for ByteBitmap {
    ghost use Rattle.regex_pattern_front.specs.ByteSetMembers.{member_bytes_of_byte_bitmap};

    ghost members = { member_bytes_of_byte_bitmap };

    #[inline(always)]
    fn contains(&self, byte: u8) -> bool {
        self.table[usize::from(byte)]
    }

    #[inline(always)]
    fn byte_set_has_char(&self, c: u32) -> bool {
        c < 256 && self.contains(c as u8)
    }
}

/// A small set of bytes: an array of 2 to 4 bytes, some of which may be equal.
#[derive(Clone, Copy)]
pub struct ByteArraySet<ArraySet>(pub ArraySet);

impl<ArraySet: SmallArraySet> ByteSet for ByteArraySet<ArraySet> {
    ghost members = { λ s. ArraySet.members s.0 };

    #[inline(always)]
    fn contains(&self, byte: u8) -> bool {
        self.0.contains(byte)
    }

    #[inline(always)]
    fn byte_set_has_char(&self, c: u32) -> bool {
        self.0.byte_set_has_char(c)
    }
}

impl ByteSet for [u8; 1] {
    ghost members = { λ s. s };

    #[inline(always)]
    fn contains(&self, byte: u8) -> bool {
        let [a] = *self;
        byte == a
    }

    #[inline(always)]
    fn byte_set_has_char(&self, c: u32) -> bool {
        let [first] = *self;
        c == first as u32
    }
}

impl ByteSet for [u8; 2] {
    ghost members = { λ s. s };

    #[inline(always)]
    fn contains(&self, byte: u8) -> bool {
        let [a, b] = *self;
        byte == a || byte == b
    }

    #[inline(always)]
    fn byte_set_has_char(&self, c: u32) -> bool {
        let [first, second] = *self;
        c == first as u32 || c == second as u32
    }
}

impl ByteSet for [u8; 3] {
    ghost members = { λ s. s };

    #[inline(always)]
    fn contains(&self, byte: u8) -> bool {
        let [a, b, c] = *self;
        byte == a || byte == b || byte == c
    }

    #[inline(always)]
    fn byte_set_has_char(&self, c: u32) -> bool {
        let [first, second, third] = *self;
        c == first as u32 || c == second as u32 || c == third as u32
    }
}

impl ByteSet for [u8; 4] {
    ghost members = { λ s. s };

    #[inline(always)]
    fn contains(&self, byte: u8) -> bool {
        let [a, b, c, d] = *self;
        byte == a || byte == b || byte == c || byte == d
    }

    #[inline(always)]
    fn byte_set_has_char(&self, c: u32) -> bool {
        let [first, second, third, fourth] = *self;
        c == first as u32 || c == second as u32 || c == third as u32 || c == fourth as u32
    }
}

impl SmallArraySet for [u8; 2] {}

impl SmallArraySet for [u8; 3] {}

impl SmallArraySet for [u8; 4] {}

impl ByteSearcher for ByteBitmap {
    ghost use Rattle.regex_pattern_front.specs.ByteSetMembers.{member_bytes_of_byte_bitmap};

    ghost stands_at = { λ s bytes. is_member_byte_at_index (member_bytes_of_byte_bitmap s) bytes };

    #[inline(always)]
    fn find_in(&self, bytes: &[u8]) -> Option<usize> {
        find_member(self, bytes)
    }
}

impl ByteSearcher for [u8; 1] {
    ghost stands_at = { λ s bytes. is_member_byte_at_index s bytes };

    #[inline(always)]
    fn find_in(&self, bytes: &[u8]) -> Option<usize> {
        find_member(self, bytes)
    }
}

impl ByteSearcher for [u8; 2] {
    ghost stands_at = { λ s bytes. is_member_byte_at_index s bytes };

    #[inline(always)]
    fn find_in(&self, bytes: &[u8]) -> Option<usize> {
        find_member(self, bytes)
    }
}

impl ByteSearcher for [u8; 3] {
    ghost stands_at = { λ s bytes. is_member_byte_at_index s bytes };

    #[inline(always)]
    fn find_in(&self, bytes: &[u8]) -> Option<usize> {
        find_member(self, bytes)
    }
}

// Returns the first index of a byte of the set, or `None` if there is none.
#[inline(always)]
fn find_member<S: ByteSet>(set: &S, bytes: &[u8]) -> Option<usize>
    ensures { FindsFirstPassingIndex (is_member_byte_at_index (S.members set.now) bytes.now) (length bytes.now) result }
{
    let mut at = 0;
    while at < bytes.len() {
        if set.contains(bytes[at]) {
            return Some(at);
        }
        at += 1;
    }
    None
}
