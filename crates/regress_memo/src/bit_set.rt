//! A bit set stored in 64-bit words.

ghost use Rattle.std.specs.Prelude.{◌≡◌, ◌<◌, ◌*◌, ◌||◌, ◌==◌, ℕ, false, length, IfOk};
ghost use Rattle.regress_memo.specs.BitSet.{is_set};

use std::alloc::{AllocError, Global};

/// A bit set with 64 bits in each word. The lowest bit comes first.
#[derive(Drop)]
pub(crate) struct Bits {
    pub(crate) words: Vec<u64>,
}

impl Bits {
    // Allocates a set with at least `count` bits, all of which are clear.
    pub(crate) fn new(alloc: Global, count: usize) -> Result<Bits, AllocError>
        ensures room { IfOk result (λ bits. count < 64 * length bits.words.items) }
        ensures none { IfOk result (λ bits. (n : ℕ) → is_set bits.words.items n ≡ false) }
    {
        let words = Vec::from_elem(alloc, 0u64, count / 64 + 1)?;
        Ok(Bits { words })
    }

    #[inline(always)]
    pub(crate) fn has(&self, n: usize) -> bool
        requires { n < 64 * length self.now.words.items }
        ensures { result ≡ is_set self.now.words.items n }
    {
        let word = self.words[n / 64];
        word >> (n % 64) as u32 & 1 == 1
    }

    #[inline(always)]
    pub(crate) fn set(&mut self, n: usize)
        requires { n < 64 * length self.old.words.items }
        ensures set { (i : ℕ) → is_set self.new.words.items i ≡ (is_set self.old.words.items i || i == n) }
        ensures room { length self.new.words.items ≡ length self.old.words.items }
    {
        let word = self.words[n / 64];
        self.words[n / 64] = word | 1u64 << (n % 64) as u32;
    }
}
