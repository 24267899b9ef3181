//! Pseudo-random numbers that are the same in each run.

/// The state of the generator.
#[derive(Clone, Copy)]
pub struct Seed(u64);

impl Seed {
    pub fn new() -> Self {
        Seed(0x9E37_79B9_7F4A_7C15)
    }

    // Returns the next number, of 32 bits.
    fn next(&mut self) -> u64 {
        self.0 = self
            .0
            .wrapping_mul(6_364_136_223_846_793_005)
            .wrapping_add(1_442_695_040_888_963_407);
        self.0 >> 32
    }

    /// Returns `true` in `in_ten` out of ten cases.
    pub fn is(&mut self, in_ten: u64) -> bool {
        self.next() % 10 < in_ten
    }

    /// Returns one of these texts. Empty if there are none.
    pub fn pick(&mut self, texts: &[&'static str]) -> &'static str {
        let many = (texts.len() as u64).max(1);
        let at = (self.next() % many) as usize;
        texts.get(at).copied().unwrap_or("")
    }
}
