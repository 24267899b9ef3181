//! Generates texts of a few characters.

use crate::seed::Seed;
use std::alloc::{AllocError, Global};

const ASCII: [&str; 7] = ["a", "b", "a", "k", "K", " ", "\n"];

const ANY: [&str; 8] = ["a", "b", "a", "é", "😀", "\u{212A}", "k", "\u{2028}"];

/// Returns a text with this many characters. In half of the cases, it is ASCII.
pub fn text(alloc: Global, seed: &mut Seed, characters: u32) -> Result<String, AllocError> {
    let mut text = String::new(alloc);
    let ascii = seed.is(5);
    for _ in 0..characters {
        let c = if ascii {
            seed.pick(&ASCII)
        } else {
            seed.pick(&ANY)
        };
        text.push_str(c)?;
    }
    Ok(text)
}
