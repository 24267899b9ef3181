//! Texts of 16-bit units, without allocations.

/// The maximum number of units.
const MOST: usize = 64;

/// Up to `MOST` units.
#[derive(Clone, Copy)]
pub struct Units {
    units: [u16; MOST],
    len: usize,
}

impl Units {
    // Appends a unit if it fits.
    fn push(&mut self, unit: u16) {
        if let Some(place) = self.units.get_mut(self.len) {
            *place = unit;
            self.len = self.len.saturating_add(1);
        }
    }

    /// Returns the units of a text, or those that are given as hexadecimal numbers after `units:`.
    pub fn of(text: &str) -> Self {
        let mut made = Units {
            units: [0; MOST],
            len: 0,
        };
        match text.strip_prefix("units:") {
            Some(numbers) => {
                for number in numbers.split(' ') {
                    made.push(u16::from_str_radix(number, 16).unwrap_or(0));
                }
            }
            None => {
                for unit in text.encode_utf16() {
                    made.push(unit);
                }
            }
        }
        made
    }

    pub fn as_slice(&self) -> &[u16] {
        self.units.get(..self.len).unwrap_or(&[])
    }
}
