//! Sets of at most three keys of units.

ghost use Rattle.std.specs.Prelude.{◌≡◌, ◌≤◌, ◌<◌, ◌+◌, ℕ, Bool, true, false, IfSome};
ghost use Rattle.regress_program.specs.ListedUnits.{is_listed, ListsKeysBelow, ListsKeysThatPass};

/// A set of keys of units: the first `len` of `units`. A key below 128 is the unit itself.
#[derive(Clone, Copy)]
pub struct UpToThreeUnits {
    pub units: [u8; 3],
    pub len: usize,
}

/// A test of keys. Contracts see which keys pass.
pub(crate) trait KeySelection {
    ghost selects_key: { Self → (key : ℕ) → Bool };

    /// Checks whether a key passes.
    fn selects(&self, key: u8) -> bool
        ensures { result ≡ selects_key self.now key };
}

/// The number of keys that are tested at a time, an eighth of all keys.
const BLOCK: usize = 32;

impl UpToThreeUnits {
    /// Returns the keys that pass a test. `None` if there are more than three.
    pub(crate) fn of_selected<Selection: KeySelection>(selection: &Selection) -> Option<Self>
        ensures { IfSome result (ListsKeysThatPass (Selection.selects_key selection.now)) }
    {
        let mut few = UpToThreeUnits {
            units: [0; 3],
            len: 0,
        };
        for block in 0..8 {
            if !few.add_selected_of_block(selection, block * BLOCK) {
                return None;
            }
        }
        Some(few)
    }

    // Adds those of the keys `from..from + BLOCK` that pass a test. Returns `false` if there are
    // more than three keys then.
    fn add_selected_of_block<Selection: KeySelection>(
        &mut self,
        selection: &Selection,
        from: usize,
    ) -> bool
        requires inside { from + 32 ≤ 256 }
        requires before { ListsKeysBelow (Selection.selects_key selection.now) self.old.units self.old.len from }
        ensures { result ≡ true
            → ListsKeysBelow (Selection.selects_key selection.now) self.new.units self.new.len (from + 32) }
    {
        if !is_some_key_of_block_selected(selection, from) {
            return true;
        }
        for key in from..from + BLOCK {
            if selection.selects(key as u8) {
                if self.len == 3 {
                    return false;
                }
                self.units[self.len] = key as u8;
                self.len += 1;
            }
        }
        true
    }

    /// Checks whether the set has a key.
    #[inline(always)]
    pub fn has(&self, key: usize) -> bool
        ensures { result ≡ is_listed self.now key }
    {
        let [a, b, c] = self.units;
        match self.len {
            0 => false,
            1 => key == usize::from(a),
            2 => key == usize::from(a) || key == usize::from(b),
            _ => key == usize::from(a) || key == usize::from(b) || key == usize::from(c),
        }
    }
}

// Checks whether some of the keys `from..from + BLOCK` pass a test.
fn is_some_key_of_block_selected<Selection: KeySelection>(
    selection: &Selection,
    from: usize,
) -> bool
    requires { from + 32 ≤ 256 }
    ensures { result ≡ false → (k : ℕ) → from ≤ k → k < from + 32 → Selection.selects_key selection.now k ≡ false }
{
    // Without an early exit, the loop can process many keys at a time.
    let mut some = false;
    for key in from..from + BLOCK {
        some |= selection.selects(key as u8);
    }
    some
}
