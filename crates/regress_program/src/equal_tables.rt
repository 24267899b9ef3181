//! Memory of tables: equal tables are stored once, and lists of tables have little spare room.

ghost use Rattle.std.specs.Prelude.{◌≡◌, ◌≤◌, length};

use std::alloc::AllocError;

/// The maximum number of tables with which a new one is compared.
pub(crate) const MOST_COMPARED: usize = 32;

/// A table that can be compared with others of its kind.
pub(crate) trait ComparedTable {
    /// Checks whether both tables have the same entries.
    fn is_equal_to(&self, other: &Self) -> bool;
}

/// Returns the number of a table that is equal to this one. If none of the first `MOST_COMPARED`
/// tables is, returns the number of tables.
pub(crate) fn number_of_equal_table<T: ComparedTable>(tables: &[T], table: &T) -> usize
    ensures { result ≤ length tables.now }
{
    for number in 0..tables.len().min(MOST_COMPARED) {
        if tables[number].is_equal_to(table) {
            return number;
        }
    }
    tables.len()
}

/// Reserves memory for one more table. There is room for at most half as many more tables as there
/// are.
///
/// # Errors
///
/// Returns `Err` if the allocation fails.
pub(crate) fn reserve_for_one_more<T: Drop>(tables: &mut Vec<T>) -> Result<(), AllocError>
    ensures { tables.new.items ≡ tables.old.items }
{
    if tables.len() == tables.capacity() {
        tables.reserve_exact(tables.len() / 2 + 1)?;
    }
    Ok(())
}
