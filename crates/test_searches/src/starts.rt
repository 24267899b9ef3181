//! Offsets at which searches may start.

ghost use Rattle.std.specs.Prelude.{◌<◌, ◌⊎◌, IsCharBoundary, IsTrue, length};

// Checks whether an offset is a character boundary of the text, or past the end.
pub fn is_start(text: &str, offset: usize) -> bool
    ensures { IsTrue result → IsCharBoundary text.now offset ⊎ (length text.now < offset) }
{
    text.is_char_boundary(offset) || text.len() < offset
}
