//! Flags of a pattern.

/// Flags of a pattern, as in `/pattern/flags` of ECMAScript, and whether to skip optimization.
#[derive(Clone, Copy, Debug, Default, PartialEq, Eq)]
pub struct Flags {
    /// ASCII letters match in either case (`i`).
    pub icase: bool,
    /// `^` and `$` also match beside line terminators (`m`).
    pub multiline: bool,
    /// `.` also matches line terminators (`s`).
    pub dot_all: bool,
    /// The tree is not optimized after parsing.
    pub no_opt: bool,
    /// Patterns are read by code points, and with `i`, U+017F matches as `s` does and U+212A as `k`
    /// (`u`).
    pub unicode: bool,
    /// Classes with set operations or nested classes are errors (`v`).
    pub unicode_sets: bool,
}
