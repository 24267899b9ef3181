//! The languages of patterns.

/// The language that a pattern is written in.
#[derive(Clone, Copy, Debug, PartialEq, Eq)]
pub enum Syntax {
    /// The profile of this crate (`docs/PROFILE.md`).
    Profile,
    /// The whole language of ECMAScript 2018, with annex B.
    EcmaScript2018,
}
