//! The code emitted for a tree.

use crate::instructions::Insn;
use regex_pattern_front::types::BracketContents;

/// The instructions of a tree, the brackets that they refer to, and the number of loops.
#[derive(Drop)]
pub(crate) struct EmittedCode {
    pub(crate) insns: Vec<Insn>,
    pub(crate) brackets: Vec<BracketContents>,
    pub(crate) loops: u32,
}
