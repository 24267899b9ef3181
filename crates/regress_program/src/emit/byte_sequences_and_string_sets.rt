//! Emits the code of byte sequences and strings.

ghost use Rattle.std.specs.Prelude.{◌≡◌, ◌+◌, ◌-◌, ◌*◌, ◌<◌, ◌^◌, length, min, take, drop, OnOk};
ghost use Rattle.regex_meaning.specs.{Tree.{byte_sequence, string_set}, Text.{expand_code_point as spec_expand_code_point}, CompilationRelation.{chunks}};
ghost use Rattle.regex_meaning.specs.CompilationRelation as layout;
ghost use Rattle.regress_program.specs.CompilationOfTreesAsFunction.{string_code, strings_size};
ghost use Rattle.regress_program.specs.EmitterStateAndAppendedCode.{IsEmitted, emitter_state, with_insn_appended, with_insns_appended, strings_as_code_points};

use crate::emit::emitter::{EmitMode, Emitter};
use crate::emit::small_set_and_assertion_insns::insn_of_case_variants;
use crate::instructions::{Insn, MAX_BYTE_SEQ_LENGTH, byte_seq_insn};
use regex_pattern_front::folding_and_first_bytes::expand_code_point;
use std::alloc::AllocError;

// Returns the number of chunks of a byte sequence.
pub(crate) fn chunk_count(bytes: &[u8]) -> usize
    ensures { result ≡ length (chunks bytes.now) }
{
    bytes.len().div_ceil(MAX_BYTE_SEQ_LENGTH)
}

// Returns the number of instructions of a set of strings, saturating at `usize::MAX`.
pub(crate) fn insn_count_of_strings(strings: &[Vec<u32>]) -> usize
    ensures { result ≡ min (strings_size (strings_as_code_points strings.now)) (2 ^ 64 - 1) }
{
    let Some((first, others)) = strings.split_first() else {
        return 1;
    };
    let mut size = first.len();
    for string in others {
        size = size.saturating_add(string.len()).saturating_add(2);
    }
    size
}

impl Emitter {
    // Emits literal bytes in chunks, in reverse order inside a lookbehind.
    pub(crate) fn emit_bytes(&mut self, mode: EmitMode, bytes: &[u8]) -> Result<(), AllocError>
        ensures { OnOk result (IsEmitted mode (byte_sequence bytes.now) self.old self.new) }
    {
        let count = chunk_count(bytes);
        for at in 0..count {
            self.emit_chunk(bytes, mode.index_in_emission_order(at, count))?;
        }
        Ok(())
    }

    // Emits the chunk with this number: at most 16 bytes.
    fn emit_chunk(&mut self, bytes: &[u8], chunk: usize) -> Result<(), AllocError>
        requires { chunk * 16 < length bytes.now }
        ensures { OnOk result (emitter_state self.new
            ≡ with_insn_appended (layout.ByteSeq (take 16 (drop (chunk * 16) bytes.now))) (emitter_state self.old)) }
    {
        let rest = &bytes[chunk * MAX_BYTE_SEQ_LENGTH..];
        self.append_insn(byte_seq_insn(&rest[..rest.len().min(MAX_BYTE_SEQ_LENGTH)]))
    }

    // Emits the alternatives of a set of strings. Each but the last has a branch before it and a
    // jump after it.
    pub(crate) fn emit_strings(
        &mut self,
        mode: EmitMode,
        icase: bool,
        strings: &[Vec<u32>],
    ) -> Result<(), AllocError>
        requires { length (emitter_state self.old).insns + strings_size
            (strings_as_code_points strings.now) < 2 ^ 32 }
        ensures { OnOk result
            (IsEmitted mode (string_set (strings_as_code_points strings.now) icase) self.old self.new) }
    {
        if strings.is_empty() {
            return self.append_insn(Insn::JustFail);
        }
        let last = strings.len() - 1;
        let target = self.next() + insn_count_of_strings(strings) as u32;
        for at in 0..last {
            let string = &strings[at];
            let secondary = self.next() + string.len() as u32 + 2;
            self.append_insn(Insn::Alt { secondary })?;
            self.emit_string(mode, icase, string)?;
            self.append_insn(Insn::Jump { target })?;
        }
        self.emit_string(mode, icase, &strings[last])
    }

    // Emits the code points of a string, in reverse order inside a lookbehind.
    fn emit_string(&mut self, mode: EmitMode, icase: bool, string: &[u32]) -> Result<(), AllocError>
        ensures { OnOk result (emitter_state self.new
            ≡ with_insns_appended (string_code mode.unicode icase mode.behind string.now) (emitter_state self.old)) }
    {
        for at in 0..string.len() {
            self.emit_spellings(
                mode,
                icase,
                string[mode.index_in_emission_order(at, string.len())],
            )?;
        }
        Ok(())
    }

    // Emits one character of a string or, with `icase`, the set of its case variants.
    fn emit_spellings(&mut self, mode: EmitMode, icase: bool, c: u32) -> Result<(), AllocError>
        ensures { OnOk result (emitter_state self.new
            ≡ with_insn_appended (layout.case_variants_insn (spec_expand_code_point c icase mode.unicode))
            (emitter_state self.old)) }
    {
        let alloc = *self.insns.allocator();
        let members = expand_code_point(alloc, c, icase, mode.unicode)?;
        self.append_insn(insn_of_case_variants(&members))
    }
}
