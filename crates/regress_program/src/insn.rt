//! Programs: instructions with a tree, a plan and names. The instructions themselves are in
//! `instructions`.

mod byte_and_unit_programs;
mod common_program_part;
mod emitted_code;
mod group_name_storage;
mod plan_for_16_bit_units;
mod start_predicate_type;

pub use crate::insn::byte_and_unit_programs::{CompiledRegex, CompiledRegexFor16BitUnits};
pub use crate::insn::common_program_part::Program;
pub(crate) use crate::insn::emitted_code::EmittedCode;
pub use crate::insn::group_name_storage::GroupNames;
pub(crate) use crate::insn::plan_for_16_bit_units::PlanAndCodeFor16BitUnits;
pub use crate::insn::start_predicate_type::StartPredicate;
pub use crate::instructions::{Insn, LoopFields, MAX_BYTE_SEQ_LENGTH};
pub use regex_pattern_front::types::MAX_CHAR_SET_LENGTH;
