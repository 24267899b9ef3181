//! Checks whether the contents of lookarounds have loops or join alternatives.

ghost use Rattle.std.specs.Prelude.{◌≡◌, ◌<◌, ◌^◌, ◌-◌, length, map, slice_get};
ghost use Rattle.std.specs.List.{list_any};
ghost use Rattle.regex_meaning.specs.NumberListHelpers.{numbers_from};
ghost use Rattle.regress_program.specs.InsnsAsSpec.{insn_as_spec_insn};
ghost use Rattle.regress_bounded.specs.Unboundedness.{is_complex_lookaround, is_goal_at, repeats_or_joins};

use regress_program::insn::Insn;

/// Checks whether a program has a lookaround with complex contents. Contents are complex if they have
/// a loop, or an alternative that other contents follow. A loop over one character that has a maximum
/// does not count.
pub(crate) fn has_complex_lookaround(insns: &[Insn]) -> bool
    ensures { let code = map insn_as_spec_insn insns.now in
        result ≡ list_any (is_complex_lookaround code) (numbers_from 0 (length code)) }
{
    for ip in 0..insns.len() {
        if is_complex_lookaround(insns, ip) {
            return true;
        }
    }
    false
}

// Checks whether the instruction `ip` is such a lookaround.
fn is_complex_lookaround(insns: &[Insn], ip: usize) -> bool
    requires { ip < length insns.now }
    ensures { result ≡ is_complex_lookaround (map insn_as_spec_insn insns.now) ip }
{
    match insns[ip] {
        Insn::Lookahead { continuation, .. } => any_repeats_or_joins(
            insns,
            ip + 1,
            continuation as usize,
        ),
        Insn::Lookbehind { continuation, .. } => any_repeats_or_joins(
            insns,
            ip + 1,
            continuation as usize,
        ),
        _ => false,
    }
}

// Checks whether one of the instructions from `first` up to `end` is a loop or joins alternatives.
fn any_repeats_or_joins(insns: &[Insn], first: usize, end: usize) -> bool
    ensures { let code = map insn_as_spec_insn insns.now in
        result ≡ list_any (λ ip. repeats_or_joins code (slice_get code ip)) (numbers_from first (end - first)) }
{
    for ip in first..end {
        if repeats_or_joins(insns, ip) {
            return true;
        }
    }
    false
}

// Checks whether the instruction `ip` is a loop without a maximum or over more than one character,
// or a jump that does not lead to a goal.
fn repeats_or_joins(insns: &[Insn], ip: usize) -> bool
    ensures { let code = map insn_as_spec_insn insns.now in result ≡ repeats_or_joins code (slice_get code ip) }
{
    match insns.get(ip) {
        Some(Insn::EnterLoop { .. }) => true,
        Some(Insn::Loop1CharBody { max_iters, .. }) => *max_iters == usize::MAX,
        Some(Insn::Jump { target }) => !is_goal_at(insns, *target as usize),
        _ => false,
    }
}

// Checks whether the instruction `ip` is a goal.
fn is_goal_at(insns: &[Insn], ip: usize) -> bool
    ensures { result ≡ is_goal_at (slice_get (map insn_as_spec_insn insns.now) ip) }
{
    matches!(insns.get(ip), Some(Insn::Goal))
}
