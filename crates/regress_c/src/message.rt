//! The texts of the codes.

ghost use Rattle.std.specs.Prelude.{◌≡◌};
ghost use Rattle.regress_c.specs.Messages.{message_of_code};

/// Returns the text of a code, in ASCII.
pub(crate) fn message_of_code(code: u32) -> &'static str
    ensures { result.now ≡ message_of_code code }
{
    match code {
        0 => "done",
        1 => "no match",
        2 => "the handle holds no pattern",
        3 => "the handle already holds a pattern",
        4 => "the pattern, the text or the replacement is not valid UTF-8",
        5 => "the offset splits a character",
        6 => "the buffer is too short",
        7 => "out of memory",
        8 => "the step limit is reached",
        9 => "the pattern has a syntax error",
        10 => "too many groups (at most 65535)",
        11 => "too many loops (at most 65535)",
        12 => "too many instructions (at most 4294967295)",
        13 => "unknown flag (flags are i, m, s, u and v)",
        14 => "the pattern is too long",
        15 => "the pattern is nested too deeply",
        16 => "no such group",
        17 => "the search is not open",
        18 => "steps are counted in UTF-8 only",
        19 => "no work bound is known: a lookaround has a loop, or alternatives before its end",
        20 => "the work limit is reached",
        21 => "unknown syntax (syntaxes are 0 and 1)",
        22 => "no work bound is known: the pattern has a backreference",
        23 => "no work bound is known: counts are too large, or loops are nested too deeply",
        24 =>
            "no work bound is known: the bound is too large, or lookarounds are nested too deeply",
        _ => "unknown code",
    }
}
