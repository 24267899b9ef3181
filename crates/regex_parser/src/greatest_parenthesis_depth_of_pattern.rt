//! The nesting depth of a pattern, computed before it is parsed.

ghost use Rattle.std.specs.Prelude.{◌≡◌, ◌+◌, ◌<◌, ◌≤◌, ◌^◌};
ghost use Rattle.regex_parser.specs.ParenthesisDepth.{depth_scan_after_code_point, depth_scan_after_opening_parenthesis, greatest_parenthesis_depth_in};

/// The state of the scan after a prefix of a pattern.
#[derive(Clone, Copy)]
struct ParenthesisDepthScan {
    /// Number of parentheses that are open.
    depth: usize,
    /// Greatest number that were open at once.
    deepest: usize,
    in_class: bool,
    escaped: bool,
}

impl ParenthesisDepthScan {
    // The state before anything is read.
    const INITIAL_DEPTH_SCAN: ParenthesisDepthScan = ParenthesisDepthScan {
        depth: 0,
        deepest: 0,
        in_class: false,
        escaped: false,
    };

    // Returns the state after one more code point.
    fn depth_scan_after_code_point(self, c: u32) -> ParenthesisDepthScan
        requires { self.depth + 1 < 2 ^ 64 }
        ensures read { result ≡ depth_scan_after_code_point self c }
        ensures few { result.depth ≤ self.depth + 1 }
    {
        if self.escaped {
            return ParenthesisDepthScan {
                escaped: false,
                ..self
            };
        }
        match char::from_u32(c) {
            Some('\\') => ParenthesisDepthScan {
                escaped: true,
                ..self
            },
            Some(']') => ParenthesisDepthScan {
                in_class: false,
                ..self
            },
            _ if self.in_class => self,
            Some('[') => ParenthesisDepthScan {
                in_class: true,
                ..self
            },
            Some('(') => self.depth_scan_after_opening_parenthesis(),
            Some(')') => ParenthesisDepthScan {
                depth: self.depth.saturating_sub(1),
                ..self
            },
            _ => self,
        }
    }

    // Returns the state after an opening parenthesis.
    fn depth_scan_after_opening_parenthesis(self) -> ParenthesisDepthScan
        requires { self.depth + 1 < 2 ^ 64 }
        ensures { result ≡ depth_scan_after_opening_parenthesis self }
    {
        let depth = self.depth + 1;
        ParenthesisDepthScan {
            depth,
            deepest: self.deepest.max(depth),
            ..self
        }
    }
}

/// Returns the greatest number of parentheses that are open at once in a pattern: those of groups
/// of every kind and of lookarounds. Escaped parentheses and those in a class do not count. For
/// `(a(b)|[(]\()` it is 2 (an entry of `test_patterns`).
///
/// Any text is allowed, even if it is not a pattern. It takes one pass over the code points. It
/// allocates no memory, and its stack does not depend on the pattern. So a program that compiles
/// patterns of others can refuse a pattern that nests too deep for its stack before it parses the
/// pattern (`docs/LIMITS.md`).
pub fn nesting(pattern: &[u32]) -> usize
    ensures { result ≡ greatest_parenthesis_depth_in pattern.now }
{
    let mut reading = ParenthesisDepthScan::INITIAL_DEPTH_SCAN;
    for c in pattern {
        reading = reading.depth_scan_after_code_point(*c);
    }
    reading.deepest
}
