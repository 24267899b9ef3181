//! Constructors of patterns, and escaped texts.

use crate::fault::ParseFault;
use crate::hostile::fields::Fields;
use crate::hostile::lists::is_first;
use regress_match::{Error, Flags, Regex, escape};
use std::alloc::Global;

/// The constructors.
#[derive(Clone, Copy)]
enum Constructor {
    New,
    FromStr,
    WithFlags { no_opt: bool },
    FromUnicode { no_opt: bool },
}

/// All constructors.
const CONSTRUCTORS: [Constructor; 6] = [
    Constructor::New,
    Constructor::FromStr,
    Constructor::WithFlags { no_opt: false },
    Constructor::WithFlags { no_opt: true },
    Constructor::FromUnicode { no_opt: false },
    Constructor::FromUnicode { no_opt: true },
];

fn construct(alloc: Global, pattern: &str, flags: Flags, by: Constructor) -> Result<Regex, Error> {
    match by {
        Constructor::New if flags == Flags::default() => Regex::new(alloc, pattern),
        Constructor::FromStr if flags == Flags::default() => Regex::from_str(alloc, pattern),
        Constructor::FromUnicode { no_opt } => {
            let code_points: Vec<u32> = pattern.chars().map(u32::from).collect(alloc)?;
            Regex::from_unicode(alloc, &code_points, Flags { no_opt, ..flags })
        }
        Constructor::WithFlags { no_opt } => {
            Regex::with_flags(alloc, pattern, Flags { no_opt, ..flags })
        }
        _ => Regex::with_flags(alloc, pattern, flags),
    }
}

// Checks whether a clone of the pattern finds the expected match.
fn does_clone_find_expected_match(
    re: &Regex,
    text: &str,
    wanted: &str,
) -> Result<bool, ParseFault> {
    let re = re.clone()?;
    is_first(re.find(text)?, wanted)
}

/// Checks whether each constructor returns a pattern with the expected first match in a text. For
/// `Syntax`, checks that each one refuses the pattern.
pub fn do_constructors_agree(alloc: Global, line: &str) -> Result<bool, ParseFault> {
    let mut fields = Fields::of(line);
    let (pattern, flags) = (fields.next(), Flags::from(fields.next()));
    let (text, wanted) = (fields.next(), fields.next());
    let mut agree = true;
    for by in CONSTRUCTORS {
        agree &= match construct(alloc, pattern, flags, by) {
            Ok(re) => does_clone_find_expected_match(&re, text, wanted)?,
            Err(Error::Parse(_)) => wanted == "Syntax",
            Err(error) => return Err(ParseFault::from(error)),
        };
    }
    Ok(agree)
}

/// Checks whether a text is escaped as expected.
pub fn is_escaped_as_expected(alloc: Global, line: &str) -> Result<bool, ParseFault> {
    let mut fields = Fields::of(line);
    let text = fields.next();
    Ok(escape(alloc, text)?.as_str() == fields.next())
}
