//! Formats that are checked by patterns.

use std::alloc::{AllocError, Global};

/// A value of `format`, and the pattern of the strings that have this format.
pub struct Format {
    pub name: &'static str,
    // The pieces of the pattern between `^(?:` and `)$`.
    pieces: &'static [&'static str],
}

// `full-date` of RFC 3339, section 5.6.
const DATE: &str = "(?:[0-9]{4}-(?:(?:0[13578]|1[02])-(?:0[1-9]|[12][0-9]|3[01])\
    |(?:0[469]|11)-(?:0[1-9]|[12][0-9]|30)|02-(?:0[1-9]|1[0-9]|2[0-8]))\
    |(?:[0-9]{2}(?:0[48]|[2468][048]|[13579][26])|(?:[02468][048]|[13579][26])00)-02-29)";

// `full-time` of RFC 3339, section 5.6. The second 60 is accepted at the end of a day in UTC,
// without an offset.
const TIME: &str = "(?:(?:[01][0-9]|2[0-3]):[0-5][0-9]:[0-5][0-9](?:\\.[0-9]+)?\
    (?:[zZ]|[+-](?:[01][0-9]|2[0-3]):[0-5][0-9])|23:59:60(?:\\.[0-9]+)?(?:[zZ]|[+-]00:00))";

// `duration` of RFC 3339, appendix A.
const DURATION: &str =
    "P(?:[0-9]+W|(?=[0-9T])(?:[0-9]+Y(?:[0-9]+M(?:[0-9]+D)?)?|[0-9]+M(?:[0-9]+D)?|[0-9]+D)?\
    (?:T(?:[0-9]+H(?:[0-9]+M(?:[0-9]+S)?)?|[0-9]+M(?:[0-9]+S)?|[0-9]+S))?)";

// RFC 2673, section 3.2.
const IPV4: &str = "(?:(?:25[0-5]|2[0-4][0-9]|1[0-9]{2}|[1-9]?[0-9])\\.){3}\
    (?:25[0-5]|2[0-4][0-9]|1[0-9]{2}|[1-9]?[0-9])";

// RFC 4291, section 2.2: eight groups, or `::` and at most seven groups, or fewer groups before an
// IPv4 address. The IPv4 address is between this piece and the next one. The lookaheads count
// groups.
const IPV6_BEFORE_IPV4: &str = "(?:(?:[0-9a-fA-F]{1,4}:){7}[0-9a-fA-F]{1,4}\
    |(?!:*(?:[0-9a-fA-F]+:+){7}[0-9a-fA-F])(?:[0-9a-fA-F]{1,4}(?::[0-9a-fA-F]{1,4}){0,6})?\
    ::(?:[0-9a-fA-F]{1,4}(?::[0-9a-fA-F]{1,4}){0,6})?\
    |(?:(?:[0-9a-fA-F]{1,4}:){6}|(?!:*(?:[0-9a-fA-F]+:+){6}[0-9a-fA-F])\
    (?:[0-9a-fA-F]{1,4}(?::[0-9a-fA-F]{1,4}){0,4})?::(?:[0-9a-fA-F]{1,4}:){0,5})";

const IPV6_BEHIND_IPV4: &str = ")";

// A label of a host name: RFC 1123, section 2.1, and RFC 1034, section 3.1.
const LABEL: &str = "[a-zA-Z0-9](?:[a-zA-Z0-9-]{0,61}[a-zA-Z0-9])?";

// `Local-part` of RFC 5321, section 4.1.2, followed by `@`.
const LOCAL_PART: &str = "(?:[a-zA-Z0-9!#$%&'*+/=?^_`{|}~-]+(?:\\.[a-zA-Z0-9!#$%&'*+/=?^_`{|}~-]+)*\
    |\"(?:[ !#-\\[\\]-~]|\\\\[ -~])*\")@";

// The parts of a URI: RFC 3986, appendix A.
const SCHEME: &str = "[a-zA-Z][a-zA-Z0-9+.-]*:";

const AUTHORITY_BEFORE_IPV6: &str =
    "(?://(?:(?:[a-zA-Z0-9._~!$&'()*+,;=:-]|%[0-9a-fA-F]{2})*@)?(?:\\[(?:";

const AUTHORITY_BEHIND_IPV6: &str = "|[vV][0-9a-fA-F]+\\.[a-zA-Z0-9._~!$&'()*+,;=:-]+)\\]\
    |(?:[a-zA-Z0-9._~!$&'()*+,;=-]|%[0-9a-fA-F]{2})*)(?::[0-9]*)?\
    (?:/(?:[a-zA-Z0-9._~!$&'()*+,;=:@/-]|%[0-9a-fA-F]{2})*)?";

const PATH_WITHOUT_AUTHORITY: &str = "|(?!//)(?:[a-zA-Z0-9._~!$&'()*+,;=:@/-]|%[0-9a-fA-F]{2})*)";

const QUERY_AND_FRAGMENT: &str = "(?:\\?(?:[a-zA-Z0-9._~!$&'()*+,;=:@/?-]|%[0-9a-fA-F]{2})*)?\
    (?:#(?:[a-zA-Z0-9._~!$&'()*+,;=:@/?-]|%[0-9a-fA-F]{2})*)?";

// The formats. UUIDs are from RFC 4122, pointers from RFC 6901, with the relative form.
static FORMATS: &[Format] = &[
    Format {
        name: "date",
        pieces: &[DATE],
    },
    Format {
        name: "time",
        pieces: &[TIME],
    },
    Format {
        name: "date-time",
        pieces: &[DATE, "[tT]", TIME],
    },
    Format {
        name: "duration",
        pieces: &[DURATION],
    },
    Format {
        name: "email",
        pieces: &[
            LOCAL_PART,
            "(?:",
            LABEL,
            "(?:\\.",
            LABEL,
            ")*|\\[(?:",
            IPV4,
            "|[iI][pP][vV]6:",
            IPV6_BEFORE_IPV4,
            IPV4,
            IPV6_BEHIND_IPV4,
            ")\\])",
        ],
    },
    Format {
        name: "hostname",
        pieces: &["(?=.{1,253}$)", LABEL, "(?:\\.", LABEL, ")*"],
    },
    Format {
        name: "ipv4",
        pieces: &[IPV4],
    },
    Format {
        name: "ipv6",
        pieces: &[IPV6_BEFORE_IPV4, IPV4, IPV6_BEHIND_IPV4],
    },
    Format {
        name: "uri",
        pieces: &[
            SCHEME,
            AUTHORITY_BEFORE_IPV6,
            IPV6_BEFORE_IPV4,
            IPV4,
            IPV6_BEHIND_IPV4,
            AUTHORITY_BEHIND_IPV6,
            PATH_WITHOUT_AUTHORITY,
            QUERY_AND_FRAGMENT,
        ],
    },
    // Either there is a scheme, or the first segment of the path has no colon.
    Format {
        name: "uri-reference",
        pieces: &[
            "(?:",
            SCHEME,
            "|(?![^/?#]*:))",
            AUTHORITY_BEFORE_IPV6,
            IPV6_BEFORE_IPV4,
            IPV4,
            IPV6_BEHIND_IPV4,
            AUTHORITY_BEHIND_IPV6,
            PATH_WITHOUT_AUTHORITY,
            QUERY_AND_FRAGMENT,
        ],
    },
    Format {
        name: "uuid",
        pieces: &["[0-9a-fA-F]{8}-(?:[0-9a-fA-F]{4}-){3}[0-9a-fA-F]{12}"],
    },
    Format {
        name: "json-pointer",
        pieces: &["(?:/(?:[^~/]|~[01])*)*"],
    },
    Format {
        name: "relative-json-pointer",
        pieces: &["(?:0|[1-9][0-9]*)(?:#|(?:/(?:[^~/]|~[01])*)*)"],
    },
];

impl Format {
    /// Returns the format with this name. Returns `None` if no pattern for it is known.
    pub fn of(name: &str) -> Option<&'static Format> {
        FORMATS.iter().find(|format| format.name == name)
    }

    /// Returns the pattern.
    ///
    /// # Errors
    ///
    /// `AllocError` if an allocation fails.
    pub fn pattern(&self, alloc: Global) -> Result<String, AllocError> {
        let mut pattern = String::from_str(alloc, "^(?:")?;
        for piece in self.pieces {
            pattern.push_str(piece)?;
        }
        pattern.push_str(")$")?;
        Ok(pattern)
    }
}
