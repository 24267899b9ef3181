//! The call of a search that a row names.

// The call of a search.
#[derive(Clone, Copy)]
pub enum SearchCall {
    First,
    All,
    From(usize),
    At(usize),
}

impl SearchCall {
    // Reads `first`, `all`, the offset from which all matches are searched for, or `at` and the
    // offset of one match.
    pub fn of(call: &str) -> SearchCall {
        if let Some(offset) = call.strip_prefix("at ") {
            return SearchCall::At(offset.parse::<usize>().unwrap_or(0));
        }
        match call {
            "first" => SearchCall::First,
            "all" => SearchCall::All,
            start => SearchCall::From(start.parse::<usize>().unwrap_or(0)),
        }
    }

    pub fn start(self) -> usize {
        match self {
            SearchCall::From(start) | SearchCall::At(start) => start,
            _ => 0,
        }
    }

    pub fn is_first(self) -> bool {
        matches!(self, SearchCall::First)
    }

    pub fn is_at(self) -> bool {
        matches!(self, SearchCall::At(_))
    }
}
