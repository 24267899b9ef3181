//! Re-exports of the items of `regex_pattern_front` that this crate and the crates above it use. No
//! other module of these crates names that crate.

pub use regex_pattern_front::bytesearch::{
    AsciiBitmap, ByteArraySet, ByteBitmap, ByteSearcher, ByteSet, SmallArraySet,
};
pub use regex_pattern_front::canonical::{Sameness, are_alike};
pub use regex_pattern_front::codepointset::{CodePointSet, Interval};
pub use regex_pattern_front::folding_and_first_bytes::{
    add_utf8_first_bytes_to_bitmap, expand_code_point, fold_code_point,
    nonascii_folds_to_ascii_word_char, utf8_first_byte,
};
pub use regex_pattern_front::optimizer::optimize;
pub use regex_pattern_front::types::{
    BracketContents, CaptureGroupID, LoopID, MAX_CAPTURE_GROUPS, MAX_CHAR_SET_LENGTH,
};
pub use regex_pattern_front::{flags, ir};
