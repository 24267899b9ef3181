//! Re-exports of the front end: the tree of a pattern, its optimizer and the parser.

pub use regex_parser::parse::{ParseError, try_parse};
pub use regress_input::front::{
    AsciiBitmap, BracketContents, ByteArraySet, ByteBitmap, ByteSearcher, ByteSet, CaptureGroupID,
    CodePointSet, Interval, LoopID, MAX_CAPTURE_GROUPS, MAX_CHAR_SET_LENGTH, Sameness,
    SmallArraySet, add_utf8_first_bytes_to_bitmap, are_alike, expand_code_point, flags,
    fold_code_point, ir, nonascii_folds_to_ascii_word_char, optimize, utf8_first_byte,
};
