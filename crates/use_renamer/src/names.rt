//! File names.

ghost use Rattle.std.specs.Prelude.{◌≡◌, ◌||◌, bytes_eq, nat_eq, string_bytes};
ghost use Rattle.std.specs.List.{list_any};
ghost use Rattle.use_renamer.specs.Names.{is_among, is_file_name};

// The maximum length of a name in bytes.
const MAX_NAME_BYTES: usize = 255;

/// Checks whether a name is a valid file name. It has 1 to 255 bytes, is neither `.` nor `..`, and
/// has no slash and no NUL.
pub fn is_file_name(name: &str) -> bool
    ensures { result ≡ is_file_name name.now }
{
    let is_folder = name == "" || name == "." || name == "..";
    !is_folder && name.len() <= MAX_NAME_BYTES && !has_slash_or_nul(name)
}

// Checks whether a name has a slash or a NUL.
fn has_slash_or_nul(name: &str) -> bool
    ensures { result ≡ list_any (λ b. nat_eq b 47 || nat_eq b 0) name.now }
{
    name.as_bytes().iter().any(|b| *b == b'/' || *b == 0)
}

/// Checks whether a list contains a name.
pub fn is_among(name: &str, names: &[String]) -> bool
    ensures { result ≡ is_among string_bytes name.now names.now }
{
    names.iter().any(|other| name == other.as_str())
}
