//! References within a document.

use anyhow::{Context, Result, bail};
use percent_encoding::percent_decode_str;
use std::alloc::Global;

/// Returns the JSON Pointer in the fragment of a reference, with each `%XX` decoded. The document's
/// own URI may precede the fragment.
///
/// # Errors
///
/// Returns an error if the reference names another document, if its fragment is not a JSON Pointer,
/// or if an allocation fails.
pub fn pointer_in_reference(alloc: Global, reference: &str, own: &str) -> Result<String> {
    let (uri, fragment) = reference.split_once('#').unwrap_or((reference, ""));
    if !uri.is_empty() && uri != own.trim_end_matches('#') {
        bail!("{reference} refers to another document, which is not supported");
    }
    if !fragment.is_empty() && !fragment.starts_with('/') {
        bail!("{reference} is no JSON Pointer");
    }
    let pointer = percent_decode_str(fragment)
        .decode_utf8(alloc)
        .context("a fragment that is no UTF-8")?;
    Ok(pointer.into_owned(alloc)?)
}
