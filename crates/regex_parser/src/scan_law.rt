//! The law of the scan for groups.

ghost use Rattle.regex_parser.specs.ScannedGroups.{EcmaScriptScanFindsGroups};

/// Proves that a scan of the text finds the groups of a pattern of the whole language. The scan
/// reads the name of each group, as far as it can be read.
pub fn ecmascript_scan_finds_groups()
    ensures { EcmaScriptScanFindsGroups }
{}
