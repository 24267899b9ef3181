//! Properties of Unicode by the names that ECMAScript has for them (ECMA-262, 9th edition,
//! 21.2.1.1, tables 54 to 57). Names match exactly.

ghost use Rattle.std.specs.Prelude.{◌≡◌, ◌≤◌, ◌||◌, ℕ, length, nat_eq, option_map, IfOk, IsTrue};
ghost use Rattle.std.specs.List.{list_any, list_all};
ghost use Rattle.regex_meaning.specs.Text.{is_scalar};
ghost use Rattle.regex_meaning.specs.Outcomes.{in_intervals};
ghost use Rattle.ucd_sets.specs.Loose.{normalize};
ghost use Rattle.regex_meaning.specs.EcmaClasses.{is_in_invertible_set};
ghost use Rattle.regex_meaning.specs.UnicodeProperties.{property_named, property_with_value, general_category_named, binary_property_named, has_property, in_database};
ghost use Rattle.regex_meaning.specs.EcmaEscapesAndNames.{PropertyExpression};
ghost use Rattle.regex_parser.specs.CodePointReaderContracts.{IsReadOrSyntaxError};
ghost use Rattle.regex_parser.specs.PropertyReaderContracts.{spec_property_of, words_of, AreNameCharactersRead, IsPropertyNamed, listed_value, is_name_character};
ghost use lib.Pointwise.{pointwise};

use crate::code_point_reader::PatternReader;
use crate::diagnosis::Cause;
use crate::nfkc_casefold::changes_when_nfkc_casefolded;
use crate::parser_error::ParseStopReason;
use regex_pattern_front::codepointset::{CODE_POINT_MAX, CodePointSet, Interval};
use std::alloc::{AllocError, Global};
use ucd_sets::{Set, by_name, by_value, normalize};

/// A property that a code point has or does not have.
#[derive(Clone, Copy)]
pub(crate) enum Property {
    /// A set of the Unicode Character Database.
    InDatabase(Set),
    /// `Changes_When_NFKC_Casefolded`.
    ChangesWhenNfkcCasefolded,
}

impl Property {
    /// Returns the code points that have the property or, with `invert`, those that do not have it.
    pub(crate) fn set(self, alloc: Global, invert: bool) -> Result<CodePointSet, AllocError>
        ensures { IfOk result (λ s. (c : ℕ) → in_intervals s c ≡ is_in_invertible_set
            (has_property (spec_property_of self), invert) c) }
    {
        let set = match self {
            Property::InDatabase(set) => set_in_database(alloc, set)?,
            Property::ChangesWhenNfkcCasefolded => changes_when_nfkc_casefolded(alloc)?,
        };
        if invert { set.inverted() } else { Ok(set) }
    }
}

// Returns the code points of a set of the database.
fn set_in_database(alloc: Global, set: Set) -> Result<CodePointSet, AllocError>
    ensures { IfOk result (λ s. (c : ℕ) → in_intervals s c ≡ has_property (in_database set) c) }
{
    let ranges = set.ranges(alloc)?;
    let mut intervals = Vec::new(alloc);
    for range in &ranges {
        intervals.push(Interval {
            first: range.0,
            last: range.1.min(CODE_POINT_MAX),
        })?;
    }
    CodePointSet::from_intervals(alloc, &intervals)
}

/// Reads a property after the `p` or `P` of its escape: `{name}` or `{property=value}`. The escape
/// begins just before `start`.
pub(crate) fn read_property_expression(
    alloc: Global,
    start: PatternReader,
    reader: &mut PatternReader,
) -> Result<Property, ParseStopReason>
    ensures moves { length reader.new.rest.now ≤ length reader.old.rest.now }
    ensures text { IsReadOrSyntaxError spec_property_of (PropertyExpression reader.old.rest.now) result
        reader.new.rest.now }
{
    if !reader.eat('{') {
        return Err(start.error_at_last_read(Cause::PropertyWithoutName));
    }
    let Some(property) = read_named_property(alloc, reader)? else {
        return Err(start.error_at_last_read(Cause::UnknownProperty));
    };
    if reader.eat('}') {
        Ok(property)
    } else {
        Err(start.error_at_last_read(Cause::UnknownProperty))
    }
}

// Reads the names after the `{`, up to the first code point that is not a name character, and
// returns the property.
fn read_named_property(
    alloc: Global,
    reader: &mut PatternReader,
) -> Result<Option<Property>, AllocError>
    ensures moves { length reader.new.rest.now ≤ length reader.old.rest.now }
    ensures text { IfOk result (λ p. IsPropertyNamed reader.old.rest.now (option_map spec_property_of p)
        reader.new.rest.now) }
{
    let name = read_name_characters(reader);
    if reader.eat('=') {
        let value = read_name_characters(reader);
        return property_with_value(alloc, name, value);
    }
    property_named(alloc, name)
}

// Reads the letters, digits and `_` of a name or a value, as many as there are.
fn read_name_characters<'p>(reader: &mut PatternReader<'p>) -> &'p [u32]
    ensures moves { length reader.new.rest.now ≤ length reader.old.rest.now }
    ensures text { AreNameCharactersRead reader.old.rest.now result.now reader.new.rest.now }
{
    let text = reader.rest;
    let mut count = 0;
    while count < text.len() && is_name_character(text[count]) {
        count += 1;
    }
    let (name, others) = text.split_at(count);
    reader.rest = others;
    name
}

// Checks whether the code point is an ASCII letter, an ASCII digit or `_`.
fn is_name_character(c: u32) -> bool
    ensures { result ≡ is_name_character c }
{
    match char::from_u32(c) {
        Some(c) => c.is_ascii_alphanumeric() || c == '_',
        None => false,
    }
}

/// Returns the property of a lone name: a value of `General_Category`, or a binary property.
pub(crate) fn property_named(alloc: Global, name: &[u32]) -> Result<Option<Property>, AllocError>
    ensures { IfOk result (λ p. option_map spec_property_of p ≡ property_named name.now) }
{
    let category = general_category_named(alloc, name)?;
    if category.is_some() {
        return Ok(category);
    }
    binary_property_named(alloc, name)
}

/// Returns the property of a name and a value.
pub(crate) fn property_with_value(
    alloc: Global,
    property: &[u32],
    value: &[u32],
) -> Result<Option<Property>, AllocError>
    ensures { IfOk result (λ p. option_map spec_property_of p ≡ property_with_value property.now value.now) }
{
    if is_either(b"General_Category", b"gc", property) {
        return general_category_named(alloc, value);
    }
    if is_either(b"Script", b"sc", property) {
        return listed_value(alloc, SCRIPT_NAMES, b"sc", value);
    }
    if is_either(b"Script_Extensions", b"scx", property) {
        return listed_value(alloc, SCRIPT_NAMES, b"scx", value);
    }
    Ok(None)
}

fn general_category_named(alloc: Global, name: &[u32]) -> Result<Option<Property>, AllocError>
    ensures { IfOk result (λ p. option_map spec_property_of p ≡ general_category_named name.now) }
{
    listed_value(alloc, CATEGORY_NAMES, b"gc", name)
}

fn binary_property_named(alloc: Global, name: &[u32]) -> Result<Option<Property>, AllocError>
    ensures { IfOk result (λ p. option_map spec_property_of p ≡ binary_property_named name.now) }
{
    if is_word(b"ASCII", name) {
        return Ok(Some(Property::InDatabase(Set::Ascii)));
    }
    if is_word(b"Any", name) {
        return Ok(Some(Property::InDatabase(Set::Any)));
    }
    if is_word(b"Assigned", name) {
        return Ok(Some(Property::InDatabase(Set::Assigned)));
    }
    if is_either(b"Changes_When_NFKC_Casefolded", b"CWKCF", name) {
        return Ok(Some(Property::ChangesWhenNfkcCasefolded));
    }
    if !is_listed(BINARY_NAMES, name) {
        return Ok(None);
    }
    let loose = normalized(alloc, name)?;
    match by_name(&loose) {
        Ok(set) => Ok(Some(Property::InDatabase(set))),
        Err(_) => Ok(None),
    }
}

// Returns the set of the code points for which the property has this value, if the value is one of
// these names.
fn listed_value(
    alloc: Global,
    names: &[u8],
    property: &[u8],
    value: &[u32],
) -> Result<Option<Property>, AllocError>
    ensures { IfOk result (λ p. option_map spec_property_of p ≡ listed_value (words_of names.now)
        property.now value.now) }
{
    if !is_listed(names, value) {
        return Ok(None);
    }
    let loose = normalized(alloc, value)?;
    match by_value(property, &loose) {
        Ok(set) => Ok(Some(Property::InDatabase(set))),
        Err(_) => Ok(None),
    }
}

// Returns the name in the form in which the database compares names.
fn normalized(alloc: Global, name: &[u32]) -> Result<Vec<u8>, AllocError>
    ensures { IfOk result (λ v. IsTrue (list_all is_scalar name.now) → v.items ≡ normalize name.now) }
{
    let mut characters = Vec::new(alloc);
    for c in name {
        characters.push(char::from_u32(*c).unwrap_or('\0'))?;
    }
    normalize(alloc, &characters)
}

// Checks whether the name is one of these two words.
fn is_either(word: &[u8], other: &[u8], name: &[u32]) -> bool
    ensures { result ≡ (pointwise nat_eq word.now name.now || pointwise nat_eq other.now name.now) }
{
    is_word(word, name) || is_word(other, name)
}

// Checks whether the name is this word.
fn is_word(word: &[u8], name: &[u32]) -> bool
    ensures { result ≡ pointwise nat_eq word.now name.now }
{
    if word.len() != name.len() {
        return false;
    }
    for i in 0..word.len() {
        if u32::from(word[i]) != name[i] {
            return false;
        }
    }
    true
}

// Checks whether the name is one of these words, each of which is followed by a blank.
fn is_listed(words: &[u8], name: &[u32]) -> bool
    ensures { result ≡ list_any (λ word. pointwise nat_eq word name.now) (words_of words.now) }
{
    let mut start = 0;
    let mut end = 0;
    while end < words.len() {
        if words[end] == b' ' {
            if is_word(&words[start..end], name) {
                return true;
            }
            start = end + 1;
        }
        end += 1;
    }
    false
}

// Table 56: the values of General_Category.
const CATEGORY_NAMES: &[u8] = b"\
    C Other Cc Control cntrl Cf Format Cn Unassigned Co Private_Use Cs Surrogate L Letter LC \
    Cased_Letter Ll Lowercase_Letter Lm Modifier_Letter Lo Other_Letter Lt Titlecase_Letter Lu \
    Uppercase_Letter M Mark Combining_Mark Mc Spacing_Mark Me Enclosing_Mark Mn Nonspacing_Mark \
    N Number Nd Decimal_Number digit Nl Letter_Number No Other_Number P Punctuation punct Pc \
    Connector_Punctuation Pd Dash_Punctuation Pe Close_Punctuation Pf Final_Punctuation Pi \
    Initial_Punctuation Po Other_Punctuation Ps Open_Punctuation S Symbol Sc Currency_Symbol Sk \
    Modifier_Symbol Sm Math_Symbol So Other_Symbol Z Separator Zl Line_Separator Zp \
    Paragraph_Separator Zs Space_Separator ";

// Table 55, except `ASCII`, `Any`, `Assigned` and `Changes_When_NFKC_Casefolded`.
const BINARY_NAMES: &[u8] = b"\
    ASCII_Hex_Digit AHex Alphabetic Alpha Bidi_Control Bidi_C Bidi_Mirrored Bidi_M \
    Case_Ignorable CI Cased Changes_When_Casefolded CWCF Changes_When_Casemapped CWCM \
    Changes_When_Lowercased CWL Changes_When_Titlecased CWT Changes_When_Uppercased CWU Dash \
    Default_Ignorable_Code_Point DI Deprecated Dep Diacritic Dia Emoji Emoji_Component \
    Emoji_Modifier Emoji_Modifier_Base Emoji_Presentation Extender Ext Grapheme_Base Gr_Base \
    Grapheme_Extend Gr_Ext Hex_Digit Hex IDS_Binary_Operator IDSB IDS_Trinary_Operator IDST \
    ID_Continue IDC ID_Start IDS Ideographic Ideo Join_Control Join_C Logical_Order_Exception \
    LOE Lowercase Lower Math Noncharacter_Code_Point NChar Pattern_Syntax Pat_Syn \
    Pattern_White_Space Pat_WS Quotation_Mark QMark Radical Regional_Indicator RI \
    Sentence_Terminal STerm Soft_Dotted SD Terminal_Punctuation Term Unified_Ideograph UIdeo \
    Uppercase Upper Variation_Selector VS White_Space space XID_Continue XIDC XID_Start XIDS ";

// Table 57: the names of scripts in the latest version of Unicode.
const SCRIPT_NAMES: &[u8] = b"\
    Adlm Adlam Aghb Caucasian_Albanian Ahom Arab Arabic Armi Imperial_Aramaic Armn Armenian Avst \
    Avestan Bali Balinese Bamu Bamum Bass Bassa_Vah Batk Batak Beng Bengali Berf Beria_Erfe Bhks \
    Bhaiksuki Bopo Bopomofo Brah Brahmi Brai Braille Bugi Buginese Buhd Buhid Cakm Chakma Cans \
    Canadian_Aboriginal Cari Carian Cham Cher Cherokee Chrs Chorasmian Copt Coptic Qaac Cpmn \
    Cypro_Minoan Cprt Cypriot Cyrl Cyrillic Deva Devanagari Diak Dives_Akuru Dogr Dogra Dsrt \
    Deseret Dupl Duployan Egyp Egyptian_Hieroglyphs Elba Elbasan Elym Elymaic Ethi Ethiopic Gara \
    Garay Geor Georgian Glag Glagolitic Gong Gunjala_Gondi Gonm Masaram_Gondi Goth Gothic Gran \
    Grantha Grek Greek Gujr Gujarati Gukh Gurung_Khema Guru Gurmukhi Hang Hangul Hani Han Hano \
    Hanunoo Hatr Hatran Hebr Hebrew Hira Hiragana Hluw Anatolian_Hieroglyphs Hmng Pahawh_Hmong \
    Hmnp Nyiakeng_Puachue_Hmong Hung Old_Hungarian Ital Old_Italic Java Javanese Jurc Jurchen \
    Kali Kayah_Li Kana Katakana Kawi Khar Kharoshthi Khmr Khmer Khoj Khojki Kits \
    Khitan_Small_Script Knda Kannada Krai Kirat_Rai Kthi Kaithi Lana Tai_Tham Laoo Lao Latn \
    Latin Lepc Lepcha Limb Limbu Lina Linear_A Linb Linear_B Lisu Lyci Lycian Lydi Lydian Mahj \
    Mahajani Maka Makasar Mand Mandaic Mani Manichaean Marc Marchen Medf Medefaidrin Mend \
    Mende_Kikakui Merc Meroitic_Cursive Mero Meroitic_Hieroglyphs Mlym Malayalam Modi Mong \
    Mongolian Mroo Mro Mtei Meetei_Mayek Mult Multani Mymr Myanmar Nagm Nag_Mundari Nand \
    Nandinagari Narb Old_North_Arabian Nbat Nabataean Newa Nkoo Nko Nshu Nushu Ogam Ogham Olck \
    Ol_Chiki Onao Ol_Onal Orkh Old_Turkic Orya Oriya Osge Osage Osma Osmanya Ougr Old_Uyghur \
    Palm Palmyrene Pauc Pau_Cin_Hau Pcun Proto_Cuneiform Perm Old_Permic Phag Phags_Pa Phli \
    Inscriptional_Pahlavi Phlp Psalter_Pahlavi Phnx Phoenician Plrd Miao Prti \
    Inscriptional_Parthian Rjng Rejang Rohg Hanifi_Rohingya Runr Runic Samr Samaritan Sarb \
    Old_South_Arabian Saur Saurashtra Seal Sgnw SignWriting Shaw Shavian Shrd Sharada Sidd \
    Siddham Sidt Sidetic Sind Khudawadi Sinh Sinhala Sogd Sogdian Sogo Old_Sogdian Sora \
    Sora_Sompeng Soyo Soyombo Sund Sundanese Sunu Sunuwar Sylo Syloti_Nagri Syrc Syriac Tagb \
    Tagbanwa Takr Takri Tale Tai_Le Talu New_Tai_Lue Taml Tamil Tang Tangut Tavt Tai_Viet Tayo \
    Tai_Yo Telu Telugu Tfng Tifinagh Tglg Tagalog Thaa Thaana Thai Tibt Tibetan Tirh Tirhuta \
    Tnsa Tangsa Todr Todhri Tols Tolong_Siki Toto Tutg Tulu_Tigalari Ugar Ugaritic Vaii Vai Vith \
    Vithkuqi Wara Warang_Citi Wcho Wancho Xpeo Old_Persian Xsux Cuneiform Yezi Yezidi Yiii Yi \
    Zanb Zanabazar_Square Zinh Inherited Qaai Zyyy Common Zzzz Unknown ";
