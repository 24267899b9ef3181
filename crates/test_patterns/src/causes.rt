//! The table of diagnoses of texts that are not patterns.

// Each line has the letters of the flags, a colon, a text, an arrow, and what is wrong with the
// text and where, or that it is a pattern. Positions count code points. If two things are wrong,
// the first one is reported, except for what is detected only at the end.
pub(crate) const CAUSES: &str = r":é😀(a|b → unclosed group at 2
:(a(b → unclosed group at 2
:é(a)(b → unclosed group at 4
:a)) → unopened group at 1
:é|b) → unopened group at 3
:é(?a) → unknown kind of group at 1
:(? → unknown kind of group at 0
:(?|a|b) → unknown kind of group at 0
:(?'n'a) → unknown kind of group at 0
:😀(?>a) → atomic groups are not supported at 1
:a(?#b)c → comments are not supported at 1
:é(?i)a → modifiers are not supported at 1
:b(?i:a) → modifiers are not supported at 1
:(?-i:a) → modifiers are not supported at 0
u:a(?ms-i:b) → modifiers are not supported at 1
:é(?P<n>a) → (?P is not supported, write (?<name>..) or \k<name> at 1
:(?<n>a)(?P=n) → (?P is not supported, write (?<name>..) or \k<name> at 7
:* → nothing to repeat at 0
:é|+a → nothing to repeat at 2
:(?:?) → nothing to repeat at 3
:é** → nothing to repeat at 2
:a{1}{2} → nothing to repeat at 4
:{1,2} → nothing to repeat at 0
u:{1} → nothing to repeat at 0
:é^* → an assertion cannot be repeated at 2
:$? → an assertion cannot be repeated at 1
:\b+ → an assertion cannot be repeated at 2
:\B{2} → an assertion cannot be repeated at 2
:é(?=a)* → an assertion cannot be repeated at 6
u:(?<!a)? → an assertion cannot be repeated at 6
:^{2,1} → an assertion cannot be repeated at 1
:a{2,1} → the maximum of a quantifier is below its minimum at 1
:é😀{99999999999999999999,1} → the maximum of a quantifier is below its minimum at 2
:é[a → unclosed class at 1
:[ → unclosed class at 0
:[^ → unclosed class at 0
:[a- → unclosed class at 0
:é[b-a] → range out of order at 2
:[xyz-\x41] → range out of order at 3
u:[\u{1F601}-\ud83d\ude00] → range out of order at 1
v:é[a[b]] → set operations are not supported at 3
v:[a&&b] → set operations are not supported at 2
v:[\[a--b] → set operations are not supported at 4
:é\a → unknown escape at 1
:ab\h+ → unknown escape at 2
u:é\h → unknown escape at 1
:(a|\e) → unknown escape at 3
:ab|\Aa → text anchors are not supported, write ^ or $ at 3
:é\z → text anchors are not supported, write ^ or $ at 1
u:😀b\Z → text anchors are not supported, write ^ or $ at 2
:[\B] → unknown escape at 1
:[\k] → unknown escape at 1
:[\8] → unknown escape at 1
u:é\p{L} → property escapes are supported only in the whole language (ES2018) at 1
:[\P] → property escapes are supported only in the whole language (ES2018) at 1
:é\cA → control escapes are supported only in the whole language (ES2018) at 1
:\08 → octal escapes are supported only in the whole language (ES2018) without u at 0
:(a)\01 → octal escapes are supported only in the whole language (ES2018) without u at 3
:[\1] → octal escapes are supported only in the whole language (ES2018) without u at 1
:é\xg0 → incomplete hexadecimal escape at 1
:\u004 → incomplete Unicode escape at 0
:\u{41} → incomplete Unicode escape at 0
u:é\u{} → incomplete Unicode escape at 1
u:\u{41 → incomplete Unicode escape at 0
u:\ud83d\u00 → incomplete Unicode escape at 6
u:é\u{110000} → code point past U+10FFFF at 1
:é\ → backslash at the end of the pattern at 1
:[\ → backslash at the end of the pattern at 1
:é\1 → no such group at 1
:(a)\2 → no such group at 3
:\2(a)\3 → no such group at 5
:\3(a)\3\2 → no such group at 0
:\4294967297 → no such group at 0
:(?<n>a)\k<m> → no group has this name at 7
:(?<n>\k<m>)(?<1>) → no group has this name at 5
:é\k<n> → no group has this name at 1
:(a)\k<n>|b → no group has this name at 3
u:\k<n>(b) → no group has this name at 0
:é\k → reference without a name at 1
:(?<n>a)\kn → reference without a name at 7
:é(?<1>a) → character not allowed in a name at 4
:(?<>a) → character not allowed in a name at 3
:(?<é>a) → names beyond ASCII are supported only in the whole language (ES2018) at 3
:b(?<aé>a) → names beyond ASCII are supported only in the whole language (ES2018) at 5
u:(?<😀>a) → names beyond ASCII are supported only in the whole language (ES2018) at 3
:(?<n>a)\k<é> → names beyond ASCII are supported only in the whole language (ES2018) at 10
:(?<\u0061>a) → character not allowed in a name at 3
:(?<a-b>a) → character not allowed in a name at 4
:\k<> → character not allowed in a name at 3
:é(?<a → unclosed name at 3
:(?<n>a)\k<n → unclosed name at 9
:(?<n>a)|(?<n>b) → duplicate name at 11
:(?<n>a)(?<m>b)(?<n>c)\1{ → duplicate name at 17
:*(?<n>a)(?<n>b) → nothing to repeat at 0
u:é] → unmatched ] or } at 1
u:} → unmatched ] or } at 0
u:é{}} → incomplete quantifier at 1
u:a{ → incomplete quantifier at 1
u:a{1 → incomplete quantifier at 1
u:é|b{1,2 → incomplete quantifier at 3
u:a{,1} → incomplete quantifier at 1
u:{ → incomplete quantifier at 0
:a{1 → a pattern
:é]}{ → a pattern
:\k<n>(?<n>a) → a pattern
v:[&\-\--] → a pattern";

// The same for the whole language.
pub(crate) const ECMASCRIPT_CAUSES: &str = r"u:a\c1 → control escape without a letter at 1
u:[\c] → control escape without a letter at 1
u:é\00 → octal escapes are not allowed with u at 1
u:[\1] → octal escapes are not allowed with u at 1
u:é\1 → no such group at 1
u:(a)\2 → no such group at 3
u:é\p → property escape without a name at 1
u:[\pL] → property escape without a name at 1
u:é\p{lu} → unknown property at 1
u:é\P{Script=greek} → unknown property at 1
u:[a\p{L] → unknown property at 2
u:[\d-a] → a class escape cannot be the end of a range at 1
u:[ab-\s] → a class escape cannot be the end of a range at 2
:é(?<a → unclosed name at 3
:é(?<1>) → character not allowed in a name at 4
:(?<é-b>) → character not allowed in a name at 4
:(?<a\u{110000}>) → character not allowed in a name at 4
:\k(?<a>b) → reference without a name at 0
:\k<b>(?<a>c) → no group has this name at 0
:(?<a>b)(?<\u0061>c) → duplicate name at 10
:{1} → nothing to repeat at 0
:(?<=a)* → an assertion cannot be repeated at 6
u:(?=a)* → an assertion cannot be repeated at 5
:^* → an assertion cannot be repeated at 1
u:a{ → incomplete quantifier at 1
u:} → unmatched ] or } at 0
u:\u{110000} → code point past U+10FFFF at 0
u:\u → incomplete Unicode escape at 0
u:\x → incomplete hexadecimal escape at 0
u:é\a → unknown escape at 1
:é\ → backslash at the end of the pattern at 1
:[a → unclosed class at 0
:[b-a] → range out of order at 1
:(a → unclosed group at 0
:a) → unopened group at 1
:\c\8\00\p{L}\u{1}\x{}a{]} → a pattern";
