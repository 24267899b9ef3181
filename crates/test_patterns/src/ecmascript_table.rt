//! The table of patterns of the whole language.

// Lines as in the table of the profile: the letters of the flags, a colon, a pattern, an arrow and
// its tree. A line without an arrow is not a pattern.
pub(crate) const ECMASCRIPT_PATTERNS: &str = r":\1 → Cat[Cat[<1>], Goal]
:\18 → Cat[Cat[<1>, 8], Goal]
:(a)\18 → Cat[Cat[Group0(Cat[a]), <1>, 8], Goal]
:(a)\1 → Cat[Cat[Group0(Cat[a]), Ref1(false)], Goal]
:\1(a) → Cat[Cat[Ref1(false), Group0(Cat[a])], Goal]
:\8 → Cat[Cat[8], Goal]
:\08 → Cat[Cat[<0>, 8], Goal]
:\00 → Cat[Cat[<0>], Goal]
:\012 → Cat[Cat[<A>], Goal]
:\377 → Cat[Cat[<FF>], Goal]
:\400 → Cat[Cat[<20>, 0], Goal]
:\0 → Cat[Cat[<0>], Goal]
u:\0 → Cat[Cat[<0>], Goal]
u:\00
u:\1
u:(a)\2
u:\8
:\k → Cat[Cat[k], Goal]
:\k<a> → Cat[Cat[k, <, a, >], Goal]
:\k<a>(?<a>b) → Cat[Cat[Ref1(false), Group0a(Cat[b])], Goal]
:\k(?<a>b)
u:\k
u:\k<a>
:(?<\u0061>b)\k<a> → Cat[Cat[Group0a(Cat[b]), Ref1(false)], Goal]
:(?<\u{61}>b)\k<\u0061> → Cat[Cat[Group0a(Cat[b]), Ref1(false)], Goal]
:(?<é>b) → Cat[Cat[Group0é(Cat[b])], Goal]
:(?<a>b)|(?<a>c)
:\c → Cat[Cat[\, c], Goal]
:\cA → Cat[Cat[<1>], Goal]
:\c1 → Cat[Cat[\, c, 1], Goal]
:[\c] → Cat[Cat[[\c]], Goal]
:[\c1] → Cat[Cat[[<11>]], Goal]
:[\cA] → Cat[Cat[[<1>]], Goal]
u:\c
u:[\c1]
:\x4 → Cat[Cat[x, 4], Goal]
:\x41 → Cat[Cat[A], Goal]
u:\x4
:\u41 → Cat[Cat[u, 4, 1], Goal]
:\u{2} → Cat[Cat[Loop{2,2}0..0(u)], Goal]
u:\u{2} → Cat[Cat[<2>], Goal]
:\ud83d\ude00 → Cat[Cat[<D83D>, <DE00>], Goal]
u:\ud83d\ude00 → Cat[Cat[<1F600>], Goal]
:\a → Cat[Cat[a], Goal]
u:\a
u:\/ → Cat[Cat[/], Goal]
u:\-
u:[\-] → Cat[Cat[[-]], Goal]
:\p{L} → Cat[Cat[p, {, L, }], Goal]
u:\p{foo}
:\D → Cat[Cat[[^0-9]], Goal]
:[\d-a] → Cat[Cat[[-0-9a]], Goal]
u:[\d-a]
:[a-\d] → Cat[Cat[[-0-9a]], Goal]
:[\b] → Cat[Cat[[<8>]], Goal]
:[] → Cat[Cat[[]], Goal]
:[^] → Cat[Cat[[^]], Goal]
:[z-a]
:] → Cat[Cat[]], Goal]
:} → Cat[Cat[}], Goal]
:{ → Cat[Cat[{], Goal]
:{1}
:a{ → Cat[Cat[a, {], Goal]
:a{1 → Cat[Cat[a, {, 1], Goal]
:a{,1} → Cat[Cat[a, {, ,, 1, }], Goal]
u:a{
u:]
:(?=a)* → Cat[Cat[Loop{0,}0..0(Ahead0..0(Cat[a]))], Goal]
:(?!a){2} → Cat[Cat[Loop{2,2}0..0(NotAhead0..0(Cat[a]))], Goal]
u:(?=a)*
:(?<=a)*
:(?=a) → Cat[Cat[Ahead0..0(Cat[a])], Goal]
:^*
:\b*
:(?<=ab) → Cat[Cat[Behind0..0(Cat[b, a])], Goal]
:(?<=(a)\1) → Cat[Cat[Behind0..1(Cat[Ref1(false), Group0(Cat[a])])], Goal]";
