//! The table of patterns.

// Each line has the letters of the flags, a colon, a pattern, an arrow and the tree. A line without
// an arrow is not a pattern. With the letter `o`, the tree is optimized. Next to the letter K is
// its counterpart outside of ASCII, U+212A, and next to s is U+017F. At the end there is a
// backslash before each letter that no rule of the grammar names.
pub(crate) const PATTERNS: &str = r": → Cat[Cat[], Goal]
:a|b → Cat[Alt(Cat[a], Cat[b]), Goal]
:ab| → Cat[Alt(Cat[a, b], Cat[]), Goal]
u:a|b|c → Cat[Alt(Cat[a], Alt(Cat[b], Cat[c])), Goal]
:^$ → Cat[Cat[StartOfLine(false), EndOfLine(false)], Goal]
m:^$ → Cat[Cat[StartOfLine(true), EndOfLine(true)], Goal]
:^{a → Cat[Cat[StartOfLine(false), {, a], Goal]
i:\b\B → Cat[Cat[Boundary(false, false), Boundary(true, false)], Goal]
u:\b\B → Cat[Cat[Boundary(false, false), Boundary(true, false)], Goal]
iu:\b\B → Cat[Cat[Boundary(false, true), Boundary(true, true)], Goal]
:(?=a)(?!b) → Cat[Cat[Ahead0..0(Cat[a]), NotAhead0..0(Cat[b])], Goal]
:(?<=ab(c))(?<!d) → Cat[Cat[Behind0..1(Cat[Group0(Cat[c]), b, a]), NotBehind1..1(Cat[d])], Goal]
:(?<=a(?=bc)d) → Cat[Cat[Behind0..0(Cat[d, Ahead0..0(Cat[b, c]), a])], Goal]
:(?=a(?<=(bc)|d)e) → Cat[Cat[Ahead0..1(Cat[a, Behind0..1(Alt(Cat[Group0(Cat[c, b])], Cat[d])), e])], Goal]
:(?<=(?:ab|c)*) → Cat[Cat[Behind0..0(Cat[Loop{0,}0..0(Alt(Cat[b, a], Cat[c]))])], Goal]
:a*b+?c? → Cat[Cat[Loop{0,}0..0(a), Loop{1,}?0..0(b), Loop{0,1}0..0(c)], Goal]
:a*?b+c?? → Cat[Cat[Loop{0,}?0..0(a), Loop{1,}0..0(b), Loop{0,1}?0..0(c)], Goal]
u:a{2}b{2,}?c{2,3} → Cat[Cat[Loop{2,2}0..0(a), Loop{2,}?0..0(b), Loop{2,3}0..0(c)], Goal]
:a{0}?b{2,}c{2,2}? → Cat[Cat[Loop{0,0}?0..0(a), Loop{2,}0..0(b), Loop{2,2}?0..0(c)], Goal]
:a{99999999999999999999} → Cat[Cat[Loop{18446744073709551615,18446744073709551615}0..0(a)], Goal]
:a{18446744073709551616,18446744073709551615} → Cat[Cat[Loop{18446744073709551615,18446744073709551615}0..0(a)], Goal]
:.*[a]+\d?\.{2} → Cat[Cat[Loop{0,}0..0(Dot), Loop{1,}0..0([a]), Loop{0,1}0..0([0-9]), Loop{2,2}0..0(.)], Goal]
:(a)\1*(?:b)? → Cat[Cat[Group0(Cat[a]), Loop{0,}1..1(Ref1(false)), Loop{0,1}1..1(Cat[b])], Goal]
:(a)((b)c)* → Cat[Cat[Group0(Cat[a]), Loop{0,}1..3(Group1(Cat[Group2(Cat[b]), c]))], Goal]
:(a)\1 → Cat[Cat[Group0(Cat[a]), Ref1(false)], Goal]
:(a\1) → Cat[Cat[Group0(Cat[a, Ref1(false)])], Goal]
i:\2(a)(b) → Cat[Cat[Ref2(true), Group0(Cat[Set(Aa)]), Group1(Cat[Set(Bb)])], Goal]
:()()()()()()()()()()\10 → Cat[Cat[Group0(Cat[]), Group1(Cat[]), Group2(Cat[]), Group3(Cat[]), Group4(Cat[]), Group5(Cat[]), Group6(Cat[]), Group7(Cat[]), Group8(Cat[]), Group9(Cat[]), Ref10(false)], Goal]
:(?:a)(?<n_1>b)\k<n_1> → Cat[Cat[Cat[a], Group0n_1(Cat[b]), Ref1(false)], Goal]
:\k<$x>(?:[(](?<$x>c)) → Cat[Cat[Ref1(false), Cat[[(], Group0$x(Cat[c])]], Goal]
:(?<n>a)(?<N>b)\k<N> → Cat[Cat[Group0n(Cat[a]), Group1N(Cat[b]), Ref2(false)], Goal]
i:\(?<n>(?<_Z9>)\k<_Z9> → Cat[Cat[Loop{0,1}0..0((), <, Set(Nn), >, Group0_Z9(Cat[]), Ref1(true)], Goal]
:. → Cat[Cat[Dot], Goal]
s:. → Cat[Cat[Any], Goal]
:é 😀 → Cat[Cat[<E9>, <20>, <1F600>], Goal]
:]}{ → Cat[Cat[], }, {], Goal]
v:]}{ → Cat[Cat[], }, {], Goal]
:a{,1} → Cat[Cat[a, {, ,, 1, }], Goal]
:a{1a{1,a{1,2 → Cat[Cat[a, {, 1, a, {, 1, ,, a, {, 1, ,, 2], Goal]
:\t\n\v\f\r\0a → Cat[Cat[<9>, <A>, <B>, <C>, <D>, <0>, a], Goal]
:\x41\u0042\.\_\é → Cat[Cat[A, B, ., _, <E9>], Goal]
:\^\$\\\.\*\+\?\(\)\[\]\{\}\| → Cat[Cat[^, $, \, ., *, +, ?, (, ), [, ], {, }, |], Goal]
u:\^\$\\\.\*\+\?\(\)\[\]\{\}\|\/\- → Cat[Cat[^, $, \, ., *, +, ?, (, ), [, ], {, }, |, /, -], Goal]
:\ud83d\ude00 → Cat[Cat[<D83D>, <DE00>], Goal]
u:\ud83d\ude00\ud83d\u0041 → Cat[Cat[<1F600>, <D83D>, A], Goal]
u:\ude00\ud83d\u{de00}\ud83d → Cat[Cat[<DE00>, <D83D>, <DE00>, <D83D>], Goal]
u:\u{1F600}\u{000041}\u{10ffff} → Cat[Cat[<1F600>, A, <10FFFF>], Goal]
i:sk1ſ → Cat[Cat[Set(Ss), Set(Kk), 1, <17F>], Goal]
iu:sKſK → Cat[Cat[Set(Ss<17F>), Set(Kk<212A>), Set(Ss<17F>), Set(Kk<212A>)], Goal]
i:\x41\u0062 → Cat[Cat[Set(Aa), Set(Bb)], Goal]
:[a-cx] → Cat[Cat[[a-cx]], Goal]
:[] → Cat[Cat[[]], Goal]
:[]a] → Cat[Cat[[], a, ]], Goal]
:[^] → Cat[Cat[[^]], Goal]
:[^b-da] → Cat[Cat[[^a-d]], Goal]
:[a-a][a-b-d] → Cat[Cat[[a], [-a-bd]], Goal]
:[-a][a-][\d-x][a-\d] → Cat[Cat[[-a], [-a], [-0-9x], [-0-9a]], Goal]
:[--/][+--][\d-\s] → Cat[Cat[[--/], [+--], [<9>-<D><20>-0-9<A0><1680><2000>-<200A><2028>-<2029><202F><205F><3000><FEFF>]], Goal]
:[\b\]\-\x41\t^] → Cat[Cat[[<8>-<9>-A]-^]], Goal]
:[.*(?|{$] → Cat[Cat[[$(*.?{-|]], Goal]
:[\0\u0041\_] → Cat[Cat[[<0>A_]], Goal]
:[[&&--] → Cat[Cat[[&--[]], Goal]
u:[\ud83d\ude00-\u{1F601}] → Cat[Cat[[<1F600>-<1F601>]], Goal]
:[\ud83d\ude00] → Cat[Cat[[<D83D><DE00>]], Goal]
:\d\D → Cat[Cat[[0-9], [^0-9]], Goal]
:\w\W → Cat[Cat[[0-9A-Z_a-z], [^0-9A-Z_a-z]], Goal]
i:\w\d → Cat[Cat[[0-9A-Z_a-z], [0-9]], Goal]
iu:\w\W → Cat[Cat[[0-9A-Z_a-z<17F><212A>], [^0-9A-Z_a-z<17F><212A>]], Goal]
:\s → Cat[Cat[[<9>-<D><20><A0><1680><2000>-<200A><2028>-<2029><202F><205F><3000><FEFF>]], Goal]
:\S → Cat[Cat[[^<9>-<D><20><A0><1680><2000>-<200A><2028>-<2029><202F><205F><3000><FEFF>]], Goal]
:[\D] → Cat[Cat[[<0>-/:-<10FFFF>]], Goal]
iu:[\W] → Cat[Cat[[<0>-/:-@[-^`{-<17E><180>-<2129><212B>-<10FFFF>]], Goal]
iu:[^\W] → Cat[Cat[[^<0>-/:-@[-^`{-<17E><180>-<2129><212B>-<10FFFF>]], Goal]
i:[^x] → Cat[Cat[[^Xx]], Goal]
iu:[r-t] → Cat[Cat[[R-Tr-t<17F>]], Goal]
iu:[K] → Cat[Cat[[Kk<212A>]], Goal]
i:[K] → Cat[Cat[[<212A>]], Goal]
i:[Y-b] → Cat[Cat[[A-BY-by-z]], Goal]
v:[&\-\--] → Cat[Cat[[&-]], Goal]
v:[\[a&b-] → Cat[Cat[[&-[a-b]], Goal]
o:a* → Cat[Cat[Loop1CharBody{0,}(a)], Goal]
oi:a+? → Cat[Cat[Loop1CharBody{1,}?(Set(Aa))], Goal]
o:[a]{2}.? → Cat[Cat[Loop1CharBody{2,2}([a]), Loop1CharBody{0,1}(Dot)], Goal]
os:(.*|b)* → Cat[Cat[Loop{0,}0..1(Group0(Alt(Cat[Loop1CharBody{0,}(Any)], Cat[b])))], Goal]
o:(?:a)*(?=b+) → Cat[Cat[Loop{0,}0..0(Cat[a]), Ahead0..0(Cat[Loop1CharBody{1,}(b)])], Goal]
o:(a)\1* → Cat[Cat[Group0(Cat[a]), Loop{0,}1..1(Ref1(false))], Goal]
:(
:)
:a)
:()|)
:(?a)
:(?
:(?=a
:(?<=a
:(?<
:(?:a
:(?>a)
:*
:+
:?
:a|+
:|*
:(?)
:(*a)
:a**
:a???
:a{1}{2}
:{1,2}
:{1}
u:{1}
:^*
:$?
:^{1}
:\b+
:\B{2}
:(?=a)*
u:(?!a)?
:(?<=a)+
:(?<!a){1}
:a{2,1}
:a{99999999999999999999,1}
:\1
:(a)\2
:(a)\10
:(a)\01
:(a)\4294967297
:(a)\99999999999999999999
:\k
:\k<n>
:\k<>
:(?<n>a)\k<n
:(?<n>a)\k<m>
:(?<n>a)\k<N>
:(?<n>a)\kn
:(?<n>a)(?<n>b)
:(?<n>a)|(?<n>b)
:[(?<n>a)]\k<n>
:\(?<n>a\)\k<n>
:(?<1>a)
:(?<a-b>a)
:(?<>a)
:(?<a
:(?<é>a)
u:]
u:}
u:{
u:a{
u:a{,1}
u:[]a]
:\
:\00
:\08
:\x4
:\xg0
:\u004
:\u{41}
v:\u{41}
u:\u{}
u:\u{110000}
u:\u{41
u:\u{4g}
u:\u{FFFFFFFFF}
u:\ud83d\u00
u:\p
u:\p{L}
:\9
:[
:[a
:[a-
:[^
:[b-a]
:[a--]
u:[\u{1F601}-\ud83d\ude00]
:[\1]
:[\00]
:[\x4]
:[\B]
:[\k]
:[\
v:[[]
v:[a&&b]
v:[a--b]
v:[--a]
:\a   → refused
:[\a]
:\c   → refused
:[\c]
:\e   → refused
:[\e]
:\g   → refused
:[\g]
:\h   → refused
:[\h]
:\i   → refused
:[\i]
:\j   → refused
:[\j]
:\l   → refused
:[\l]
:\m   → refused
:[\m]
:\o   → refused
:[\o]
:\p   → refused
:[\p]
:\q   → refused
:[\q]
:\y   → refused
:[\y]
:\z   → refused
:[\z]
:\A   → refused
:[\A]
:\C   → refused
:[\C]
:\E   → refused
:[\E]
:\F   → refused
:[\F]
:\G   → refused
:[\G]
:\H   → refused
:[\H]
:\I   → refused
:[\I]
:\J   → refused
:[\J]
:\K   → refused
:[\K]
:\L   → refused
:[\L]
:\M   → refused
:[\M]
:\N   → refused
:[\N]
:\O   → refused
:[\O]
:\P   → refused
:[\P]
:\Q   → refused
:[\Q]
:\R   → refused
:[\R]
:\T   → refused
:[\T]
:\U   → refused
:[\U]
:\V   → refused
:[\V]
:\X   → refused
:[\X]
:\Y   → refused
:[\Y]
:\Z   → refused
:[\Z]
";
