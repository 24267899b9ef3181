//! The table of searches.

// Rows of five fields: a pattern, the letters of its flags, a text in which `␤` stands for a line
// feed, a call, and its result. The calls are `all`, `first`, an offset for all matches from there,
// or `at` and an offset for the match there. `regex_of` lists the words that may stand in place of
// letters, such as `tree`.
pub const SEARCHES: &str = r#"a|ab~~abc~all~0..1
((a)|(ab))((c)|(bc))~~abc~all~0..3 0..1 0..1 - 1..3 - 1..3
(?<=x)y~~yxy~all~2..3
(?<=x)y~~xyxy~1~1..2; 3..4
\101|(?=a)*b~+~Ab~all~0..1; 1..2
\p{Lu}+~+u~aÉB~all~1..4
\1(a)~+~aa~all~0..1 0..1; 1..2 1..2
(?<\u0061>a)\k<a>~+~aa~all~0..2 0..1
\k<n>{~+~k<n>{~all~0..5
[^é]~+i~Éa~all~2..3
\P{Ll}~+iu~a~all~0..1
[\u0080-\uffffA-Z]~+i~a~all~0..1
ß~+i~ẞ~all~
ß~+iu~ẞ~all~0..3
(ß)\1~+iu~ßẞ~all~0..5 0..2
(?=a)*~+u~a~all~no pattern
\-~+u~-~all~no pattern
a|ab~~xab~at 0~
a|ab~~xab~at 1~1..2
a|ab~~xab~at 2~
a|ab~~xab~at 3~
a|ab~~xab~at 4~
a|ab~~xab~at 18446744073709551615~
a*~~xaa~at 0~0..0
a*~~xaa~at 1~1..3
a*~~xaa~at 3~3..3
(?<=(x))y~~xyxy~at 3~3..4 2..3
(?<=(x))y~~xyxy~at 2~
^a~~aa~at 0~0..1
^a~~aa~at 1~
^a~m~b␤a~at 2~2..3
b$~~abb~at 1~
(a)|b~~xab~at 2~2..3 -
.~~é€~at 2~2..5
.~~é€~at 1~no start
[^é]~~ééa~at 0~
a*~~aab~all~0..2; 2..2; 3..3
a*~~aab~3~3..3
a*~~aab~4~
a*~~aab~18446744073709551615~
(a|\1b)c~~abc~all~1..3 1..2
(a+)b\1c~~aabac~all~1..5 1..2
((\w+)@)x~~ab@cd@x~all~3..7 3..6 3..5
(\s*)x~~  y  x~all~3..6 3..5
(.*)b~~éa␤éb~all~4..7 4..6
(a+)(?:b|(c)\2)~~aaadacc~all~4..7 4..5 5..6
^(?:(?:a|ab){2})+$~~aab~all~0..3
(z)((a+)?(b+)?(c))*~~zaacbbbcac~all~0..10 0..1 8..10 8..9 - 9..10
(?=(a+))a*b\1~~baaabac~all~3..6 3..4
(.*?)a(?!(a+)b\2c)\2(.*)~~baaabaac~all~0..8 0..2 - 3..8
(a*)*~~b~first~0..0 -
(a*)b\1+~~baaaac~first~0..1 0..0
(?<=(\d+)(\d+))$~~1053~all~4..4 0..1 1..4
(k)\1~iu~kK~all~0..4 0..1
(?<=(?<a>x)(?<b>y))z~~xyz~all~2..3 0..1 1..2
^(\w+)=(\d+)~~key=123 other=456~all~0..7 0..3 4..7
^(\w+)=(\d+)~~ key=123~all~
.*b~~bé~all~0..1
(?:a?){3}~~~all~0..0
(?:){1000}~~~all~0..0
(){1000}~~a~first~0..0 0..0
(?:a?){1000}~~aab~first~0..2
(?:([ab])){10,20}b~~abababababababab~first~0..16 14..15
(?:([ab])){10,}?b$~~aaaaaaaaaaaab~first~0..13 11..12
(?:(?=(.))a){12}\1~~aaaaaaaaaaaaa~first~0..13 11..12
(?:(a)(?!(b)\1c)){10}b~~aaaaaaaaaab~first~0..11 9..10 -
(aa|aabaac|ba|b|c)*~~aabaac~first~0..4 2..4
(?:a|a)*~~aaaaaaaaaaaaaaaaaaaaaaaaaaaaaaaaaaaaaaaa~first~0..40
a+?~~aa~all~0..1; 1..2
(a{2,3}?)(a*)~~aaaa~first~0..4 0..2 2..4
(?:(a)|b)*?c~~abc~first~0..3 -
(a*){2}~~b~all~0..0 0..0; 1..1 1..1
(ab)(?<=\1)c~~abc~all~0..3 0..2
(?:a|b)*c~~abac~all~0..4
(?:a|b)*?c~~abac~all~0..4
(?:a|b){2,3}c~~ababc~all~1..5
(?:a|b){3}c~~ababc~all~1..5
(?:a|b){0,2}c~~aabc~all~1..4
(?:a|é)*b~~aéab~all~0..5
x(?:[^x\\]|\\.)*x~~xa\xbxcx~all~0..6
(?:(?:a|b)*c)*d~~abcacd~all~0..6
((?:a|b)*)c\1~~abcab~all~0..5 0..2
(?<=x(?:a|b)*)c~~xabc~all~3..4
(?:(?=(a))ac|ab)\1~~ab~first~0..2 -
(?:(?!(b))a|c)+~~aca~first~0..3 -
(?<=a{2,3})b~~aaab~all~3..4
^a~~aa~0~0..1
^a~~aa~1~
^a~m~b␤a~all~2..3
[^a]~~aé~all~1..3
(?:(?:a*)*)*~~b~all~0..0; 1..1
(a)|b~~ab~all~0..1 0..1; 1..2 -
z~~abc~all~
~~~all~0..0
~~ab~all~0..0; 1..1; 2..2
ab|a~~aab~all~0..1; 1..3
a{2,3}~~aaaaa~all~0..3; 3..5
a{2,3}?~~aaaaa~all~0..2; 2..4
.*~~ab~all~0..2; 2..2
.*?~~ab~all~0..0; 1..1; 2..2
a.{1,2}~~aéé€~all~0..5
a[bc]+~~abcb~all~0..4
a[bc]+?~~abcb~all~0..2
"(.*?)"~~say "a" or "b␤" "" end~all~4..7 5..6; 14..17 15..16
a(.*?)b(c)~~a1b2bc~all~0..6 1..4 5..6
x.{1,2}?y~~xyy xabcy xay~all~0..3; 10..13
<.{2,}?>~~<a> <bc>~all~0..8
é.*?[ü;]~~aéßü é;éb␤ü~all~1..7; 8..11
(a+?)(b*?)c~~aabbc~all~0..5 0..2 2..4
(a*)*~~b~all~0..0 -; 1..1 -
(a*){2}~~ab~all~0..1 1..1; 1..1 1..1; 2..2 2..2
(?:a|ab)(?:c|bcd)(d*)~~abcd~all~0..4 4..4
(a)\1~~aab~all~0..2 0..1
(\w)\1~~abccd_ee~all~2..4 2..3; 6..8 6..7
(\d)\1~~12 334 4~all~3..5 3..4
([a-z])\1~i~abBc~all~1..3 1..2
([а-я])\1~~аббв~all~2..6 2..4
(.)\1~~é€€a~all~2..8 2..5
(\w)\1~~₂aa~all~3..5 3..4
(?<=(a+)(b+))$~~aabb~all~4..4 0..2 2..4
(?<!a)b~~abb~all~2..3
a$~~aa~all~1..2
a\b~~aa a~all~1..2; 3..4
a\B.~~aa~all~0..2
\bb~~ab b ab_b b~all~3..4; 10..11
\b[^a]~~aba b~all~3..4; 4..5
\Bb~~ab b abb~all~1..2; 6..7; 7..8
\b.~~яab~all~2..3
\bs~iu~ſs s~all~0..2; 4..5
\b(\w+) \1\b~~ab_ab ab ab~all~6..11 6..8
^a~~ba~0~
^a~~ba~1~
^a~~ab~0~0..1
^a~~␤a~0~
^a~m~ba~0~
^a~m~ba~1~
^a~m~b␤a~1~2..3
^a|a~~ba~0~1..2
^a|^b~~xb~0~
^a|^b~~ab~1~
^a|b~~ab~0~0..1; 1..2
(?<=^)a~~aa~all~0..1
(?<=^b)a~~baa~all~1..2
(?<=^)a~m~b␤a~all~2..3
b~~abéb~first~1..2
b~~é~first~
b~~abéb~all~1..2; 4..5
b~~abéb~2~4..5
b~~abéb~4~4..5
b~~abéb~5~
b~~abéb~6~
x?s~iu~aXsS~first~1..3
x?s~iu~aXsS~all~1..3; 3..4
x?s~iu~aXsS~1~1..3; 3..4
x?s~iu~aXsS~2~2..3; 3..4
x?s~iu~aXsS~4~
x?s~iu~aXsS~5~
a|b~~abc~all~0..1; 1..2
(?:a|a)*~~aaaaaaaaaaaaaaaaaaaaaaaaaaaaaaaaaaaaaaaa~all~0..40; 40..40
a{0,18446744073709551615}~~aab~all~0..2; 2..2; 3..3
(?:a|b){2,18446744073709551615}~~abab~all~0..4
a{18446744073709551615,}~~aa~all~
(a){18446744073709551615}~~aa~all~
a*~~baac~all~0..0; 1..3; 3..3; 4..4
a*a~~aa~all~0..2
(a)?~~a~all~0..1 0..1; 1..1 -
(a)(b)?~~a~first~0..1 0..1 -
(?=\d)~~a1b2c~all~1..1; 3..3
(?!a).~~abé~all~1..2; 2..4
[a-c](?=[x-z])~~axbyc~all~0..1; 2..3
[a-c](?![x-z])~~axbyc~all~4..5
\w+(?=,|$)~~ab, cd ef~all~0..2; 7..9
\w+@~~a b c@ d e@ f~all~4..6; 9..11
\w+(?=,)~~aa bb, cc dd, e~all~3..5; 10..12
\w+@~~@ a @ b@~all~6..8
\w+@~~a b c d~all~
(?<=@\w)\w+;~~ab; @cd; ef; @gh;~all~6..8; 15..17
(?:a|b@)+;~~a b a@ b@a; ab@;~all~7..11; 12..16
\b(?:\d{1,3}\.){2}\d~~1 2 33.4 5.66.7 8~all~9..15
(?!b)\w+@~~a b b@ ab@~all~7..10
[^,]+,x~~a,b c,x d~all~2..7
[à-ü]+@~~é é éü@ é@ ü~all~6..11; 12..15
(?:(?!,)[^])+~~ab,é,,c~all~0..2; 3..5; 7..8
(?=(?!a)[ab])\w~~abcb~all~1..2; 3..4
(?!(?!a)[ab])\w~~abcb~all~0..1; 2..3
(?=(a)|ab)a~~abaa~all~0..1 0..1; 2..3 2..3; 3..4 3..4
(?=(a)b|a)a~~aab~all~0..1 -; 1..2 1..2
(?!(a)b|c)[ac]~~abaca~all~2..3 -; 4..5 -
(?=ab|a)\w~~aabb~all~0..1; 1..2
(?=a|(b))[ab]~~ab~all~0..1 -; 1..2 1..2
(?<=(?=b).)[cd]~~bcadbd~all~1..2; 5..6
(?<=a(?!b).)[cd]~~abcaed~all~5..6
(?<=(?!é|.a).)x~~éxaxbx~all~4..5; 6..7
.(?=é)~~aéb€é~all~0..1; 4..7
.(?![é€])~~aé€b~all~3..6; 6..7
(?=[^])~~aé~all~0..0; 1..1
(?![^])~~aé~all~3..3
(?=[а-яё])[^]~i~аЯZё~all~0..2; 5..7
[а-я]+~~Яаяѐ~all~2..6
[а-€]+~~я€aя~all~0..5; 6..8
[!-я]+~~aяa€~all~0..4
[а-я]{2,3}~~абвг~all~0..6
[а-яё]+~~лёдaё~all~0..6; 7..9
(?:a(?!b)|b)+~~aababbaa~all~0..1; 2..3; 4..8
(?:(?=[ab])\w(?!c))*~~abbcab~all~0..2; 2..2; 3..3; 4..6; 6..6
(?:(?!b)(\w))+(?=b)~~acdbxb~all~0..3 2..3; 4..5 4..5
.(?=😀)~u~a😀b😀~all~0..1; 5..6
.(?!😀)~u~a😀b😀~all~1..5; 6..10
(?=$|\n)~~ab␤cd~all~2..2; 5..5
a(?=(?=b)[ab](?!c))~~abcaba~all~3..4
(?=(?=(?=(a))))\1b|\w(?!a)~~aab~all~1..3 1..2
(?!x)(?=y|z)\w(?!y)~~xyzyyz~all~1..2; 4..5; 5..6
\b(\w)(\w+)~~hello world~all~0..5 0..1 1..5; 6..11 6..7 7..11
b~new~aBb~first~2..3
b~new~é~first~
b~from_str~ab~first~1..2
(~from_str~~all~no pattern
aé~points~xaé~first~1..4
cat:2 a goal/cat:2 b goal~pair~ab~first~0..1
cat:2 a goal/cat:2 b goal~pair~ab~all~0..1
b|é~~abéb~2~2..4; 4..5
b|é~~abab~2~3..4
cat:2 char:110000 goal~tree~a~0~
cat:2 set goal~tree~a~0~
cat:3 loop1:0 char:D800 a goal~tree~a~0~0..1
cat:3 loop1:0 byteset a goal~tree~a~0~0..1
cat:2 bytes:E2,82,AC,E2,82,AC,E2,82,AC,E2,82,AC,E2,82,AC,E2,82,AC goal~tree~€€€€€€~0~0..18
cat:2 bytes:C3,A9 goal~tree~aé~0~1..3
cat:3 any bytes:E2,82,AC,E2,82,AC,E2,82,AC,E2,82,AC,E2,82,AC,E2,82,AC goal~tree~x€€€€€€€~0~0..19
cat:3 any bytes:E2,82,AC,E2,82,AC,E2,82,AC,E2,82,AC,E2,82,AC,E2,82,AC goal~tree~x€€€€€~0~
cat:2 behind:0,0 bytes:61,62,63,64,65,66,67,68,69,6A,6B,6C,6D,6E,6F,70,71 goal~tree~abcdefghijklmnopq~0~17..17
cat:3 behind:0,0 bytes:E2,82,AC,E2,82,AC,E2,82,AC,E2,82,AC,E2,82,AC,E2,82,AC any goal~tree~€€€€€€x~0~18..19
cat:2 behind:0,0 strings:1 set:61,62 goal~tree~ab~0~2..2
cat:3 strings:2 set:61 set:61,62 c goal~tree~abc~0~0..3
cat:2 istrings:2 set:61,62 set:61 goal~tree~ABaBxA~0~0..2; 2..4; 5..6
cat:2 istrings:2 set:E9,73 set:31 goal~tree~ésÉséS1~0~0..3; 6..9; 9..10
cat:3 behind:0,0 istrings:2 set:62 set:61,62 c goal~tree~ABcbcB~0~2..3; 4..5
cat:3 loop:0,0,1 istrings:1 set:61,62 c goal~tree~xaBABcab~0~1..6
cat:3 group:0 any canonical:1,0 goal~tree~aAéÉÿŸµΜ~0~0..2 0..1; 2..6 2..4; 6..10 6..8; 10..14 10..12
cat:3 group:0 any canonical:1,0 goal~tree~ßẞkKſs𐐨𐐀ıIİi~0~
cat:3 group:0 any canonical:1,0 goal~tree~ςσ~0~0..4 0..2
cat:3 group:0 any canonical:1,1 goal~tree~aAéÉßẞkKſs𐐨𐐀~0~0..2 0..1; 2..6 2..4; 6..11 6..8; 11..15 11..12; 15..18 15..17; 18..26 18..22
cat:3 group:0 any canonical:1,1 goal~tree~ıIİiab~0~
cat:2 behind:0,1 cat:2 group:0 any canonical:1,1 goal~tree~xKk~0~5..5 4..5
cat:2 behind:0,1 cat:2 group:0 any canonical:1,0 goal~tree~xKk~0~
cat:3 group:0 loop1:2,2 any canonical:1,0 goal~tree~éxÉXéxÉy~0~0..6 0..3
cat:4 alt group:0 a empty canonical:1,0 b goal~tree~b~0~0..1 -
cat:3 group:0 any canonical:1,0 goal~tree~abBA~0~1..3 1..2
cat:3 group:0 any canonical:1,1 goal~tree~abBA~0~1..3 1..2
cat:2 loop:0,0,3E8,3E8 empty goal~tree~~0~0..0
cat:2 loop:0,0,FFFFFFFF a goal~tree~a~0~
cat:2 ahead:5,5 a goal~tree~a~0~0..0
cat:2 any goal~tree~é€~0~0..2; 2..5
cat:2 empty goal~tree~é€~0~0..0; 2..2; 5..5
cat:2 any goal~tree~a~0~0..1
cat:2 empty goal~tree~a~0~0..0; 1..1
cat:2 any goal~tree~~0~
cat:2 empty goal~tree~~0~0..0
cat:2 any goal~tree~é€~5~
cat:2 empty goal~tree~é€~5~5..5
cat:2 any goal~tree~é€~6~
cat:2 empty goal~tree~é€~6~
cat:2 any goal~tree~~1~
cat:2 empty goal~tree~~1~
"#;
