//! Patterns of the profile that differ from ECMAScript 2018, as `docs/PROFILE.md` lists them.

// Rows like those of searches, in the order of that page: errors, each with what can be written
// instead; patterns that only the profile accepts; and patterns with another meaning.
pub const PROFILE: &str = r#"\p{L}~u~é~all~no pattern
\P{L}~u~1~all~no pattern
\p{L}~~p{L}~all~no pattern
[а-яё]+~~лёд~all~0..6
\cJ~~␤~all~no pattern
[\cJ]~u~␤~all~no pattern
\c~~\c~all~no pattern
\\c~~\c~all~0..2
\n~~␤~all~0..1
[\x01-\x1F]~~␤~all~0..1
\01~~1~all~no pattern
\012~~␤~all~no pattern
[\1]~~1~all~no pattern
[\012]~~␤~all~no pattern
\x0A~~␤~all~0..1
\1~~1~all~no pattern
\8~~8~all~no pattern
(a)\2~~aa~all~no pattern
\1(a)~~aa~all~0..1 0..1; 1..2 1..2
\0~~0~all~
\a~~a~all~no pattern
\e~~e~all~no pattern
\N~~N~all~no pattern
\p~~p~all~no pattern
[\N]~~N~all~no pattern
\A~~A~all~no pattern
[\B]~~B~all~no pattern
[\b]~~b~all~
\k~~k~all~no pattern
\k<n>~~k<n>~all~no pattern
k<n>~~k<n>~all~0..4
(?<n>a)\k<n>~~aa~all~0..2 0..1
\x4~~x4~all~no pattern
\x41~~A~all~0..1
\u004~~u004~all~no pattern
\u0041~~A~all~0..1
\u{41}~~A~all~no pattern
\u{41}~u~A~all~0..1
u{41}~~uu~all~
u{2}~~uu~all~0..2
(?=a)*~~a~all~no pattern
(?!a)?~~a~all~no pattern
(?=a){2}~~a~all~no pattern
(?:(?=a))*~~a~all~0..0; 1..1
(?:(?=(a)))?b~~ab~all~1..2 -
(?<=a)*~~a~all~no pattern
(?<é>a)~~a~all~no pattern
(?<\u0061>a)~~a~all~no pattern
(?<e>a)~~a~all~0..1 0..1
(?<n>a)|(?<n>b)~~b~all~no pattern
(?i:a)~~A~all~no pattern
(?>a)~~a~all~no pattern
[a&&a]~uv~a~all~no pattern
[\w--b]~uv~a~all~no pattern
[[a]]~uv~a~all~no pattern
[\q{ab}]~uv~ab~all~no pattern
\p{RGI_Emoji}~uv~🌷~all~no pattern
(?!b)[a-z]~uv~ab~all~0..1
\-~u~-~all~0..1
\_~u~_~all~0..1
\é~u~é~all~0..2
[\_]~u~_~all~0..1
[\-]~u~-~all~0..1
[\d-z]~u~a-z5~all~1..2; 2..3; 3..4
[a-\d]~u~a-z5~all~0..1; 1..2; 3..4
[\d\-z]~u~a-z5~all~1..2; 2..3; 3..4
[🌷-🌸]~~🌷a~all~0..4
[🌷-🌸]~u~🌷a~all~0..4
a~uv~a~all~0..1
a~ii~aA~all~0..1; 1..2
a~gxy~ba~all~1..2
[(]~uv~(~all~0..1
[\(]~uv~(~all~0..1
[a-]~uv~-~all~0..1
[!!]~uv~!~all~0..1
[|]~uv~|~all~0..1
{~v~{~all~0..1
}~v~}~all~0..1
]~v~]~all~0..1
{~uv~{~all~no pattern
\u{41}~v~A~all~no pattern
ſ~iv~s~all~
ſ~iuv~s~all~0..1
a{18446744073709551616,18446744073709551615}~~a~all~
a{2,1}~~a~all~no pattern
a{9,99999999999999999999999}~~aaaaaaaaaa~all~0..10
É~i~É é~all~0..2
[Éé]~i~É é~all~0..2; 3..5
É~iu~É é~all~0..2
я~i~Я~all~
[а-я]~i~Я~all~
[а-яА-Я]~i~Я~all~0..2
[^é]~i~É~all~0..2
[^éÉ]~i~É~all~
(.)\1~i~Éé~all~
(.)\1~i~Kk~all~0..2 0..1
ß~iu~ẞ~all~
[ßẞ]~iu~ẞ~all~0..3
σ~i~ς~all~
[σςΣ]~i~ς~all~0..2
ſ~i~s~all~
ſ~iu~s~all~0..1
\u212A~iu~kK~all~0..1; 1..2
(.)\1~iu~sſ~all~0..3 0..1
\w~iu~ſé~all~0..2
[^\W]~iu~ſ~all~0..2
.~~a🌷~all~0..1; 1..5
[^a]~~a🌷~all~1..5
^.$~~🌷~all~0..4
^..$~~🌷~all~
^.$~u~🌷~all~0..4
🌷+~~🌷🌷~all~0..8
(?:🌷)+~~🌷🌷~all~0..8
(.)\1~~🌷🌷~all~0..8 0..4
~~🌷~all~0..0; 4..4
\uD83C\uDF37~~🌷~all~
\uD83C\uDF37~u~🌷~all~0..4
\uD83C~~🌷~all~
[\uD800-\uDFFF]~~🌷~all~
[\u{10000}-\u{10FFFF}]~u~🌷~all~0..4
[^\uD800-\uDFFF]~~🌷~all~0..4
\B~u~🌷~all~0..0; 4..4
(?!\S)~u~🌷~all~4..4
$~~a␤~all~2..2
.~~␤~all~
\s~~é~all~
\w~~é~all~
"#;

// Rows like those of units. In UCS-2, a pattern without `u` finds what it finds in a string of
// JavaScript.
pub const PROFILE_UNITS: &str = r#".~~D83C DF37~ucs2~0~0..1; 1..2
^..$~~D83C DF37~ucs2~0~0..2
\uD83C\uDF37~~D83C DF37~ucs2~0~0..2
[\uD800-\uDFFF]~~D83C DF37~ucs2~0~0..1; 1..2
🌷~~D83C DF37~ucs2~0~
🌷~~D83C DF37~utf16~0~0..2
\uD83C\uDF37~~D83C DF37~utf16~0~
"#;
