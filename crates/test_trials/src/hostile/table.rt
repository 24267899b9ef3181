//! The rows, and the expected results.

/// Rows of fields that are separated by `~`: a pattern (or a tree in words, with the flags `tree`);
/// the letters of its flags; a text, or units in hexadecimal after `units:`; the start of the
/// search; the matches in bytes; the matches in UTF-16 if they differ; and those in UCS-2 if they
/// differ again. `apart` stands for an encoding that cannot hold the text or the tree.
pub const SEARCHES: &str = "\
a|ab~~abc~0~0..1
((a)|(ab))((c)|(bc))~~abc~0~0..3 0..1 0..1 - 1..3 - 1..3
(?<=x)y~~yxy~0~2..3
(?<=x)y~~xyxy~1~1..2;3..4
a*~~aab~0~0..2;2..2;3..3
a*~~aab~3~3..3
a*~~aab~4~none
(a|\\1b)c~~abc~0~1..3 1..2
^(?:(?:a|ab){2})+$~~aab~0~0..3
(z)((a+)?(b+)?(c))*~~zaacbbbcac~0~0..10 0..1 8..10 8..9 - 9..10
(?=(a+))a*b\\1~~baaabac~0~3..6 3..4
(.*?)a(?!(a+)b\\2c)\\2(.*)~~baaabaac~0~0..8 0..2 - 3..8
(a*)*~~b~0~0..0 -;1..1 -
(a*)b\\1+~~baaaac~0~0..1 0..0
(?<=(\\d+)(\\d+))$~~1053~0~4..4 0..1 1..4
(k)\\1~iu~k\u{212A}~0~0..4 0..1~0..2 0..1
(?<=(?<a>x)(?<b>y))z~~xyz~0~2..3 0..1 1..2
.~~😀~0~0..4~0..2~0..1;1..2
.~~units:DE00 D83D~0~apart~0..1;1..2
(.)\\1~~units:D83D D83D DE00~0~apart~none~0..2 0..1
(?<=(.))$~~units:D83D DE00~0~apart~2..2 0..2~2..2 1..2
(?:a|b)+?c~~abac~0~0..4
(?:a|a)*b~~baaaaaaaaaa~0~0..1
(?:(?!(b))a|c)+~~aca~0~0..3 -
[^a]~~aé~0~1..3~1..2
cat:2 alt bytes:61,62,63 bytes:61,62,64 goal~tree~xabd~0~1..4~apart
cat:2 alt bytes:61 bytes:62 goal~tree~xb~0~1..2~apart
cat:2 not:0,60,64,FFFFF goal~tree~zab~0~1..2;2..3
cat:2 class:7E,80 goal~tree~a~0~none
cat:4 a group:0 not loop:1,2,0 named:1,62 b goal~tree~ab~0~0..2 1..2 -
";

/// Rows of the same form with something odd: loops over nothing, the greatest counts, characters
/// that no text has, empty sets, lookarounds with the ids of missing groups, and starts past the
/// end.
pub const ODD: &str = "\
cat:2 ahead:5,5 a goal~tree~a~0~0..0
(?:(?:a*)*)*~~b~0~0..0;1..1
(?:a?){3}~~~0~0..0
(?:(?=a)|(?!a))*~~a~0~0..0;1..1
cat:2 loop:0,0,3E8,3E8 empty goal~tree~~0~0..0
cat:2 loop:0,0,3E8 empty goal~tree~a~0~0..0;1..1
cat:2 loop:0,0,FFFFFFFF a goal~tree~a~0~none
cat:2 loop1:FFFFFFFF a goal~tree~aa~0~none
cat:2 behind:0,0 loop1:FFFFFFFF a goal~tree~aa~0~none
a{0,18446744073709551615}~~aab~0~0..2;2..2;3..3
(?:a|b){2,18446744073709551615}~~abab~0~0..4
a{18446744073709551615,}~~aa~0~none
(a){18446744073709551615}~~aa~0~none
(?<=a{18446744073709551615})~~aa~0~none
cat:2 char:110000 goal~tree~a~0~none
cat:2 char:FFFFFFFF goal~tree~a~0~none
cat:2 char:D800 goal~tree~a~0~none
cat:2 char:D800 goal~tree~units:D800~0~apart~0..1
cat:3 loop1:0 char:D800 a goal~tree~a~0~0..1
cat:3 loop1:0 char:110000 a goal~tree~a~0~0..1
cat:2 set goal~tree~a~0~none
cat:3 loop1:0 set a goal~tree~a~0~0..1
cat:3 loop1:0 byteset a goal~tree~a~0~0..1~apart
cat:2 byteset goal~tree~a~0~none~apart
cat:2 bytes:C3,A9 goal~tree~aé~0~1..3~apart
cat:2 strings:0 goal~tree~a~0~none
goal~tree~~0~0..0
goal~tree~a~0~0..0;1..1
a~~aab~18446744073709551615~none
a*~~aab~18446744073709551615~none
$~~~1~none
$~~~0~0..0
~~~0~0..0
a~~units:D83D DE00~1~apart~no start~none
.~~units:D83D DE00~1~apart~no start~1..2
.~~units:DE00~1~apart~none
$~~units:DE00~1~apart~1..1
";

/// Rows of seven fields: a pattern (or a tree in words, with the flags `tree`), the letters of its
/// flags, a text, the start of the search, the step limit, the number of steps for the first match
/// (or for the end if there is none), and the matches, with `limit` if the steps do not suffice.
pub const LIMITS: &str = "\
cat:2 a goal~tree~a~0~1~2~limit
cat:2 a goal~tree~a~0~2~2~0..1;limit
cat:2 a goal~tree~a~0~3~2~0..1
cat:2 a goal~tree~b~0~1~2~limit
cat:2 a goal~tree~b~0~2~2~none
cat:2 alt a b goal~tree~b~0~4~5~limit
cat:2 alt a b goal~tree~b~0~5~5~0..1;limit
cat:2 loop:0,1,0,1 group:0 a goal~tree~a~0~6~7~limit
cat:2 loop:0,1,0,1 group:0 a goal~tree~a~0~12~7~0..1 0..1;limit
cat:2 loop:0,1,0,1 group:0 a goal~tree~a~0~13~7~0..1 0..1;1..1 -
(?:a|a)*~~aaaaaaaaaaaaaaaaaaaaaaaaaaaaaaaaaaaaaaaa~0~166~167~limit
(?:a|a)*~~aaaaaaaaaaaaaaaaaaaaaaaaaaaaaaaaaaaaaaaa~0~173~167~0..40;limit
(?:a|a)*~~aaaaaaaaaaaaaaaaaaaaaaaaaaaaaaaaaaaaaaaa~0~174~167~0..40;40..40
(?:a|a)*b~~aaaaaaaaaaaaaaaaaaaaaaaaaaaaaaaaaaaaaaaa~0~5000~18446744073709551615~limit
(?=(a))a~~a~0~6~7~limit
(?=(a))a~~a~0~9~7~0..1 0..1;limit
(?=(a))a~~a~0~10~7~0..1 0..1
é*~~ééa~0~10~5~0..4;4..4;limit
é*~~ééa~0~11~5~0..4;4..4;5..5
a~~aa~3~0~0~none
";

/// Rows of seven fields: a pattern, the letters of its flags, a text, its first two matches, the
/// least number of steps that the search for the second takes before it needs more memory than the
/// first did, and the start of that search.
pub const TAKEN: &str = "\
(a|c)*b~~aaaaaaaabaaaaaaaaaaaaaaaaaaaaaaaaaaaaaaaaaaaaaaaaaaaaaaaaaaaaaaaaaaaaaaaaaaaaaaaaaaaaaaaaaaaaaaaaaaaaaaaaaaaab~0..9 7..8~9..110 108..109~20~9
(a|c)*?b~~aaaaaaaabaaaaaaaaaaaaaaaaaaaaaaaaaaaaaaaaaaaaaaaaaaaaaaaaaaaaaaaaaaaaaaaaaaaaaaaaaaaaaaaaaaaaaaaaaaaaaaaaaaaab~0..9 7..8~9..110 108..109~20~9
(?:a(?=(a|b)))*b~~aaaaaaaabaaaaaaaaaaaaaaaaaaaaaaaaaaaaaaaaaaaaaaaaaaaaaaaaaaaaaaaaaaaab~0..9 8..9~9..70 69..70~20~9
";

/// Rows of four fields: a pattern, the letters of its flags, a text, and the first match in it, or
/// `Syntax` if it is not a pattern.
pub const CONSTRUCTORS: &str = "\
a|ab~~abc~0..1
(?<year>\\d{4})-(\\d\\d)~~on 2023-12~3..10 3..7 8..10
(?<=(?<a>x)(?<b>y))z~~xyz~2..3 0..1 1..2
(?:(a+)b)*?c|[^\\s\\w]~iu~aabac~4..5 -
~~a~0..0
\\b\\u{1F600}$~mu~a😀~1..5
(?!a{2,3}?)[a-z]\\2()(.)~s~ab~0..2 1..1 1..2
(~~a~Syntax
a**~~a~Syntax
(?<n>a)(?<n>b)~~a~Syntax
\\1~~a~Syntax
";

/// Rows of five fields: a pattern, a text, how it is replaced, the replacement, and the new text.
/// `first` replaces the first match, and `all` replaces each match. A closure gets the matched
/// number. It returns twice the first one (`doubled`), ten times each one in brackets (`tenfold`),
/// or an `x` for each small one (`small`). For other numbers it returns an error; then the result
/// says which number, and how often the closure was called.
pub const REPLACEMENTS: &str = "\
(\\d{4})-(\\d{2})-(\\d{2})~2023-12-25~first~$2/$3/$1~12/25/2023
(\\w+)~hello~first~$1 $2 $3~hello  
(\\w+)~hello~first~$999~
(\\w+)~hello~first~${x $1~${x $1
\\d+~Price: 123~first~$$0~Price: $0
(?=\\d)~a1b2c~first~X~aX1b2c
\\b(\\w)(\\w+)~hello world~all~$1.$2~h.ello w.orld
a~a~first~$655367~7
a*~baac~all~-~-b--c-
(a)~a~first~$01~a
(a)~a~first~$10~
(?<n>a)~xa~first~[${n}]~x[a]
a~a~first~$x$~$x$
a~a~first~${}~
(?<n>a)|(?<m>b)~ab~all~[${n}${m}]~[a][b]
z~abc~all~X~abc
.~aé~all~$0~aé
\\d+~Price: $123~doubled~~Price: $246
\\d+~Items: 5, 10, 15~tenfold~~Items: [50], [100], [150]
z~abc~tenfold~~abc
z~abc~doubled~~abc
\\d+~Items: 5, 10, 15~small~~refused 10 called 2
\\d+~Items: 5, 6~small~~Items: x, x
z~abc~small~~abc
";

/// Rows of two fields: a text, and the text with its syntax characters escaped.
pub const ESCAPES: &str = "\
a^b$c.d|e?f*g+h(i)j[k]l{m}n\\o~a\\^b\\$c\\.d\\|e\\?f\\*g\\+h\\(i\\)j\\[k\\]l\\{m\\}n\\\\o
$100 + tax (15%)~\\$100 \\+ tax \\(15%\\)
a-b/c~a-b/c
~
é.~é\\.
";

/// Rows of six fields: a pattern, flags, a text, the exit status, the output, and the error output,
/// where `;` ends a line.
pub const TOOL_ROWS: &str = "\
a|ab~~abc~0~0..1;~
a*~~baac~0~0..0;1..3;3..3;4..4;~
(a)|b~~ab~0~0..1 0..1;1..2 -;~
(?:(a)|é)+?~u~aéb~0~0..1 0..1;1..3 -;~
z~~abc~1~~
(~~~2~~(;^ unclosed group;
";
