//! The rows: a question, the tree in words, or a pattern between slashes and its flags, an arrow, and the answer.

// The kinds of rows, by their question. `unit_` before a question asks it of the program for 16-bit units.
//
// - `program`, `units`: the program of the tree, or the error. The malformed trees have goals that are not last,
//   wrong or missing group ids, references to no group, minima above the maximum, loop bodies of other than one
//   character, bytes that are not UTF-8, or sets of too many members. A malformed tree with bytes is `NotWellFormed`
//   for 16-bit units too.
// - `optimized`: the program of the optimized tree.
// - `predicate`: the start predicate.
// - `parts`, `names`: what the readers of a program return. In a lookbehind, the group with the higher id is first.
// - `plan`: where a search tries to match (anywhere, at one of a few keys, at the keys of a table, behind keys, at a
//   required prefix with its prefilters); for each loop over one character, the first key of each run of keys that
//   may follow.
// - `leading_loop`: after how many units of a character the char loop that begins each match is scanned again, and how
//   many groups are opened before it.
// - `arms`: the instruction of each alternation and, for the first key of each run and the end of the text, the
//   instructions of the arms that may match there.
// - `lookaheads`: the same for lookaheads, with whether a thread continues: `yes`, `no`, or `ask` if the contents
//   decide.
// - `must_iterate`: the instruction at the end of a loop's body, and the runs of keys over which the loop iterates at
//   once.
// - `classes`: for the first key of each run, the number of units of a character (0 if none is accepted, 5 if the
//   character decides); the bytes at which a scan stops.
// - `memo_analysis`: each memoized instruction with its number of codes, and the work that an offset pays for all of
//   them.
// - `codes`: the codes after zero to four iterations of each loop whose last one read a character, and of each whose
//   last one did not. `!` marks states that are not sound at the end of a text of one unit.
// - `memo`: the number of keys of three offsets that are recorded, one by one, as failing and as finding an end; and
//   whether there is a table for as many offsets as can be counted (`in all places`), its allocation fails
//   (`refused`), or it would have too many keys.
pub(crate) const ROWS: &str = "\
program goal → Goal
program cat:3 empty any goal → MatchAny, Goal
program cat:2 alt a cat:2 a b goal → Alt 3, Char 97, Jump 5, Char 97, Char 98, Goal
program cat:2 loop:0,0,0 a goal → EnterLoop 0 0 18446744073709551615 true 3, Char 97, LoopAgain 0, Goal
program cat:2 loop:0,1,0 loop:0,1,0 group:0 a goal → EnterLoop 0 0 18446744073709551615 true 9, ResetCaptureGroup 0, EnterLoop 1 0 18446744073709551615 true 8, ResetCaptureGroup 0, BeginCaptureGroup 0, Char 97, EndCaptureGroup 0, LoopAgain 2, LoopAgain 0, Goal
program cat:2 loop1:0 a goal → Loop1CharBody 0 18446744073709551615 true, Char 97, Goal
program cat:2 behind:0,0 bytes:61,62,63,64,65,66,67,68,69,6A,6B,6C,6D,6E,6F,70,71 goal → Lookbehind false 0 0 4, ByteSeq1 q, ByteSeq16 abcdefghijklmnop, Goal, Goal
program cat:3 behind:0,0 strings:1 set:61,62 c goal → Lookbehind false 0 0 4, Char 98, Char 97, Goal, Char 99, Goal
program cat:3 any cat:2 group:1 empty group:0 empty goal → MatchAny, BeginCaptureGroup 1, EndCaptureGroup 1, BeginCaptureGroup 0, EndCaptureGroup 0, Goal
program cat:3 any cat:2 group:0 empty ref:1 goal → MatchAny, BeginCaptureGroup 0, EndCaptureGroup 0, BackRef 0 false, Goal
program cat:11 bytes:61 bytes:61,62 bytes:61,62,63 bytes:61,62,63,64 bytes:61,62,63,64,65 bytes:61,62,63,64,65,66 bytes:61,62,63,64,65,66,67 bytes:61,62,63,64,65,66,67,68 bytes:61,62,63,64,65,66,67,68,69 bytes:61,62,63,64,65,66,67,68,69,6A bytes:61,62,63,64,65,66,67,68,69,6A,6B bytes:61,62,63,64,65,66,67,68,69,6A,6B,6C bytes:61,62,63,64,65,66,67,68,69,6A,6B,6C,6D bytes:61,62,63,64,65,66,67,68,69,6A,6B,6C,6D,6E bytes:61,62,63,64,65,66,67,68,69,6A,6B,6C,6D,6E,6F bytes:61,62,63,64,65,66,67,68,69,6A,6B,6C,6D,6E,6F,70 goal → ByteSeq1 a, ByteSeq2 ab, ByteSeq3 abc, ByteSeq4 abcd, ByteSeq5 abcde, ByteSeq6 abcdef, ByteSeq7 abcdefg, ByteSeq8 abcdefgh, ByteSeq9 abcdefghi, ByteSeq10 abcdefghij, ByteSeq11 abcdefghijk, ByteSeq12 abcdefghijkl, ByteSeq13 abcdefghijklm, ByteSeq14 abcdefghijklmn, ByteSeq15 abcdefghijklmno, ByteSeq16 abcdefghijklmnop, Goal
program cat:5 byteset:61,62 byteset:61,62,63 byteset:61,62,63,64 byteset:61 goal → ByteSet2 [97, 98], ByteSet3 [97, 98, 99], ByteSet4 [97, 98, 99, 100], ByteSeq1 a, Goal
program cat:5 set:61 set:61,62 set:61,62,63 set:61,62,63,64 goal → CharSet [97, 97, 97, 97], CharSet [97, 98, 97, 97], CharSet [97, 98, 99, 97], CharSet [97, 98, 99, 100], Goal
program cat:4 set byteset strings:0 goal → JustFail, JustFail, JustFail, Goal
program cat:2 strings:2 set:61,62 set:63 goal → Alt 4, Char 97, Char 98, Jump 5, Char 99, Goal
program cat:2 istrings:3 set:61,31 set set:5A goal → Alt 4, CharSet [65, 97, 65, 65], Char 49, Jump 7, Alt 6, Jump 7, CharSet [90, 122, 90, 90], Goal
program cat:2 behind:0,0 istrings:1 set:31,61 goal → Lookbehind false 0 0 4, CharSet [65, 97, 65, 65], Char 49, Goal, Goal
program /a*/ → Loop1CharBody 0 18446744073709551615 true, Char 97, Goal
program /a{2,3}?b/ → Loop1CharBody 2 3 false, Char 97, Char 98, Goal
program /(?:a|b)+?c/ → EnterLoop 0 1 18446744073709551615 false 6, Alt 4, Char 97, Jump 5, Char 98, LoopAgain 0, Char 99, Goal
program /(?=a)b/ → Lookahead false 0 0 3, Char 97, Goal, Char 98, Goal
program /(?!(a))/ → Lookahead true 0 1 5, BeginCaptureGroup 0, Char 97, EndCaptureGroup 0, Goal, Goal
program /(?<=ab)(?<!(c))/ → Lookbehind false 0 0 4, Char 98, Char 97, Goal, Lookbehind true 0 1 9, BeginCaptureGroup 0, Char 99, EndCaptureGroup 0, Goal, Goal
program /^$/ → StartOfLine false, EndOfLine false, Goal
program /^$/m → StartOfLine true, EndOfLine true, Goal
program /\\b\\B/iu → WordBoundaryUnicodeICase false, WordBoundaryUnicodeICase true, Goal
program /\\b\\B/i → WordBoundary false, WordBoundary true, Goal
program /./ → MatchAnyExceptLineTerminator, Goal
program /./s → MatchAny, Goal
program /(a)\\1/ → BeginCaptureGroup 0, Char 97, EndCaptureGroup 0, BackRef 0 false, Goal
program /()()\\2/i → BeginCaptureGroup 0, EndCaptureGroup 0, BeginCaptureGroup 1, EndCaptureGroup 1, BackRef 1 true, Goal
program /[a-c][]/ → AsciiBracket 97 98 99, AsciiBracket, Goal
program /[^a-c][é]/ → Bracket 0, Bracket 1, Goal
program /kK1/i → CharSet [75, 107, 75, 75], CharSet [75, 107, 75, 75], Char 49, Goal
program /k/iu → CharSet [75, 107, 8490, 75], Goal
program a → NotWellFormed
program cat:2 goal a → NotWellFormed
program alt goal goal → NotWellFormed
program cat:2 goal goal → NotWellFormed
program cat:0 → NotWellFormed
program cat:3 any cat:2 group:0 empty group:0 empty goal → NotWellFormed
program cat:3 any cat:2 group:0 empty group:2 empty goal → NotWellFormed
program cat:3 any loop:0,0,0 group:0 a goal → NotWellFormed
program cat:3 any loop:0,1,0 a goal → NotWellFormed
program cat:3 any loop:1,0,0 a goal → NotWellFormed
program cat:3 any ahead:0,1 a goal → NotWellFormed
program cat:3 group:0 a canonical:1,0 goal → BeginCaptureGroup 0, Char 97, EndCaptureGroup 0, BackRef 0 alike, Goal
program cat:3 group:0 a canonical:1,1 goal → BeginCaptureGroup 0, Char 97, EndCaptureGroup 0, BackRef 0 alike with u, Goal
program cat:3 any ref:1 goal → NotWellFormed
program cat:3 any cat:2 group:0 empty ref:0 goal → NotWellFormed
program cat:3 any cat:2 group:0 empty ref:2 goal → NotWellFormed
program cat:3 any cat:2 group:0 empty canonical:0,0 goal → NotWellFormed
program cat:3 any cat:2 group:0 empty canonical:2,1 goal → NotWellFormed
program cat:3 any loop:0,0,2,1 a goal → NotWellFormed
program cat:3 any loop1:2,1 a goal → NotWellFormed
program cat:3 any loop:0,0,3,2 a goal → NotWellFormed
program cat:3 any loop1:3,2 a goal → NotWellFormed
program cat:3 any loop1:0 cat:1 a goal → NotWellFormed
program cat:3 any loop1:0 empty goal → NotWellFormed
program cat:3 any loop1:0 bytes:61,62 goal → NotWellFormed
program cat:3 any bytes goal → NotWellFormed
program cat:3 any bytes:C3 goal → NotWellFormed
program cat:3 any bytes:C0,80 goal → NotWellFormed
program cat:3 any bytes:ED,A0,80 goal → NotWellFormed
program cat:3 any byteset:61,62,63,64,65 goal → NotWellFormed
program cat:3 any byteset:80 goal → NotWellFormed
program cat:3 any set:1,2,3,4,5 goal → NotWellFormed
program cat:3 any strings:1 set:110000 goal → NotWellFormed
program cat:10001 groups goal → TooManyGroups
program cat:10001 loops goal → TooManyLoops
units cat:10001 groups goal → TooManyGroups
units cat:10001 loops goal → TooManyLoops
units bytes:61 → NotWellFormed
units a → NotWellFormed
units cat:2 goal a → NotWellFormed
units alt goal goal → NotWellFormed
units cat:2 goal goal → NotWellFormed
units cat:0 → NotWellFormed
units cat:3 any cat:2 group:0 empty group:0 empty goal → NotWellFormed
units cat:3 any cat:2 group:0 empty group:2 empty goal → NotWellFormed
units cat:3 any loop:0,0,0 group:0 a goal → NotWellFormed
units cat:3 any loop:0,1,0 a goal → NotWellFormed
units cat:3 any loop:1,0,0 a goal → NotWellFormed
units cat:3 any ahead:0,1 a goal → NotWellFormed
units cat:3 any ref:1 goal → NotWellFormed
units cat:3 any cat:2 group:0 empty ref:0 goal → NotWellFormed
units cat:3 any cat:2 group:0 empty ref:2 goal → NotWellFormed
units cat:3 any loop:0,0,2,1 a goal → NotWellFormed
units cat:3 any loop1:2,1 a goal → NotWellFormed
units cat:3 any loop:0,0,3,2 a goal → NotWellFormed
units cat:3 any loop1:3,2 a goal → NotWellFormed
units cat:3 any loop1:0 cat:1 a goal → NotWellFormed
units cat:3 any loop1:0 empty goal → NotWellFormed
units cat:3 any loop1:0 bytes:61,62 goal → NotWellFormed
units cat:3 any bytes goal → NotWellFormed
units cat:3 any bytes:C3 goal → NotWellFormed
units cat:3 any bytes:C0,80 goal → NotWellFormed
units cat:3 any bytes:ED,A0,80 goal → NotWellFormed
units cat:3 any byteset:61,62,63,64,65 goal → NotWellFormed
units cat:3 any byteset:80 goal → NotWellFormed
units cat:3 any set:1,2,3,4,5 goal → NotWellFormed
units cat:3 any strings:1 set:110000 goal → NotWellFormed
units cat:2 bytes:61 goal → BytesInUnits
units cat:2 behind:0,0 alt x byteset:61,62 goal → BytesInUnits
units cat:2 a goal → Char 97, Goal
units cat:3 behind:0,0 strings:1 set:61,62 c goal → Lookbehind false 0 0 4, Char 98, Char 97, Goal, Char 99, Goal
predicate cat:2 bytes:61,62,63 goal → ByteSeq [97, 98, 99]
predicate cat:2 alt bytes:61,62,63 bytes:61,62,64 goal → ByteSeq [97, 98]
predicate cat:2 alt bytes:61,62,63 bytes:78,79,7A goal → ByteSet2 [97, 120]
predicate cat:2 loop:0,0,0 bytes:61,62,63 goal → Arbitrary []
predicate cat:2 loop:0,0,1 bytes:61,62,63 goal → ByteSeq [97, 98, 99]
predicate cat:2 cat:2 ahead:0,0 bytes:62 bytes:61 goal → ByteSet1 [97]
predicate cat:2 cat:2 start bytes:61 goal → StartAnchored []
predicate cat:2 byteset goal → Arbitrary []
predicate cat:2 set:20AC,61,110000 goal → ByteSet2 [97, 226]
predicate cat:2 class:7E,80 goal → ByteSet3 [126, 127, 194]
predicate cat:2 not:0,60,63,FFFFF goal → ByteSet3 [97, 98, 244]
predicate cat:2 not:0,60,64,FFFFF goal → ByteBracket 97 98 99 244
parts cat:2 loop:0,1,0 group:0 class:E9,E9 goal → parts 7 1 1 1 0 1 0 / / / / Arbitrary []parts 7 1 1 1 0 1 0 / / / / Arbitrary []
parts cat:3 behind:0,2 cat:2 named:1,62 y named:0,61 x z goal → parts 10 0 0 2 2 0 0 a/ b/ / / Arbitrary []parts 10 0 0 2 2 0 0 a/ b/ / / Arbitrary []
parts cat:2 cat:2 group:0 x named:1,62 y goal → parts 7 0 0 2 2 0 0 / b/ / / Arbitrary []parts 7 0 0 2 2 0 0 / b/ / / Arbitrary []
parts cat:2 cat:2 start bytes:61 goal → parts 3 0 0 0 0 0 0 / / / / StartAnchored []parts 3 0 0 0 0 0 0 / / / / StartAnchored []
parts cat:2 bytes:61,62 goal → parts 2 0 0 0 0 0 0 / / / / ByteSeq [97, 98]parts 2 0 0 0 0 0 0 / / / / ByteSeq [97, 98]
parts cat:2 bytes:61 goal → parts 2 0 0 0 0 0 0 / / / / ByteSet1 [97]parts 2 0 0 0 0 0 0 / / / / ByteSet1 [97]
parts cat:2 byteset:61,62 goal → parts 2 0 0 0 0 0 0 / / / / ByteSet2 [97, 98]parts 2 0 0 0 0 0 0 / / / / ByteSet2 [97, 98]
parts cat:2 byteset:61,62,63 goal → parts 2 0 0 0 0 0 0 / / / / ByteSet3 [97, 98, 99]parts 2 0 0 0 0 0 0 / / / / ByteSet3 [97, 98, 99]
parts cat:2 byteset:61,62,63,64 goal → parts 2 0 0 0 0 0 0 / / / / ByteBracket 97 98 99 100parts 2 0 0 0 0 0 0 / / / / ByteBracket 97 98 99 100
names cat:2 cat:2 group:0 x named:1,62 y goal → [\"\", \"b\"]
names cat:2 a goal → []
unit_parts cat:4 a group:0 not loop:1,2,0 named:1,62 b goal → parts 11 1 1 2 2 0 0 / b/ / /parts 11 1 1 2 2 0 0 / b/ / /
plan goal → anywhere
plan cat:2 bytes:61,62,63 goal → few 1 [97, 0, 0]
plan cat:2 alt bytes:61,62,63 bytes:78,79,7A goal → few 2 [97, 120, 0]
plan cat:3 loop:0,0,0 loop:0,0,0 a b goal → few 2 [97, 98, 0]
plan cat:3 ahead:0,0 a any goal → few 1 [97, 0, 0]
plan cat:3 loop1:0 a b goal → few 2 [97, 98, 0], apart 98 99
plan cat:3 loop1:0 any b goal → among 0 128 194 245, run 98 99
plan cat:2 loop1:0 a goal → anywhere, run anything
plan cat:2 set:20AC,E9 goal → among 195 196 226 227
plan cat:2 loop1:0 class:61,7A,430,44F,451,451 goal → anywhere, run anything, knows 1072 to 1103
plan cat:2 loop1:0 not:430,44F goal → anywhere, run anything
plan cat:2 byteset goal → few 0 [0, 0, 0]
plan cat:3 a b goal → prefix 97 98 / 98 99 row 2 of [97, 98, 0, 0, 0, 0, 0, 0, 0, 0, 0, 0, 0, 0, 0] at 0 bits 98 of 255 at 1 bits 97 of 255 at 0 bits 97 of 255 at 0 bits 97 of 255 at 0
plan cat:3 a k goal → prefix 97 98 / 107 108 row 2 of [97, 107, 0, 0, 0, 0, 0, 0, 0, 0, 0, 0, 0, 0, 0] at 0 rare 107 at 1 bits 107 of 255 at 1 bits 97 of 255 at 0 bits 97 of 255 at 0 bits 97 of 255 at 0
plan cat:3 j set:61,65 goal → prefix 106 107 / 97 98 101 102 first 1 of [106, 0, 0] bits 106 of 255 at 0 bits 97 of 251 at 1 bits 106 of 255 at 0 bits 106 of 255 at 0
unit_plan cat:3 j set:61,65 goal → prefix 106 107 / 97 98 101 102 first 1 of [106, 0, 0] bits 106 of 255 at 0 bits 97 of 251 at 1 bits 106 of 255 at 0 bits 106 of 255 at 0
plan cat:3 J a goal → prefix 74 75 / 97 98 first 1 of [74, 0, 0] row 2 of [74, 97, 0, 0, 0, 0, 0, 0, 0, 0, 0, 0, 0, 0, 0] at 0
plan cat:2 alt cat:2 a b cat:2 b b goal → prefix 97 99 / 98 99 bits 98 of 255 at 1 bits 96 of 252 at 0 bits 96 of 252 at 0 bits 96 of 252 at 0
plan cat:2 alt cat:2 a b b goal → few 2 [97, 98, 0]
plan cat:3 loop1:2,2 a b goal → prefix 97 98 / 97 98 / 98 99 row 3 of [97, 97, 98, 0, 0, 0, 0, 0, 0, 0, 0, 0, 0, 0, 0] at 0 bits 98 of 255 at 2 bits 97 of 255 at 0 bits 97 of 255 at 1 bits 97 of 255 at 0, apart 98 99
plan cat:3 loop1:2,3 a b goal → prefix 97 98 / 97 98 row 2 of [97, 97, 0, 0, 0, 0, 0, 0, 0, 0, 0, 0, 0, 0, 0] at 0 bits 97 of 255 at 0 bits 97 of 255 at 1 bits 97 of 255 at 0 bits 97 of 255 at 0, apart 98 99
plan cat:3 loop1:2,3 set:61,65 b goal → prefix 97 98 101 102 / 97 98 101 102 bits 97 of 251 at 0 bits 97 of 251 at 1 bits 97 of 251 at 0 bits 97 of 251 at 0, apart 98 99
plan cat:4 loop:0,0,1 a b any goal → few 1 [97, 0, 0]
unit_plan cat:3 a b goal → prefix 97 98 / 98 99 bits 98 of 255 at 1 bits 97 of 255 at 0 bits 97 of 255 at 0 bits 97 of 255 at 0
unit_plan cat:3 loop1:0 a b goal → few 2 [97, 98, 0], apart 98 99
unit_plan cat:2 set:20AC,E9 goal → among 128 129 144 145
plan cat:3 start a goal → few 1 [97, 0, 0]
plan cat:3 line a goal → behind 3 [10, 13, 226] edge
unit_plan cat:3 line any goal → behind 3 [10, 13, 144] edge
plan cat:3 behind:0,0 a b goal → behind 1 [97, 0, 0]
plan cat:3 behind:0,0 set:20AC,E9 b goal → behind 2 [195, 226, 0]
unit_plan cat:3 behind:0,0 set:20AC,E9 b goal → behind 2 [128, 144, 0]
plan cat:6 set:30,31,32,33 set:30,31,32,33 set:30,31,32,33 set:30,31,32,33 set:30,31,32,33 goal → prefix 48 52 / 48 52 / 48 52 / 48 52 / 48 52 bits 48 of 252 at 0 bits 48 of 252 at 1 bits 48 of 252 at 2 bits 48 of 252 at 3
unit_plan cat:5 a b c d goal → prefix 97 98 / 98 99 / 99 100 / 100 101 bits 98 of 255 at 1 bits 99 of 255 at 2 bits 97 of 255 at 0 bits 100 of 255 at 3
unit_plan cat:3 a k goal → prefix 97 98 / 107 108 bits 107 of 255 at 1 bits 97 of 255 at 0 bits 97 of 255 at 0 bits 97 of 255 at 0
plan cat:5 J K L M goal → prefix 74 75 / 75 76 / 76 77 / 77 78 row 4 of [74, 75, 76, 77, 0, 0, 0, 0, 0, 0, 0, 0, 0, 0, 0] at 0 rare 74 at 0 bits 74 of 255 at 0 bits 75 of 255 at 1 bits 76 of 255 at 2 bits 77 of 255 at 3
plan /a*?b/ → few 2 [97, 98, 0], lazy 98 99
plan /[ab]+?c/ → few 2 [97, 98, 0], lazy 99 100
plan /.*?x/ → among 0 10 11 13 14 128 194 245, lazy 120 121, leap 1 [120, 0, 0] over 0 10 11 13 14
plan /\"(.*?)\"/ → few 1 [34, 0, 0], lazy 34 35
plan /\\w+@/ → among 48 58 65 91 95 96 97 123, apart 64 65, leap 1 [64, 0, 0] over 48 58 65 91 95 96 97 123
plan /\\w+(?=,)/ → among 48 58 65 91 95 96 97 123, apart 44 45, leap 1 [44, 0, 0] over 48 58 65 91 95 96 97 123
plan /\\w+(?!,)/ → among 48 58 65 91 95 96 97 123, run anything
plan /(?:\\d+\\.){3}\\d+/ → among 48 58, apart 46 47, run anything, leap 1 [46, 0, 0] over 48 58
plan /(a*)b\\1@/ → few 2 [97, 98, 0], apart 98 99
plan /[^]+@|z{2}/ → among 0 128 194 245, run 64 65, run anything, leap 2 [122, 64, 0] over 0
unit_plan /\\w+@/ → among 48 58 65 91 95 96 97 123, apart 64 65, leap 1 [64, 0, 0] over 48 58 65 91 95 96 97 123
unit_plan /\\w+(?!,)/ → among 48 58 65 91 95 96 97 123, run anything
unit_plan /[^]+@|z{2}/ → among 0, run 64 65, run anything, leap 2 [122, 64, 0] over 0
unit_plan /a*?b/ → few 2 [97, 98, 0], lazy 98 99
leading_loop /a*b/ → 1 behind 0
leading_loop /(a+?)b/ → 1 behind 1
leading_loop /((\\w+)@)\\w/ → 1 behind 2
leading_loop /(.*)b/ → 4 behind 1
leading_loop /([а-я]+)b/ → 1 behind 1
leading_loop /(a+)b\\1/ → none
leading_loop /((a+)b)c\\2/ → none
leading_loop /(a+)(?:b|(c)\\2)/ → none
leading_loop /a+(b)\\1/ → 1 behind 0
leading_loop /(a{2,9})b/ → none
leading_loop /(b)a*/ → none
leading_loop /(a+){2}/ → none
arms cat:2 alt a alt b c goal → at 0 0: 97:1 98:4 99:6 100:
arms cat:2 alt a cat:2 a b goal → at 0 0: 97:1,3 98:
arms cat:2 alt alt a b c goal → at 0 0: 97:1 99:6 100:; at 1 0: 97:2 98:4 99:
arms cat:3 alt a b alt c a goal → at 0 0: 97:1 98:3 99:; at 4 0: 97:7 98: 99:5 100:
arms cat:3 alt a empty b goal → at 0 0: 97:1 98:3 99:
arms cat:2 alt a empty goal → at 0 0:3 97:1,3 98:3
arms cat:2 alt any any goal → none
unit_arms cat:2 alt a alt b c goal → at 0 0: 97:1 98:4 99:6 100:
lookaheads cat:2 ahead:0,0 a goal → at 0 0:no 97:yes 98:no
lookaheads /(?!a)/ → at 0 0:yes 97:no 98:yes
lookaheads cat:2 ahead:0,0 alt a b goal → at 0 0:no 97:yes 99:no
lookaheads cat:2 ahead:0,0 alt a alt b c goal → at 0 0:no 97:yes 100:no
lookaheads cat:2 ahead:0,0 alt cat:2 a b a goal → at 0 0:no 97:ask 98:no
lookaheads cat:2 ahead:0,0 alt a cat:2 a b goal → at 0 0:no 97:yes 98:no
lookaheads cat:2 ahead:0,0 alt cat:2 b a a goal → at 0 0:no 97:yes 98:ask 99:no
lookaheads /(?=(a))/ → at 0 0:no 97:ask 98:no
lookaheads /(?=ab)/ → at 0 0:no 97:ask 98:no
lookaheads /(?=a|$)/ → at 0 0:no 97:yes 98:no end:ask
must_iterate /(?:a|b)+?c/ → at 5 97 99
must_iterate /(?:a|b)*a/ → at 5 98 99
must_iterate /(?:a|b)*/ → none
must_iterate /(?:ab|c)*d/ → at 6 99 100
must_iterate /(?:a|[^\\x00-\\x7F]|b)*c/ → at 8 97 99
must_iterate /x(?:[^x\\\\]|\\\\.)*x/ → at 7 0 92 93 120 121 128
unit_must_iterate /x(?:[^x\\\\]|\\\\.)*x/ → at 7 0 92 93 120 121 236 238
must_iterate /(?:(a)|b)*c/ → none
lookaheads /(?=(?!a)b)/ → at 0 0:no 98:ask 99:no; at 1 0:yes 97:no 98:yes
lookaheads /(?=[^])/ → at 0 0:yes 128:no 194:yes 245:no
lookaheads /(?=[а-п])/ → at 0 0:no 208:ask 209:no
lookaheads /(?=[\\u0400-\\u043f])/ → at 0 0:no 208:yes 209:no
lookaheads /(?<=a)/ → none
lookaheads /(?=)/ → at 0 0:yes
lookaheads /(?=a*)/ → at 0 0:yes
lookaheads /(?!a*b?)/ → at 0 0:no
lookaheads /(?=ab*c*?)/ → at 0 0:no 97:yes 98:no
lookaheads /(?=a+)/ → at 0 0:no 97:ask 98:no
lookaheads /(?=a*b)/ → at 0 0:no 97:ask 99:no
lookaheads /(?=(a*))/ → none
unit_lookaheads /(?=é)/ → at 0 0:no 128:ask 129:no
unit_lookaheads /(?![^])/ → at 0 0:no 236:ask 238:no end:yes
classes /a*/ → single 97:1 98:0
classes /.*/ → wide 0:1 10:0 11:1 13:0 14:1 128:0 194:2 224:3 226:5 227:3 240:4 245:0 stops [10, 13, 226]
classes /[^\"]*/ → wide 0:1 34:0 35:1 128:0 194:2 224:3 240:4 245:0 stops [34]
classes /[^]*/ → wide 0:1 128:0 194:2 224:3 240:4 245:0 stops []
classes /[^a-d]/ → wide 0:1 97:0 101:1 128:0 194:2 224:3 240:4 245:0
classes /é*/ → wide 195:5 196:0
classes /[а-я]*[^é]/ → wide 208:5 210:0; wide 0:1 128:0 194:2 195:5 196:2 224:3 240:4 245:0 stops [195]
classes /[\\u0080-\\u07ff]/ → wide 194:2 224:0
classes /\\d+-\\d\\w/ → single 48:1 58:0; single 48:1 58:0 65:1 91:0 95:1 96:0 97:1 123:0
unit_classes /a*/ → single 97:1 98:0
unit_classes /.*/ → wide 0:1 10:0 11:1 13:0 14:1 144:5 145:1 236:5 238:1 stops [10, 13, 144]
unit_classes /[\\u0400-\\u05ff]é*/ → single 130:1 131:0; wide 128:5 129:0
unit_classes /[^]*/ → wide 0:1 236:5 238:1 stops []
units cat:2 loop:0,0,0 a goal → EnterLoop 0 0 18446744073709551615 true 3, Char 97, LoopAgain 0, Goal
optimized cat:2 loop:0,0,0 a goal → Loop1CharBody 0 18446744073709551615 true, Char 97, Goal
units cat:2 loop1:0 a goal → Loop1CharBody 0 18446744073709551615 true, Char 97, Goal
unit_plan cat:3 loop:0,0,0 a b goal → few 2 [97, 98, 0], apart 98 99
memo_analysis /abc/ → for 0
memo_analysis /a*/ → 1x1 for 4
memo_analysis /(?:ab)*c/ → 1x1 4x1 for 12
memo_analysis /(?:a*)*b/ → 2x2 3x2 4x1 for 26
memo_analysis /(?:a*){2,}b/ → 2x6 3x6 4x1 for 70
memo_analysis /(?:ab){2,4}/ → 1x4 for 32
memo_analysis /(?:ab|cd){0,100}/ → none
memo_analysis /(a)\\1/ → none
memo_analysis /(?=(a))b/ → for 0
memo_analysis /(?!(a))b/ → for 0
memo_analysis /(?:(?=a)b)*d/ → 4x1 6x1 for 14
memo_analysis /(x+x+)+y/ → 1x1 4x1 6x1 7x1 9x1 for 28
memo_analysis /^(\\w+\\s?)*$/ → 2x1 5x1 6x1 8x1 10x1 for 31
memo_analysis /(?:a|ab)(?:c|bcd)(?:d*)/ → 5x1 12x1 for 17
memo_analysis /(?<=(?:ab)*)c/ → 2x1 for 8
memo_analysis /a{2,5}b/ → 2x1 for 4
memo_analysis /(?:.*?,){3}x/ → 2x3 3x3 5x1 for 49
memo_analysis /((a*)*)*b/ → 1x2 5x4 8x4 9x4 11x2 13x1 for 104
codes /(?:ab)*c/ → one each
codes /(?:a*){2,}b/ → 2: 0 1 2 3 4 5 4! 5 4! 5!; 3: 0 1 2 3 4 5 4! 5 4! 5!
codes /(?:ab){2,4}/ → 1: 0 0 1 1 2 2 3 3 3! 3!
codes /((a*)*)*b/ → 1: 0 1 0! 1 0! 1! 0! 1! 0! 1!; 5: 0 3 0! 3 0! 3! 0! 3! 0! 3!; 8: 0 3 0! 3 0! 3! 0! 3! 0! 3!; 9: 0 3 0! 3 0! 3! 0! 3! 0! 3!; 11: 0 1 0! 1 0! 1! 0! 1! 0! 1!
memo /abc/ → 0 fail, 0 find an end, in all places
memo /a*/ → 3 fail, 3 find an end, refused
memo /(?:ab)*c/ → 6 fail, 6 find an end, too many
memo /(?:a*){2,}b/ → 39 fail, 39 find an end, too many
memo /((a*)*)*b/ → 51 fail, 51 find an end, too many
memo /(a)\\1/ → none
";
