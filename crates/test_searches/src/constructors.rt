//! Patterns beyond ASCII, by each constructor that reads a text.

// Rows like those of replacements, with the constructor in place of flags; no letters stand for
// `with_flags`. Each match is put in brackets.
pub const CONSTRUCTORS: &str = "\
é~new~Ã©, é~all~<$0>~Ã©, <é>
[а-я]+~new~Привет, мир~all~<$0>~П<ривет>, <мир>
😀{2}~new~😀😀😀~all~<$0>~<😀😀>😀
é~from_str~Ã©, é~all~<$0>~Ã©, <é>
[а-я]+~from_str~Привет, мир~all~<$0>~П<ривет>, <мир>
😀{2}~from_str~😀😀😀~all~<$0>~<😀😀>😀
é~~Ã©, é~all~<$0>~Ã©, <é>
[а-я]+~~Привет, мир~all~<$0>~П<ривет>, <мир>
😀{2}~~😀😀😀~all~<$0>~<😀😀>😀
";
