//! The words of the language, by their lengths.
ghost use Rattle.std.specs.Prelude.{◌≡◌, ◌==◌, filter, length, map};
ghost use Rattle.std.specs.Map.{lookup};
ghost use Rattle.std.specs.Str.{bytes_eq};
ghost use Rattle.spv_lexer.specs.Spelling.{words};

use spv_tree::tokens::Word;

/// A word, and how it is spelled in upper case.
type Entry = (&'static [u8], Word);

static WORDS_OF_2: [Entry; 7] = [
    (b"BY", Word::By),
    (b"DO", Word::Do),
    (b"IF", Word::If),
    (b"OF", Word::Of),
    (b"OR", Word::Or),
    (b"TO", Word::To),
    (b"IN", Word::In),
];

static WORDS_OF_3: [Entry; 10] = [
    (b"AND", Word::And),
    (b"DIV", Word::Div),
    (b"END", Word::End),
    (b"FOR", Word::For),
    (b"MOD", Word::Mod),
    (b"NEW", Word::New),
    (b"NIL", Word::Nil),
    (b"NOT", Word::Not),
    (b"VAR", Word::Var),
    (b"SET", Word::Set),
];

static WORDS_OF_4: [Entry; 10] = [
    (b"CASE", Word::Case),
    (b"ELSE", Word::Else),
    (b"EXIT", Word::Exit),
    (b"FROM", Word::From),
    (b"THEN", Word::Then),
    (b"TRUE", Word::True),
    (b"TYPE", Word::Type),
    (b"FILE", Word::File),
    (b"WITH", Word::With),
    (b"GOTO", Word::Goto),
];

static WORDS_OF_5: [Entry; 10] = [
    (b"ARRAY", Word::Array),
    (b"BEGIN", Word::Begin),
    (b"CONST", Word::Const),
    (b"ENTRY", Word::Entry),
    (b"FALSE", Word::False),
    (b"INFER", Word::Infer),
    (b"UNTIL", Word::Until),
    (b"WHERE", Word::Where),
    (b"WHILE", Word::While),
    (b"LABEL", Word::Label),
];

static WORDS_OF_6: [Entry; 6] = [
    (b"ASSERT", Word::Assert),
    (b"DOWNTO", Word::Downto),
    (b"GLOBAL", Word::Global),
    (b"RECORD", Word::Record),
    (b"REPEAT", Word::Repeat),
    (b"PACKED", Word::Packed),
];

static WORDS_OF_7: [Entry; 5] = [
    (b"DECLARE", Word::Declare),
    (b"FORWARD", Word::Forward),
    (b"INITIAL", Word::Initial),
    (b"PROGRAM", Word::Program),
    (b"REPLACE", Word::Replace),
];

static WORDS_OF_8: [Entry; 1] = [(b"FUNCTION", Word::Function)];

static WORDS_OF_9: [Entry; 2] = [
    (b"INVARIANT", Word::Invariant),
    (b"PROCEDURE", Word::Procedure),
];

/// The words of this length.
fn words_of_length(len: usize) -> &'static [Entry]
    ensures { map (λ e. (e.0.now, e.1)) result.now ≡ filter (λ e. length e.0 == len) words }
{
    match len {
        2 => &WORDS_OF_2,
        3 => &WORDS_OF_3,
        4 => &WORDS_OF_4,
        5 => &WORDS_OF_5,
        6 => &WORDS_OF_6,
        7 => &WORDS_OF_7,
        8 => &WORDS_OF_8,
        9 => &WORDS_OF_9,
        _ => &[],
    }
}

/// The first entry with this spelling.
fn find(entries: &[Entry], text: &[u8]) -> Option<Word>
    ensures { result ≡ lookup (bytes_eq text.now) (map (λ e. (e.0.now, e.1)) entries.now) }
{
    for (spelling, word) in entries {
        if text == *spelling {
            return Some(*word);
        }
    }
    None
}

/// The word that is spelled so, if there is one.
pub(crate) fn word_of(text: &[u8]) -> Option<Word>
    ensures { result ≡ lookup (bytes_eq text.now) words }
{
    find(words_of_length(text.len()), text)
}
