//! The signs of the language.
ghost use Rattle.std.specs.Prelude.{◌≡◌, ◌∷◌, [], take};
ghost use Rattle.std.specs.Map.{lookup};
ghost use Rattle.std.specs.Str.{bytes_eq};
ghost use Rattle.spv_lexer.specs.Spelling.{long_signs};

use spv_tree::tokens::Sign;

/// The sign of these two bytes, if there is one.
fn sign_of_two(first: u8, second: u8) -> Option<Sign>
    ensures { result ≡ lookup (bytes_eq (first ∷ second ∷ [])) long_signs }
{
    match (first, second) {
        (b'<', b'>') => Some(Sign::NotEqual),
        (b'<', b'=') => Some(Sign::AtMost),
        (b'>', b'=') => Some(Sign::AtLeast),
        (b':', b'=') => Some(Sign::Becomes),
        (b'.', b'.') => Some(Sign::Range),
        (b'-', b'>') => Some(Sign::Arrow),
        _ => None,
    }
}

/// The sign of the first two bytes, if there is one.
pub(crate) fn long_sign(text: &[u8]) -> Option<Sign>
    ensures { result ≡ lookup (bytes_eq (take 2 text.now)) long_signs }
{
    if text.len() < 2 {
        return None;
    }
    sign_of_two(text[0], text[1])
}
