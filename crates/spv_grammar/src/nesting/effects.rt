// What tokens do to the counters of which the level of a text is made.

ghost use Rattle.std.specs.Prelude.{◌≡◌};
ghost use Rattle.spv_grammar.specs.nesting.Effects.{word_effect, sign_effect, effect_of};

use spv_tree::tokens::{Sign, TokenKind, Word};

/// What a token does to the counters.
#[derive(Clone, Copy, PartialEq, Eq, Debug)]
pub enum Effect {
    /// It adds a counter that is 0.
    Opens,
    /// It takes the last counter away, if it is not the only one.
    Closes,
    /// It sets the last counter to 0.
    Restarts,
    /// It adds 1 to the last counter.
    Counts,
    /// It does nothing.
    Passes,
}

// What a word does.
fn of_word(word: Word) -> Effect
    ensures { result ≡ word_effect word }
{
    match word {
        Word::Begin => Effect::Opens,
        Word::Case => Effect::Opens,
        Word::Record => Effect::Opens,
        Word::Repeat => Effect::Opens,
        Word::End => Effect::Closes,
        Word::Until => Effect::Closes,
        Word::If => Effect::Counts,
        Word::While => Effect::Counts,
        Word::For => Effect::Counts,
        Word::Array => Effect::Counts,
        Word::Not => Effect::Counts,
        Word::And => Effect::Counts,
        Word::Or => Effect::Counts,
        Word::Div => Effect::Counts,
        Word::Mod => Effect::Counts,
        _ => Effect::Passes,
    }
}

// What a sign does.
fn of_sign(sign: Sign) -> Effect
    ensures { result ≡ sign_effect sign }
{
    match sign {
        Sign::OpenParenthesis => Effect::Opens,
        Sign::OpenBracket => Effect::Opens,
        Sign::CloseParenthesis => Effect::Closes,
        Sign::CloseBracket => Effect::Closes,
        Sign::Semicolon => Effect::Restarts,
        Sign::Comma => Effect::Restarts,
        Sign::Plus => Effect::Counts,
        Sign::Minus => Effect::Counts,
        Sign::Star => Effect::Counts,
        Sign::Arrow => Effect::Counts,
        Sign::Caret => Effect::Counts,
        _ => Effect::Passes,
    }
}

// What a token does.
pub(crate) fn of_kind(kind: TokenKind) -> Effect
    ensures { result ≡ effect_of kind }
{
    match kind {
        TokenKind::Word(word) => of_word(word),
        TokenKind::Sign(sign) => of_sign(sign),
        _ => Effect::Passes,
    }
}
