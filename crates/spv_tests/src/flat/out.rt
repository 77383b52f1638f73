// Adding tokens one by one.

ghost use Rattle.std.specs.Prelude.{◌≡◌, ◌∷◌, OnOk};
ghost use Rattle.spv_tree.specs.declared.tokens.token.TokenKind.TheVariants as kind;
ghost use Rattle.spv_tree.specs.syntax.FormulaSpelling.{adding_kind, comparison_kind, multiplying_kind, truth_kind};
ghost use Rattle.spv_tests.specs.flat.Flat.{Adds};

use spv_tree::syntax::{Adding, Comparison, Multiplying};
use spv_tree::tokens::{Sign, TokenKind, Word};
use std::alloc::AllocError;

// Adds a token.
pub fn token(kind: TokenKind, out: &mut Vec<TokenKind>) -> Result<(), AllocError>
    ensures { OnOk result (Adds (λ rest. kind ∷ rest) out.old.items out.new.items) }
{
    out.push(kind)?;
    Ok(())
}

// Adds a word.
pub fn word(word: Word, out: &mut Vec<TokenKind>) -> Result<(), AllocError>
    ensures { OnOk result (Adds (λ rest. kind.Word word ∷ rest) out.old.items out.new.items) }
{
    token(TokenKind::Word(word), out)
}

// Adds a sign.
pub fn sign(sign: Sign, out: &mut Vec<TokenKind>) -> Result<(), AllocError>
    ensures { OnOk result (Adds (λ rest. kind.Sign sign ∷ rest) out.old.items out.new.items) }
{
    token(TokenKind::Sign(sign), out)
}

// The token of the operator of a relation.
pub fn comparison(operator: Comparison) -> TokenKind
    ensures { result ≡ comparison_kind operator }
{
    match operator {
        Comparison::Equal => TokenKind::Sign(Sign::Equal),
        Comparison::NotEqual => TokenKind::Sign(Sign::NotEqual),
        Comparison::Less => TokenKind::Sign(Sign::Less),
        Comparison::AtMost => TokenKind::Sign(Sign::AtMost),
        Comparison::Greater => TokenKind::Sign(Sign::Greater),
        Comparison::AtLeast => TokenKind::Sign(Sign::AtLeast),
    }
}

// The token of an operator between terms.
pub fn adding(operator: Adding) -> TokenKind
    ensures { result ≡ adding_kind operator }
{
    match operator {
        Adding::Plus => TokenKind::Sign(Sign::Plus),
        Adding::Minus => TokenKind::Sign(Sign::Minus),
        Adding::Or => TokenKind::Word(Word::Or),
    }
}

// The token of an operator between factors.
pub fn multiplying(operator: Multiplying) -> TokenKind
    ensures { result ≡ multiplying_kind operator }
{
    match operator {
        Multiplying::Times => TokenKind::Sign(Sign::Star),
        Multiplying::Div => TokenKind::Word(Word::Div),
        Multiplying::Mod => TokenKind::Word(Word::Mod),
        Multiplying::And => TokenKind::Word(Word::And),
    }
}

// The token of a truth value.
pub fn truth(value: bool) -> TokenKind
    ensures { result ≡ truth_kind value }
{
    if value {
        TokenKind::Word(Word::True)
    } else {
        TokenKind::Word(Word::False)
    }
}
