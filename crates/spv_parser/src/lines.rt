// Lines of tokens.

ghost use Rattle.std.specs.Prelude.{◌≡◌};
ghost use Rattle.spv_grammar.specs.first_sets.Lines as lines;

use spv_tree::tokens::Token;

// The line of the last token, or 1.
fn last_line(tokens: &[Token]) -> u32
    ensures { result ≡ lines.last_line tokens.now }
{
    match tokens {
        [] => 1,
        [.., last] => last.line,
    }
}

// The line of the first of so many last tokens; of none of them, that of the last token, or 1.
pub fn line_where(tokens: &[Token], left: usize) -> u32
    ensures { result ≡ lines.line_where tokens.now left }
{
    match tokens.get(tokens.len().saturating_sub(left)) {
        Some(token) => token.line,
        None => last_line(tokens),
    }
}
