//! What the lexer makes of a text, and the parser reads.

mod token;

pub use token::{Numeral, Sign, Token, TokenKind, Word};
