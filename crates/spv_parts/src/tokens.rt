// The tokens of a text.

use spv_lexer::{LexFault, tokens};
use spv_logic::names::Names;
use spv_tree::tokens::{Token, TokenKind};
use std::alloc::{AllocError, Global};

// Adds the kind of a token, and its line.
fn push_token(alloc: Global, token: &Token, out: &mut Vec<u8>) -> Result<(), AllocError> {
    let line = token.line;
    let shown = match token.kind {
        TokenKind::Word(word) => format!(in alloc; "{word:?}:{line} ")?,
        TokenKind::Name(name) => format!(in alloc; "name{}:{line} ", name.0)?,
        TokenKind::Number(number) => format!(in alloc; "{}:{line} ", number.value())?,
        TokenKind::Sign(sign) => format!(in alloc; "{sign:?}:{line} ")?,
    };
    out.extend_from_slice(shown.as_str().as_bytes())
}

// Adds why a text has no tokens.
fn push_fault(alloc: Global, fault: LexFault, out: &mut Vec<u8>) -> Result<(), AllocError> {
    let shown = format!(in alloc; "{fault}")?;
    out.extend_from_slice(shown.as_str().as_bytes())
}

/// Adds the kinds and lines of the tokens of a text, in which `\` stands for a line end, or its fault.
pub fn show(alloc: Global, text: &str, out: &mut Vec<u8>) -> Result<(), AllocError> {
    let mut bytes = Vec::new(alloc);
    for byte in text.as_bytes() {
        bytes.push(if *byte == b'\\' { b'\n' } else { *byte })?;
    }
    let mut names = Names::new(alloc);
    match tokens(alloc, &bytes, &mut names) {
        Ok(found) => {
            for token in &found {
                push_token(alloc, token, out)?;
            }
            Ok(())
        }
        Err(fault) => push_fault(alloc, fault, out),
    }
}
