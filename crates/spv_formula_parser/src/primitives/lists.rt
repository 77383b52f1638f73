// Lists of parts.

ghost use Rattle.std.specs.Prelude.{◌≡◌, ◌∷◌, ◌++◌, ℕ, [], Some, None, IfOk, OnOk, IsErrAnd};
ghost use Rattle.spv_tree.specs.declared.tokens.token.TokenKind.TheVariants as kind;
ghost use Rattle.spv_grammar.specs.reading.Readers.{Stop, Read, Halted, Reader, behind, all_items, several_of, starting, headed_by};
ghost use Rattle.spv_grammar.specs.reading.Readers as reader;
ghost use Rattle.spv_grammar.specs.reading.TypeReaders.{begins_name};
ghost use Rattle.spv_formula_parser.specs.primitives.Faults.{IsStop};
ghost use Rattle.spv_formula_parser.specs.primitives.Lists.{first_and};

use crate::primitives::fault::Fault;
use crate::primitives::front::{after, front, is_sign, is_word};
use spv_logic::list::List;
use spv_tree::syntax::Several;
use spv_tree::tokens::{Sign, Token, TokenKind, Word};
use std::alloc::{AllocError, Global};

/// What reads parts of one kind, of which a text has lists. What stands in a part inside one another has this many levels at most.
pub trait PartReader<T> {
    /// How a part is read.
    ghost reader: { ℕ → Reader T };

    /// The part at the front, and the tokens behind it.
    fn read(alloc: Global, levels: u32, tokens: &[Token]) -> Result<(T, &[Token]), Fault>
        ensures read { IfOk result (λ r. reader levels tokens.now ≡ Read (r.0, r.1.now)) }
        ensures absent { (s : Stop) → IsErrAnd result (IsStop s) → reader levels tokens.now ≡ Halted s };
}

// The first part of a list, in room for one alone.
fn push_first<T: Drop>(parts: &mut Vec<T>, part: T) -> Result<(), AllocError>
    ensures { OnOk result (parts.new.items ≡ parts.old.items ++ part ∷ []) }
{
    parts.reserve_exact(1)?;
    parts.push(part)?;
    Ok(())
}

/// Puts a part at the end of a list. Most lists have one part at most, so the first one takes room for one alone.
pub fn push<T: Drop>(parts: &mut Vec<T>, part: T) -> Result<(), AllocError>
    ensures { OnOk result (parts.new.items ≡ parts.old.items ++ part ∷ []) }
{
    if parts.is_empty() {
        return push_first(parts, part);
    }
    parts.push(part)?;
    Ok(())
}

// As many parts as follow, each behind a sign.
fn further<R: PartReader<T>, T: Drop>(
    alloc: Global,
    levels: u32,
    sign: Sign,
    tokens: &[Token],
) -> Result<(Vec<T>, &[Token]), Fault>
    ensures read { IfOk result (λ r. all_items [] ◌∷◌ (behind (kind.Sign sign) (R.reader levels)) tokens.now ≡ Read (r.0.items, r.1.now)) }
    ensures absent { (s : Stop) → IsErrAnd result (IsStop s) → all_items [] ◌∷◌ (behind (kind.Sign sign) (R.reader levels)) tokens.now ≡ Halted s }
{
    let mut parts = Vec::new(alloc);
    let mut rest = tokens;
    for _ in 0..tokens.len() {
        if !is_sign(sign, rest) {
            return Ok((parts, rest));
        }
        let (part, next) = R::read(alloc, levels, after(rest))?;
        push(&mut parts, part)?;
        rest = next;
    }
    Ok((parts, rest))
}

/// At least one part, and a sign between two of them.
pub fn several<R: PartReader<T>, T: Drop>(
    alloc: Global,
    levels: u32,
    sign: Sign,
    tokens: &[Token],
) -> Result<(Several<T>, &[Token]), Fault>
    ensures read { IfOk result (λ r. several_of (kind.Sign sign) (R.reader levels) tokens.now ≡ Read (r.0, r.1.now)) }
    ensures absent { (s : Stop) → IsErrAnd result (IsStop s) → several_of (kind.Sign sign) (R.reader levels) tokens.now ≡ Halted s }
{
    let (first, rest) = R::read(alloc, levels, tokens)?;
    let (more, rest) = further::<R, T>(alloc, levels, sign, rest)?;
    let more = List::from_vec(more);
    Ok((Several { first, more }, rest))
}

/// Whether the tokens begin with a name.
pub fn is_name(tokens: &[Token]) -> bool
    ensures { result ≡ begins_name (reader.front tokens.now) }
{
    matches!(front(tokens), Some(TokenKind::Name(_)))
}

// As many parts as begin with a name, behind a first one.
fn others<R: PartReader<T>, T: Drop>(
    alloc: Global,
    levels: u32,
    first: T,
    tokens: &[Token],
) -> Result<(Vec<T>, &[Token]), Fault>
    ensures read { IfOk result (λ r. first_and first (all_items [] ◌∷◌ (starting begins_name (R.reader levels))) tokens.now ≡ Read (r.0.items, r.1.now)) }
    ensures absent { (s : Stop) → IsErrAnd result (IsStop s) → first_and first (all_items [] ◌∷◌ (starting begins_name (R.reader levels))) tokens.now ≡ Halted s }
{
    let mut parts = Vec::new(alloc);
    parts.push(first)?;
    let mut rest = tokens;
    for _ in 0..tokens.len() {
        if !is_name(rest) {
            return Ok((parts, rest));
        }
        let (part, next) = R::read(alloc, levels, rest)?;
        parts.push(part)?;
        rest = next;
    }
    Ok((parts, rest))
}

/// Where a word is there, it, at least one part, and as many further ones as begin with a name.
pub fn headed<R: PartReader<T>, T: Drop>(
    alloc: Global,
    levels: u32,
    word: Word,
    tokens: &[Token],
) -> Result<(List<T>, &[Token]), Fault>
    ensures read { IfOk result (λ r. headed_by (kind.Word word) begins_name (R.reader levels) tokens.now ≡ Read (r.0, r.1.now)) }
    ensures absent { (s : Stop) → IsErrAnd result (IsStop s) → headed_by (kind.Word word) begins_name (R.reader levels) tokens.now ≡ Halted s }
{
    if !is_word(word, tokens) {
        let none = List::from_vec(Vec::new(alloc));
        return Ok((none, tokens));
    }
    let (first, rest) = R::read(alloc, levels, after(tokens))?;
    let (parts, rest) = others::<R, T>(alloc, levels, first, rest)?;
    Ok((List::from_vec(parts), rest))
}
