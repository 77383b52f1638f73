// What a fault of reading, of names and types, of frames, of rules, or of a listing is told as.

ghost use Rattle.std.specs.Prelude.{◌≡◌, IfOk, Some};
ghost use Rattle.spv_verify.specs.refused.Told as spec;
ghost use Rattle.spv_verify.specs.refused.Told.{Tells};

use crate::refused::details::{
    conditions_detail, item_detail, items_detail, name_detail, number_detail, terms_detail,
    word_detail,
};
use crate::refused::fault::TextFault;
use crate::refused::refusal::Refusal;
use spv_assign::creation_trace::GenFault;
use spv_effects::frame_walk::FrameFault;
use spv_lexer::LexFault;
use spv_listing_values::fault::ListFault;
use spv_logic::list::List;
use spv_logic::names::{Names, Symbol};
use spv_parser::SyntaxFault;
use spv_parser::language::LanguageFault;
use spv_rule_files::RuleFault;
use spv_typing::TypeFault;
use std::alloc::{AllocError, Global};

// The refusal of a text without tokens.
fn token_refusal(alloc: Global, fault: LexFault) -> Result<Refusal, AllocError>
    ensures { IfOk result (λ r. spec.token_refusal fault ≡ Some r) }
{
    match fault {
        LexFault::BadByte(line) => Ok(Refusal::Byte(line, List::new(alloc))),
        LexFault::OpenComment(line) => Ok(Refusal::Comment(line, List::new(alloc))),
        LexFault::NumeralTooLarge(line) => Ok(Refusal::Numeral(line, List::new(alloc))),
        LexFault::TextTooLong => Ok(Refusal::Length(1, List::new(alloc))),
        LexFault::Memory => Err(AllocError),
    }
}

// The refusal of tokens without a tree.
fn tree_refusal(alloc: Global, fault: SyntaxFault) -> Result<Refusal, AllocError>
    ensures { IfOk result (λ r. spec.tree_refusal fault ≡ Some r) }
{
    match fault {
        SyntaxFault::Profile(line, word) => Ok(Refusal::Profile(line, word_detail(alloc, word)?)),
        SyntaxFault::TooDeep(line) => Ok(Refusal::Depth(line, List::new(alloc))),
        SyntaxFault::Syntax(line) => Ok(Refusal::Syntax(line, List::new(alloc))),
        SyntaxFault::Memory => Err(AllocError),
    }
}

// The refusal of a text without a tree.
fn text_refusal(alloc: Global, fault: LanguageFault) -> Result<Refusal, AllocError>
    ensures { IfOk result (λ r. spec.text_refusal fault ≡ Some r) }
{
    match fault {
        LanguageFault::Tokens(fault) => token_refusal(alloc, fault),
        LanguageFault::Tree(fault) => tree_refusal(alloc, fault),
    }
}

// The refusal of a fault of names and types.
fn type_refusal(alloc: Global, names: &Names, fault: TypeFault) -> Result<Refusal, AllocError>
    ensures { IfOk result (λ r. spec.type_refusal names.now fault ≡ Some r) }
{
    match fault {
        TypeFault::Undeclared(line, x) => {
            Ok(Refusal::Undeclared(line, name_detail(alloc, names, x)?))
        }
        TypeFault::DeclaredTwice(line, x) => {
            Ok(Refusal::Twice(line, name_detail(alloc, names, x)?))
        }
        TypeFault::LabelTwice(line, number) => {
            Ok(Refusal::Twice(line, number_detail(alloc, number)?))
        }
        TypeFault::WrongType(line) => Ok(Refusal::Typing(line, List::new(alloc))),
        TypeFault::Count(line) => Ok(Refusal::Count(line, List::new(alloc))),
        TypeFault::Nested(line, x) => Ok(Refusal::Nested(line, name_detail(alloc, names, x)?)),
        TypeFault::ProcParameter(line, x) => {
            Ok(Refusal::Parameter(line, name_detail(alloc, names, x)?))
        }
        TypeFault::ControlChanged(line, x) => {
            Ok(Refusal::Control(line, name_detail(alloc, names, x)?))
        }
        TypeFault::Memory => Err(AllocError),
    }
}

// The refusal of a fault of frames.
fn frame_refusal(
    alloc: Global,
    names: &Names,
    titles: &[Option<Symbol>],
    fault: FrameFault,
) -> Result<Refusal, AllocError>
    ensures { IfOk result (λ r. spec.frame_refusal names.now titles.now fault ≡ Some r) }
{
    match fault {
        FrameFault::Alias(line, a, b) => Ok(Refusal::Alias(
            line,
            items_detail(alloc, names, titles, a, b)?,
        )),
        FrameFault::GlobalMissing(line, item) => Ok(Refusal::Global(
            line,
            item_detail(alloc, names, titles, item)?,
        )),
        FrameFault::FunctionWrites(line, x) => {
            Ok(Refusal::Function(line, name_detail(alloc, names, x)?))
        }
        FrameFault::Memory => Err(AllocError),
    }
}

// The refusal of a fault in a rule file.
fn rule_refusal(alloc: Global, names: &Names, fault: RuleFault) -> Result<Refusal, AllocError>
    ensures { IfOk result (λ r. spec.rule_refusal names.now fault ≡ Some r) }
{
    match fault {
        RuleFault::Typing(fault) => type_refusal(alloc, names, fault),
        RuleFault::Unbound(line, x) => Ok(Refusal::Unbound(line, name_detail(alloc, names, x)?)),
        RuleFault::Memory => Err(AllocError),
    }
}

// The refusal of bytes that are no listing.
fn listing_refusal(alloc: Global, fault: ListFault) -> Result<Refusal, AllocError>
    ensures { IfOk result (λ r. spec.listing_refusal fault ≡ Some r) }
{
    match fault {
        ListFault::TooLong => Ok(Refusal::Length(1, List::new(alloc))),
        ListFault::Form(line) => Ok(Refusal::Listing(line, List::new(alloc))),
        ListFault::Memory => Err(AllocError),
    }
}

// The refusal of a program whose conditions meet a limit.
fn limit_refusal(alloc: Global, fault: GenFault) -> Result<Refusal, AllocError>
    ensures { IfOk result (λ r. spec.limit_refusal fault ≡ Some r) }
{
    match fault {
        GenFault::Conditions(most) => Ok(Refusal::Size(1, conditions_detail(alloc, most)?)),
        GenFault::Terms(most) => Ok(Refusal::Size(1, terms_detail(alloc, most)?)),
        GenFault::Memory => Err(AllocError),
    }
}

// A refusal that could be made, or want of memory.
fn told(refusal: Result<Refusal, AllocError>) -> TextFault
    ensures { result ≡ spec.told refusal }
{
    match refusal {
        Ok(refusal) => TextFault::Refused(refusal),
        Err(_) => TextFault::Memory,
    }
}

/// What a text without a tree is told to be refused for. Memory: there was not enough of it, then or now.
pub fn of_text(alloc: Global, fault: LanguageFault) -> TextFault
    ensures { Tells (spec.text_refusal fault) result }
{
    told(text_refusal(alloc, fault))
}

/// What a tree with a fault of names and types is told to be refused for; its names are those of the table.
pub fn of_types(alloc: Global, names: &Names, fault: TypeFault) -> TextFault
    ensures { Tells (spec.type_refusal names.now fault) result }
{
    told(type_refusal(alloc, names, fault))
}

/// What a program with a fault of frames is told to be refused for; a class is named by the first name of its type.
pub fn of_frames(
    alloc: Global,
    names: &Names,
    titles: &[Option<Symbol>],
    fault: FrameFault,
) -> TextFault
    ensures { Tells (spec.frame_refusal names.now titles.now fault) result }
{
    told(frame_refusal(alloc, names, titles, fault))
}

/// What a rule file with a fault of names, types and variables is told to be refused for; its names are those of the table.
pub fn of_rules(alloc: Global, names: &Names, fault: RuleFault) -> TextFault
    ensures { Tells (spec.rule_refusal names.now fault) result }
{
    told(rule_refusal(alloc, names, fault))
}

/// What bytes are told to be refused for that are no listing.
pub fn of_listing(alloc: Global, fault: ListFault) -> TextFault
    ensures { Tells (spec.listing_refusal fault) result }
{
    told(listing_refusal(alloc, fault))
}

/// What a program is told to be refused for whose conditions, or their terms, are more than there may be.
pub fn of_limits(alloc: Global, fault: GenFault) -> TextFault
    ensures { Tells (spec.limit_refusal fault) result }
{
    told(limit_refusal(alloc, fault))
}
