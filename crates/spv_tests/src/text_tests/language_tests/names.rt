//! The names of a text, and the laws.

use crate::text_tests::language_tests::texts::no_tree;
use spv_grammar::nesting::{law_depth, law_enough, law_level, law_shallow};
use spv_lexer::LexFault;
use spv_logic::names::{Names, Symbol};
use spv_parser::language::{LanguageFault, law_one_tree, program};
use std::test::Fail;

#[test]
fn names_go_behind_those_that_were_there(rt: HostRuntime) -> Result<(), Fail> {
    let alloc = rt.alloc();
    let mut names = Names::new(alloc);
    names.enter(b"INTEGER")?;
    let text = b"PROGRAM a; VAR x: integer; BEGIN X := b END.";
    let tree = program(alloc, text, &mut names)?;
    assert_eq!(rt; tree.name.symbol, Symbol(1));
    assert_eq!(rt; names.len(), 4);
    assert_eq!(rt; names.find(b"B"), Some(Symbol(3)));
    Ok(())
}

#[test]
fn names_after_a_fault(rt: HostRuntime) -> Result<(), Fail> {
    let alloc = rt.alloc();
    let mut names = Names::new(alloc);
    let fault = program(alloc, b"PROGRAM a; BEGIN x END", &mut names).err();
    assert!(rt; fault == no_tree(1));
    assert_eq!(rt; names.len(), 2);
    Ok(())
}

// Names in front of a bad byte are there, and those behind it are not.
#[test]
fn names_up_to_a_bad_byte(rt: HostRuntime) -> Result<(), Fail> {
    let alloc = rt.alloc();
    let mut names = Names::new(alloc);
    let fault = program(alloc, b"PROGRAM c; ? d", &mut names).err();
    assert!(rt; fault == Some(LanguageFault::Tokens(LexFault::BadByte(1))));
    assert_eq!(rt; names.find(b"C"), Some(Symbol(0)));
    assert_eq!(rt; names.find(b"D"), None);
    Ok(())
}

#[test]
fn laws() {
    law_one_tree();
    law_level();
    law_depth();
    law_shallow();
    law_enough();
}
