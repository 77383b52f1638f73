//! Texts that are no rule files and no formula texts, and texts that are deep or long.

use crate::text_tests::language_tests::texts::{formula_fault, no_tree, rules_fault};
use spv_lexer::LexFault;
use spv_logic::names::Names;
use spv_parser::SyntaxFault;
use spv_parser::language::{LanguageFault, program};
use spv_tree::tokens::Word;
use std::alloc::Global;
use std::test::Fail;

#[test]
fn no_rule_files(rt: HostRuntime) -> Result<(), Fail> {
    for (text, line) in [
        ("REPLACE x\nBY y\n", 2),
        ("INFER x\n", 1),
        ("INFER x\nINFER y;", 2),
        ("REPLACE x\n;", 2),
        ("REPLACE x\ny;", 2),
        ("REPLACE x BY\n;", 2),
        ("REPLACE\nBY y;", 2),
        ("REPLACE x BY y\nFROM z;", 2),
        ("REPLACE x BY y WHERE z\nWHERE w;", 2),
        ("INFER x\nWHERE y;", 2),
        ("INFER x FROM\n;", 2),
        ("INFER x\nBY y;", 2),
        ("VAR\nREPLACE x BY y;", 2),
        ("INFER x;\nVAR y: t;", 2),
        ("VAR x:\n^t;", 2),
        ("VAR x: t\nINFER x;", 2),
        ("INFER x;\n.", 2),
        ("x = y;", 1),
        ("PROGRAM a; BEGIN END.", 1),
    ] {
        let found = rules_fault(rt.alloc(), text);
        assert!(rt; found == no_tree(line), "at {text}");
    }
    Ok(())
}

#[test]
fn no_formula_texts(rt: HostRuntime) -> Result<(), Fail> {
    for (text, line) in [
        ("", 1),
        ("PROGRAM a;\nASSERT x\n", 2),
        ("PROGRAM a;\nASSERT x\n.f\n", 3),
        ("PROGRAM a; ASSERT x.\ny", 2),
        ("PROGRAM a; ASSERT x.\n.", 2),
        ("PROGRAM a; ASSERT 1\n.\nx", 3),
        ("PROGRAM a; ASSERT 1\n.\nx.", 3),
        ("PROGRAM a; ASSERT 1\n.\n.", 3),
        ("PROGRAM a; ASSERT (x)\n.\n.\n", 3),
        ("PROGRAM a; ASSERT (x\n.", 2),
        ("PROGRAM a; ASSERT x +\n.", 2),
        ("PROGRAM a; ASSERT x\n; .", 2),
        ("PROGRAM a; ASSERT\n.", 2),
        ("PROGRAM a\n(b); ASSERT x.", 2),
        ("PROGRAM a;\nBEGIN END.", 2),
        ("PROGRAM a;\nPROCEDURE p; BEGIN END; ASSERT x.", 2),
        ("REPLACE x BY y;", 1),
    ] {
        let found = formula_fault(rt.alloc(), text);
        assert!(rt; found == no_tree(line), "at {text}");
    }
    Ok(())
}

#[test]
fn other_faults_of_rule_files(rt: HostRuntime) -> Result<(), Fail> {
    let found = rules_fault(rt.alloc(), "INFER x\n?");
    assert!(rt; found == Some(LanguageFault::Tokens(LexFault::BadByte(2))));
    let found = rules_fault(rt.alloc(), "INFER\nSET x");
    assert!(rt; found == Some(LanguageFault::Tree(SyntaxFault::Profile(2, Word::Set))));
    Ok(())
}

// Some text with a name in as many pairs of brackets, and the bytes behind it.
fn bracketed(alloc: Global, before: &str, pairs: usize, behind: &str) -> Result<String, Fail> {
    let mut text = String::from_str(alloc, before)?;
    for _ in 0..pairs {
        text.push('(')?;
    }
    text.push('x')?;
    for _ in 0..pairs {
        text.push(')')?;
    }
    text.push_str(behind)?;
    Ok(text)
}

// Outside of a block the level is 1, so the bracket number 200 goes above 200.
#[test]
fn deep_formulas(rt: HostRuntime) -> Result<(), Fail> {
    let alloc = rt.alloc();
    let text = bracketed(alloc, "PROGRAM a;\nASSERT ", 199, ".")?;
    assert!(rt; formula_fault(alloc, &text).is_none());
    let text = bracketed(alloc, "PROGRAM a;\nASSERT ", 200, ".")?;
    let found = formula_fault(alloc, &text);
    assert!(rt; found == Some(LanguageFault::Tree(SyntaxFault::TooDeep(2))));
    Ok(())
}

#[test]
fn deep_rules(rt: HostRuntime) -> Result<(), Fail> {
    let alloc = rt.alloc();
    let text = bracketed(alloc, "INFER ", 199, ";")?;
    assert!(rt; rules_fault(alloc, &text).is_none());
    let text = bracketed(alloc, "INFER ", 200, ";")?;
    let found = rules_fault(alloc, &text);
    assert!(rt; found == Some(LanguageFault::Tree(SyntaxFault::TooDeep(1))));
    Ok(())
}

// A program of this length, with blanks behind it.
fn long_fault(alloc: Global, len: usize) -> Result<Option<LanguageFault>, Fail> {
    let mut text = b"PROGRAM a; BEGIN END.".to_vec(alloc)?;
    text.resize(len, b' ')?;
    let mut names = Names::new(alloc);
    Ok(program(alloc, &text, &mut names).err())
}

#[test]
fn long_texts(rt: HostRuntime) -> Result<(), Fail> {
    assert!(rt; long_fault(rt.alloc(), 4_194_304)?.is_none());
    let found = long_fault(rt.alloc(), 4_194_305)?;
    assert!(rt; found == Some(LanguageFault::Tokens(LexFault::TextTooLong)));
    Ok(())
}
