//! Formula texts, from their bytes on. No function owns both a tree and a typed program: each proves how what it owns is dropped.

use spv_logic::names::{Names, Symbol};
use spv_parser::language::formula;
use spv_program::typed::StatementForm;
use spv_tree::syntax::FormulaText;
use spv_types::{Typed, typed_formula};
use spv_typing::TypeFault;
use std::alloc::Global;
use std::test::Fail;

// The line of a program's one ASSERT, where that is all of its main block.
fn asserted(typed: &Typed) -> Option<u32> {
    match &typed.program().main.body.form {
        StatementForm::Assert(claim) => Some(claim.line),
        _ => None,
    }
}

// The line of the ASSERT of a tree's program, or its fault.
fn walked(alloc: Global, tree: &FormulaText, names: &Names) -> Result<Option<u32>, TypeFault> {
    let typed = typed_formula(alloc, tree, names)?;
    Ok(asserted(&typed))
}

// The same of a text; nothing where it is no formula text.
fn walked_text(alloc: Global, text: &[u8]) -> Option<Result<Option<u32>, TypeFault>> {
    let mut names = Names::new(alloc);
    let tree = formula(alloc, text, &mut names).ok()?;
    Some(walked(alloc, &tree, &names))
}

#[test]
fn a_formula_is_typed(rt: HostRuntime) -> Result<(), Fail> {
    let text =
        b"PROGRAM l;\nDECLARE U: LIST; V: LIST;\nASSERT NOT ATOM(CONS(U, V)) AND (CAR(CONS(U, V)) = U).";
    let line = walked_text(rt.alloc(), text);
    assert!(rt; matches!(line, Some(Ok(Some(3)))));
    Ok(())
}

#[test]
fn a_name_is_not_declared(rt: HostRuntime) -> Result<(), Fail> {
    let text = b"PROGRAM l;\nVAR x: INTEGER;\nASSERT (x = 1)\nOR (y = 1).";
    let line = walked_text(rt.alloc(), text);
    assert!(rt; matches!(line, Some(Err(TypeFault::Undeclared(4, Symbol(3))))));
    Ok(())
}

#[test]
fn a_number_is_claimed(rt: HostRuntime) -> Result<(), Fail> {
    let line = walked_text(rt.alloc(), b"PROGRAM l; VAR x: INTEGER;\nASSERT x.");
    assert!(rt; matches!(line, Some(Err(TypeFault::WrongType(2)))));
    Ok(())
}
