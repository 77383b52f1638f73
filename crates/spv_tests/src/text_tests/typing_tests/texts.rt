//! Whole texts, from their bytes on.

use spv_logic::TypeId;
use spv_logic::names::{Names, Symbol};
use spv_parser::language::program;
use spv_program::Item;
use spv_types::frames::{Framed, framed};
use spv_types::{Typed, typed};
use std::alloc::Global;
use std::test::Fail;

// The typed program of a text, if it is one.
fn typed_text(alloc: Global, text: &[u8]) -> Option<Typed> {
    let mut names = Names::new(alloc);
    let tree = program(alloc, text, &mut names).ok()?;
    typed(alloc, &tree, &names).ok()
}

// Whether one routine of a framed program reads these items and writes those.
fn is_told(known: &Framed, reads: &[Item], writes: &[Item]) -> bool {
    match known.effects() {
        [one] => one.reads.as_slice() == reads && one.writes.as_slice() == writes,
        _ => false,
    }
}

// The same of a typed program.
fn is_told_of(alloc: Global, program: Typed, reads: &[Item], writes: &[Item]) -> bool {
    match framed(alloc, program) {
        Ok(known) => is_told(&known, reads, writes),
        Err(_) => false,
    }
}

#[test]
fn effects_come_in_order(rt: HostRuntime) -> Result<(), Fail> {
    let text = b"PROGRAM a; TYPE t = RECORD f: INTEGER END; VAR b: ^t; c: INTEGER;
        PROCEDURE p; GLOBAL (VAR #t; b, c); BEGIN b^.f := c END; BEGIN p END.";
    let reads = [Item::Variable(Symbol(4)), Item::Variable(Symbol(5))];
    let writes = [Item::Class(TypeId(2))];
    let told = match typed_text(rt.alloc(), text) {
        Some(program) => is_told_of(rt.alloc(), program, &reads, &writes),
        None => false,
    };
    assert!(rt; told);
    Ok(())
}
