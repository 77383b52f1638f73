//! The tokens of a tree are those of its text.

use crate::flat::Flat;
use crate::text_tests::language_tests::texts::{formula_of, program_of, rules_of};
use spv_logic::names::Names;
use spv_tree::tokens::TokenKind;
use std::alloc::Global;
use std::test::Fail;

// Whether these are the kinds of the text's tokens.
fn are_tokens_of(alloc: Global, text: &str, kinds: &[TokenKind]) -> Result<bool, Fail> {
    let mut names = Names::new(alloc);
    let tokens = spv_lexer::tokens(alloc, text.as_bytes(), &mut names)?;
    Ok(
        tokens
            .iter()
            .map(|token| token.kind)
            .eq(kinds.iter().copied()),
    )
}

// Whether the tokens of this tree are those of the text.
fn stays<T: Flat>(alloc: Global, text: &str, tree: &T) -> Result<bool, Fail> {
    let mut kinds = Vec::new(alloc);
    tree.flat(&mut kinds)?;
    are_tokens_of(alloc, text, &kinds)
}

fn program_stays(alloc: Global, text: &str) -> Result<bool, Fail> {
    let tree = program_of(alloc, text)?;
    stays(alloc, text, &tree)
}

fn rules_stay(alloc: Global, text: &str) -> Result<bool, Fail> {
    let tree = rules_of(alloc, text)?;
    stays(alloc, text, &tree)
}

fn formula_stays(alloc: Global, text: &str) -> Result<bool, Fail> {
    let tree = formula_of(alloc, text)?;
    stays(alloc, text, &tree)
}

#[test]
fn programs(rt: HostRuntime) -> Result<(), Fail> {
    for text in [
        "program A(input, output); ENTRY x = 1; EXIT y = 2; begin end .",
        "PROGRAM a; CONST c = 1; d = +2; e = -c; TYPE t = INTEGER; u = 1..9; v = -c..+c; p = ^t; \
         w = ARRAY [s, 1..n] OF ARRAY [s] OF ^t; r = RECORD ; x, y: u; z: RECORD END; END; \
         VAR x: t; y, z: r; DECLARE zero: t; f(INTEGER, #T): #T; BEGIN END.",
        "PROGRAM a; PROCEDURE p(x, y: t; VAR z: u; PROCEDURE q, r; FUNCTION f, g: t); FORWARD; FUNCTION f; BEGIN END; \
         FUNCTION g(x: t): u; GLOBAL (x, y; VAR z, #T; #V); INITIAL x = y, #T = z; ENTRY x; EXIT x -> y; \
         CONST c = 1; VAR x: t; PROCEDURE h; BEGIN END; BEGIN f := 1 END; BEGIN END.",
        "PROGRAM a; BEGIN ; a[i, j].f^ := 1; p; q(x, y + 1, (z)); NEW(a[1].p^); BEGIN ; x := 1 END; ASSERT x; \
         IF NIL THEN b ELSE a := TRUE; IF a THEN IF b THEN p ELSE q ELSE r; CASE x OF 1: p; -2, +c, d: q; ; -e: END; \
         WHILE a DO; INVARIANT i -> j REPEAT x := 1; UNTIL a; INVARIANT i FOR x := 9 DOWNTO 1 DO FOR y := 1 TO 2 DO END.",
        "PROGRAM a; BEGIN ASSERT a -> -x + y - z OR w = +x * y DIV z MOD 17 AND NOT NOT #T; ASSERT x <> FALSE; ASSERT x < y; \
         ASSERT x <= y; ASSERT x > y; ASSERT x >= NIL; ASSERT f(x, y -> z).g[1]^.h = ((x)) END.",
    ] {
        assert!(rt; program_stays(rt.alloc(), text)?, "at {text}");
    }
    Ok(())
}

#[test]
fn rule_files(rt: HostRuntime) -> Result<(), Fail> {
    for text in [
        "",
        "{ none }",
        "VAR x: t;",
        "VAR x, y: INTEGER; l: LIST; c, d: #T;",
        "REPLACE f(x) BY y;",
        "REPLACE f(x) BY y WHERE x > 0;",
        "INFER f(x);",
        "INFER f(x) FROM g(x) AND h(x);",
        "VAR x: t; REPLACE f(x) BY 0; INFER g(x); REPLACE x -> y BY z WHERE TRUE; INFER x FROM y;",
    ] {
        assert!(rt; rules_stay(rt.alloc(), text)?, "at {text}");
    }
    Ok(())
}

#[test]
fn formula_texts(rt: HostRuntime) -> Result<(), Fail> {
    for text in [
        "PROGRAM a; ASSERT x.",
        "PROGRAM a; ASSERT x.f.",
        "PROGRAM a; ASSERT x.f.g = y.h .",
        "PROGRAM a; ASSERT (x -> y).",
        "PROGRAM a; VAR x: t; DECLARE f(t): t; ASSERT f(x) = x.",
        "PROGRAM a; CONST c = -1; TYPE t = 1..c; VAR x: t; DECLARE f: t; ASSERT f(x)^.",
    ] {
        assert!(rt; formula_stays(rt.alloc(), text)?, "at {text}");
    }
    Ok(())
}
