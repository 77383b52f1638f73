// The generated programs.

ghost use Rattle.std.specs.Prelude.{◌≡◌, ◌++◌, ◌<◌, decimal, map, IfOk, OnOk};
ghost use Rattle.std.specs.List.{flat_map};
ghost use Rattle.spv_cli.specs.Drill as spec;
ghost use Rattle.spv_cli.specs.Words.{procedure_view};

use itoa::Buffer;
use spv_reports::Load;
use std::alloc::{AllocError, Global};

// A procedure: its number, what it multiplies with, and what it adds.
#[derive(Clone, Copy, Debug)]
struct Procedure {
    number: u32,
    factor: u8,
    summand: u8,
}

// A step of the generator.
fn stepped(s: u64) -> u64
    requires { s < 2147483648 }
    ensures next { result ≡ spec.stepped s }
    ensures below { result < 2147483648 }
{
    (s * 1_103_515_245 + 12_345) % 2_147_483_648
}

// A number below m, from where the generator stands.
fn digit(s: u64, m: u64) -> u64
    requires { 0 < m }
    ensures digit { result ≡ spec.digit s m }
    ensures below { result < m }
{
    (s / 65_536) % m
}

// The procedure of this number, from where the generator stands.
fn procedure_at(number: u32, s: u64) -> Procedure
    requires { s < 2147483648 }
    ensures { procedure_view result ≡ spec.procedure_at number s }
{
    Procedure {
        number,
        factor: 1 + digit(s, 9) as u8,
        summand: digit(stepped(s), 10) as u8,
    }
}

// So many procedures, from where the generator stands.
fn procedures(alloc: Global, start: u64, size: u32) -> Result<Vec<Procedure>, AllocError>
    requires { start < 2147483648 }
    ensures { IfOk result (λ v. map procedure_view v.items ≡ spec.procedures 1 start size) }
{
    let mut made = Vec::new(alloc);
    let mut s = start;
    for place in 0..size {
        let first = stepped(s);
        made.push(procedure_at(place + 1, first))?;
        s = stepped(first);
    }
    Ok(made)
}

// ---- text

fn push_number(out: &mut Vec<u8>, number: u64) -> Result<(), AllocError>
    ensures { OnOk result (out.new.items ≡ out.old.items ++ decimal number) }
{
    let mut buffer = Buffer::new();
    out.extend_from_slice(buffer.format(number).as_bytes())?;
    Ok(())
}

// The heading of a procedure.
fn push_heading(out: &mut Vec<u8>, p: Procedure) -> Result<(), AllocError>
    ensures { OnOk result (out.new.items ≡ out.old.items ++ spec.heading (procedure_view p)) }
{
    out.extend_from_slice(b"PROCEDURE P")?;
    push_number(out, p.number as u64)?;
    out.extend_from_slice(b"(N: INTEGER; VAR R: INTEGER);\nENTRY N >= 0;\nEXIT R = ")?;
    push_number(out, p.factor as u64)?;
    out.extend_from_slice(b" * N + ")?;
    push_number(out, p.summand as u64)?;
    out.extend_from_slice(b";\nVAR I: INTEGER;\n")?;
    Ok(())
}

// The first line of its body.
fn push_start(out: &mut Vec<u8>, p: Procedure) -> Result<(), AllocError>
    ensures { OnOk result (out.new.items ≡ out.old.items ++ spec.start_line (procedure_view p)) }
{
    out.extend_from_slice(b"BEGIN R := ")?;
    push_number(out, p.summand as u64)?;
    out.extend_from_slice(b"; I := 0;\n")?;
    Ok(())
}

// The annotation of its loop.
fn push_invariant(out: &mut Vec<u8>, p: Procedure) -> Result<(), AllocError>
    ensures { OnOk result (out.new.items ≡ out.old.items ++ spec.invariant_line (procedure_view p)) }
{
    out.extend_from_slice(b"INVARIANT (R = ")?;
    push_number(out, p.factor as u64)?;
    out.extend_from_slice(b" * I + ")?;
    push_number(out, p.summand as u64)?;
    out.extend_from_slice(b") AND (0 <= I) AND (I <= N)\n")?;
    Ok(())
}

// The loop, which adds the factor again and again.
fn push_loop(out: &mut Vec<u8>, p: Procedure) -> Result<(), AllocError>
    ensures { OnOk result (out.new.items ≡ out.old.items ++ spec.loop_line (procedure_view p)) }
{
    out.extend_from_slice(b"WHILE I < N DO BEGIN R := R + ")?;
    push_number(out, p.factor as u64)?;
    out.extend_from_slice(b"; I := I + 1 END END;\n")?;
    Ok(())
}

fn push_declaration(out: &mut Vec<u8>, p: Procedure) -> Result<(), AllocError>
    ensures { OnOk result (out.new.items ≡ out.old.items ++ spec.declaration (procedure_view p)) }
{
    push_heading(out, p)?;
    push_start(out, p)?;
    push_invariant(out, p)?;
    push_loop(out, p)?;
    Ok(())
}

// What it reckons for its number.
fn result_of(p: Procedure) -> u64
    ensures { result ≡ spec.result_of (procedure_view p) }
{
    p.factor as u64 * p.number as u64 + p.summand as u64
}

// The call of a procedure with its number, and what the result is.
fn push_call(out: &mut Vec<u8>, p: Procedure) -> Result<(), AllocError>
    ensures { OnOk result (out.new.items ≡ out.old.items ++ spec.call (procedure_view p)) }
{
    out.extend_from_slice(b"P")?;
    push_number(out, p.number as u64)?;
    out.extend_from_slice(b"(")?;
    push_number(out, p.number as u64)?;
    out.extend_from_slice(b", X); ASSERT X = ")?;
    push_number(out, result_of(p))?;
    out.extend_from_slice(b";\n")?;
    Ok(())
}

fn push_declarations(out: &mut Vec<u8>, all: &[Procedure]) -> Result<(), AllocError>
    ensures { OnOk result (out.new.items ≡ out.old.items ++ flat_map spec.declaration (map procedure_view all.now)) }
{
    for p in all {
        push_declaration(out, *p)?;
    }
    Ok(())
}

fn push_calls(out: &mut Vec<u8>, all: &[Procedure]) -> Result<(), AllocError>
    ensures { OnOk result (out.new.items ≡ out.old.items ++ flat_map spec.call (map procedure_view all.now)) }
{
    for p in all {
        push_call(out, *p)?;
    }
    Ok(())
}

/// The text of a generated program: the number of the load says where its generator begins, the size how many procedures it has.
pub(crate) fn drill_text(alloc: Global, load: Load) -> Result<Vec<u8>, AllocError>
    ensures { IfOk result (λ text. text.items ≡ spec.drill_text load) }
{
    let all = procedures(alloc, load.number % 2_147_483_648, load.size)?;
    let mut out = Vec::from_slice(alloc, b"PROGRAM DRILL;\nVAR X: INTEGER;\n")?;
    push_declarations(&mut out, all.as_slice())?;
    out.extend_from_slice(b"BEGIN\n")?;
    push_calls(&mut out, all.as_slice())?;
    out.extend_from_slice(b"END.\n")?;
    Ok(out)
}
