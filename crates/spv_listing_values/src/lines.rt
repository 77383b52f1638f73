// The lines of a listing. Each function adds text at the end of `out`, or answers for want of memory.

ghost use Rattle.std.specs.Prelude.{◌≡◌, ◌++◌, ◌∷◌, [], ◌<◌, All, length, map, OnOk};
ghost use Rattle.spv_listing_values.specs.Written.{line_bytes};
ghost use Rattle.spv_listing_values.specs.Lines as spec;
ghost use Rattle.spv_listing_values.specs.Lines.{number, numbers, multiple, multiples, step_items, step_line};
ghost use Rattle.spv_listing_values.specs.Blanks.{blanks};
ghost use Rattle.spv_listing_values.specs.Mapped.{step_at, step_terms};
ghost use Rattle.spv_listing_values.specs.Places.{tree};
ghost use Rattle.spv_listing_values.specs.Waiting.{AreIn};

use crate::data::{Header, Instance, Limit, Step};
use crate::push::{push_fraction, push_number, push_text, push_word};
use crate::texts::{HeadText, Text, Texts};
use spv_frac::{Frac, Op};
use spv_logic::Kind;
use spv_logic::list::List;
use std::alloc::AllocError;

// The number of a fact, behind a blank.
pub(crate) fn push_fact(out: &mut Vec<u8>, fact: &u32) -> Result<(), AllocError>
    ensures { OnOk result (out.new.items ≡ out.old.items ++ blanks (number fact.now ∷ [])) }
{
    push_number(out, u64::from(*fact))
}

// The numbers of facts.
fn push_facts(out: &mut Vec<u8>, facts: &[u32]) -> Result<(), AllocError>
    ensures { OnOk result (out.new.items ≡ out.old.items ++ blanks (numbers facts.now)) }
{
    for fact in facts {
        push_fact(out, fact)?;
    }
    Ok(())
}

// A multiplier and the number of its fact.
fn push_multiple(out: &mut Vec<u8>, m: &(Frac, u32)) -> Result<(), AllocError>
    ensures { OnOk result (out.new.items ≡ out.old.items ++ blanks (multiple m.now)) }
{
    push_fraction(out, m.0)?;
    push_fact(out, &m.1)
}

// Multipliers, each with the number of its fact.
fn push_multiples(out: &mut Vec<u8>, ms: &[(Frac, u32)]) -> Result<(), AllocError>
    ensures { OnOk result (out.new.items ≡ out.old.items ++ blanks (multiples ms.now)) }
{
    for m in ms {
        push_multiple(out, m)?;
    }
    Ok(())
}

// Terms.
pub(crate) fn push_texts(out: &mut Vec<u8>, texts: &Texts, ts: &[Text]) -> Result<(), AllocError>
    requires { All (λ t. t.0 < length texts.now) ts.now }
    ensures { OnOk result (out.new.items ≡ out.old.items ++ blanks (map (tree texts.now) ts.now)) }
{
    for t in ts {
        push_text(out, texts, *t)?;
    }
    Ok(())
}

// Whether a term is an equation.
pub(crate) fn is_equation(texts: &Texts, t: Text) -> bool
    requires { t.0 < length texts.now }
    ensures { result ≡ spec.is_equation (tree texts.now t) }
{
    texts.law_texts();
    match texts.head(t) {
        HeadText::Alone(_) => false,
        HeadText::Applied(word, _) => word == b"=".as_slice(),
    }
}

// The multiples for the other direction, which an equation has alone.
fn push_others(
    out: &mut Vec<u8>,
    texts: &Texts,
    r: Text,
    ms: &[(Frac, u32)],
) -> Result<(), AllocError>
    requires { r.0 < length texts.now }
    ensures { OnOk result (out.new.items ≡ out.old.items ++ blanks (spec.other_multiples (tree texts.now r) ms.now)) }
{
    if is_equation(texts, r) {
        out.extend_from_slice(b" /")?;
        push_multiples(out, ms)?;
    }
    Ok(())
}

// The name of a field, where there is one.
fn push_field(out: &mut Vec<u8>, field: &Option<List<u8>>) -> Result<(), AllocError>
    ensures { OnOk result (out.new.items ≡ out.old.items ++ blanks (spec.field field.now)) }
{
    match field {
        None => Ok(()),
        Some(name) => push_word(out, name.as_slice()),
    }
}

// A second fact, where there is one.
fn push_second(out: &mut Vec<u8>, fact: &Option<u32>) -> Result<(), AllocError>
    ensures { OnOk result (out.new.items ≡ out.old.items ++ blanks (spec.second_number fact.now)) }
{
    match fact {
        None => Ok(()),
        Some(number) => push_fact(out, number),
    }
}

// A step by its word and what it names.
#[tactic(auto, using(crate::proofs::Reach::all_in))]
fn push_items(out: &mut Vec<u8>, texts: &Texts, step: &Step<Text>) -> Result<(), AllocError>
    requires { AreIn texts.now (step_terms step.now) }
    ensures { OnOk result (out.new.items ≡ out.old.items ++ blanks (step_items (step_at (tree texts.now) step.now))) }
{
    match step {
        Step::Given(k) => {
            out.extend_from_slice(b" GIVEN")?;
            push_fact(out, k)
        }
        Step::Refl(t) => {
            out.extend_from_slice(b" REFL")?;
            push_text(out, texts, *t)
        }
        Step::Symm(i) => {
            out.extend_from_slice(b" SYMM")?;
            push_fact(out, i)
        }
        Step::Trans(i, j) => {
            out.extend_from_slice(b" TRANS")?;
            push_fact(out, i)?;
            push_fact(out, j)
        }
        Step::Cong(t, u, facts) => {
            out.extend_from_slice(b" CONG")?;
            push_text(out, texts, *t)?;
            push_text(out, texts, *u)?;
            push_facts(out, facts.as_slice())
        }
        Step::Linear(r, first, second) => {
            out.extend_from_slice(b" LINEAR")?;
            push_text(out, texts, *r)?;
            push_multiples(out, first.as_slice())?;
            push_others(out, texts, *r, second.as_slice())
        }
        Step::Schema(kind, ts, name) => {
            out.extend_from_slice(b" SCHEMA")?;
            push_number(out, u64::from(*kind))?;
            push_texts(out, texts, ts.as_slice())?;
            push_field(out, name)
        }
        Step::Rule(r, ts) => {
            out.extend_from_slice(b" RULE")?;
            push_fact(out, r)?;
            push_texts(out, texts, ts.as_slice())
        }
        Step::Eval(f, facts) => {
            out.extend_from_slice(b" EVAL")?;
            push_text(out, texts, *f)?;
            push_facts(out, facts.as_slice())
        }
        Step::Contra(i, j) => {
            out.extend_from_slice(b" CONTRA")?;
            push_fact(out, i)?;
            push_second(out, j)
        }
    }
}

// A step on a line of its own.
#[tactic(auto, using(crate::proofs::Blanks::line_is))]
pub(crate) fn push_step(
    out: &mut Vec<u8>,
    texts: &Texts,
    step: &Step<Text>,
) -> Result<(), AllocError>
    requires { AreIn texts.now (step_terms step.now) }
    ensures { OnOk result (out.new.items ≡ out.old.items ++ line_bytes (step_line (step_at (tree texts.now) step.now))) }
{
    out.extend_from_slice(b"STEP")?;
    push_items(out, texts, step)?;
    out.push(b'\n')?;
    Ok(())
}
