// The steps of a proof, each on a line of its own.

ghost use Rattle.std.specs.Prelude.{◌≡◌, ◌<◌, ◌++◌, All, OnOk, codes, length, map};
ghost use Rattle.std.specs.List.{flat_map};
ghost use Rattle.spv_logic.specs.Formulas.{equation};
ghost use Rattle.spv_term.specs.Arena.{tree};
ghost use Rattle.spv_proof_rules.specs.Effects.{at_most};
ghost use Rattle.spv_proof_rules.specs.Stand.{RelationIn, StatedIn, StepIn};
ghost use Rattle.spv_listing.specs.verdict_pages.ProofLines.{number_text, numbers_text, blank_term, terms_text, multiple_text, multiples_text, field_text, second_number, relation_at, stated_at, other_multiples, step_text, step_line};

use crate::printed::{push_decimal, push_fraction, push_name, push_negation, push_term};
use spv_atoms::{Relation, Stated, Step};
use spv_frac::Frac;
use spv_logic::names::{Names, Symbol};
use spv_term::{TermId, Terms};
use std::alloc::AllocError;

// A number behind a blank.
pub(crate) fn push_number(out: &mut Vec<u8>, number: u64) -> Result<(), AllocError>
    ensures { OnOk result (out.new.items ≡ out.old.items ++ number_text number) }
{
    out.push(b' ')?;
    push_decimal(out, number)
}

// The number of a fact behind a blank.
fn push_fact(out: &mut Vec<u8>, number: &u32) -> Result<(), AllocError>
    ensures { OnOk result (out.new.items ≡ out.old.items ++ number_text number.now) }
{
    push_number(out, *number as u64)
}

// The numbers of facts, each behind a blank.
fn push_facts(out: &mut Vec<u8>, numbers: &[u32]) -> Result<(), AllocError>
    ensures { OnOk result (out.new.items ≡ out.old.items ++ numbers_text numbers.now) }
{
    for number in numbers {
        push_fact(out, number)?;
    }
    Ok(())
}

// A term behind a blank.
pub(crate) fn push_blank_term(
    out: &mut Vec<u8>,
    names: &Names,
    titles: &[Option<Symbol>],
    terms: &Terms,
    t: TermId,
) -> Result<(), AllocError>
    requires { t.0 < length terms.now.nodes }
    ensures { OnOk result (out.new.items ≡ out.old.items ++ blank_term names.now titles.now (tree terms.now t)) }
{
    out.push(b' ')?;
    push_term(out, names, titles, terms, t)
}

// Terms, each behind a blank.
pub(crate) fn push_terms(
    out: &mut Vec<u8>,
    names: &Names,
    titles: &[Option<Symbol>],
    terms: &Terms,
    ts: &[TermId],
) -> Result<(), AllocError>
    requires { All (λ t. t.0 < length terms.now.nodes) ts.now }
    ensures { OnOk result (out.new.items ≡ out.old.items ++ terms_text names.now titles.now (tree terms.now) ts.now) }
{
    for t in ts {
        push_blank_term(out, names, titles, terms, *t)?;
    }
    Ok(())
}

// A multiplier and the number of its fact.
fn push_multiple(out: &mut Vec<u8>, multiple: &(Frac, u32)) -> Result<(), AllocError>
    ensures { OnOk result (out.new.items ≡ out.old.items ++ multiple_text multiple.now) }
{
    out.push(b' ')?;
    push_fraction(out, multiple.0)?;
    push_fact(out, &multiple.1)
}

// Multipliers, each with the number of its fact.
fn push_multiples(out: &mut Vec<u8>, multiples: &[(Frac, u32)]) -> Result<(), AllocError>
    ensures { OnOk result (out.new.items ≡ out.old.items ++ multiples_text multiples.now) }
{
    for multiple in multiples {
        push_multiple(out, multiple)?;
    }
    Ok(())
}

// A relation of two terms behind a blank: the first is at most the second.
fn push_at_most(
    out: &mut Vec<u8>,
    names: &Names,
    titles: &[Option<Symbol>],
    terms: &Terms,
    s: TermId,
    t: TermId,
) -> Result<(), AllocError>
    requires left { s.0 < length terms.now.nodes }
    requires right { t.0 < length terms.now.nodes }
    ensures { OnOk result (out.new.items ≡ out.old.items ++ blank_term names.now titles.now (at_most (tree terms.now s) (tree terms.now t))) }
{
    out.extend_from_slice(b" (<= ")?;
    push_term(out, names, titles, terms, s)?;
    out.push(b' ')?;
    push_term(out, names, titles, terms, t)?;
    out.push(b')')?;
    Ok(())
}

// An equation of two terms behind a blank.
fn push_equation(
    out: &mut Vec<u8>,
    names: &Names,
    titles: &[Option<Symbol>],
    terms: &Terms,
    s: TermId,
    t: TermId,
) -> Result<(), AllocError>
    requires left { s.0 < length terms.now.nodes }
    requires right { t.0 < length terms.now.nodes }
    ensures { OnOk result (out.new.items ≡ out.old.items ++ blank_term names.now titles.now (equation (tree terms.now s) (tree terms.now t))) }
{
    out.extend_from_slice(b" (= ")?;
    push_term(out, names, titles, terms, s)?;
    out.push(b' ')?;
    push_term(out, names, titles, terms, t)?;
    out.push(b')')?;
    Ok(())
}

// A relation behind a blank.
fn push_relation(
    out: &mut Vec<u8>,
    names: &Names,
    titles: &[Option<Symbol>],
    terms: &Terms,
    relation: Relation,
) -> Result<(), AllocError>
    requires { RelationIn terms.now relation }
    ensures { OnOk result (out.new.items ≡ out.old.items ++ blank_term names.now titles.now (relation_at (tree terms.now) relation)) }
{
    match relation {
        Relation::AtMost(s, t) => push_at_most(out, names, titles, terms, s, t),
        Relation::Equal(s, t) => push_equation(out, names, titles, terms, s, t),
    }
}

// A formula, or its negation, behind a blank.
fn push_formula(
    out: &mut Vec<u8>,
    names: &Names,
    titles: &[Option<Symbol>],
    terms: &Terms,
    t: TermId,
    truth: bool,
) -> Result<(), AllocError>
    requires { t.0 < length terms.now.nodes }
    ensures { OnOk result (out.new.items ≡ out.old.items ++ blank_term names.now titles.now (stated_at (tree terms.now) (Stated.Is t truth))) }
{
    out.push(b' ')?;
    if truth {
        push_term(out, names, titles, terms, t)
    } else {
        push_negation(out, names, titles, terms, t)
    }
}

// What an evaluation states, behind a blank.
fn push_stated(
    out: &mut Vec<u8>,
    names: &Names,
    titles: &[Option<Symbol>],
    terms: &Terms,
    stated: Stated,
) -> Result<(), AllocError>
    requires { StatedIn terms.now stated }
    ensures { OnOk result (out.new.items ≡ out.old.items ++ blank_term names.now titles.now (stated_at (tree terms.now) stated)) }
{
    match stated {
        Stated::Is(t, truth) => push_formula(out, names, titles, terms, t, truth),
        Stated::Same(s, t) => push_equation(out, names, titles, terms, s, t),
    }
}

// Two terms of one head, and the equations of their arguments.
fn push_congruence(
    out: &mut Vec<u8>,
    names: &Names,
    titles: &[Option<Symbol>],
    terms: &Terms,
    t: TermId,
    u: TermId,
    facts: &[u32],
) -> Result<(), AllocError>
    requires left { t.0 < length terms.now.nodes }
    requires right { u.0 < length terms.now.nodes }
    ensures { OnOk result (out.new.items ≡ out.old.items ++ (codes "CONG" ++ blank_term names.now titles.now (tree terms.now t) ++ blank_term names.now titles.now (tree terms.now u) ++ numbers_text facts.now)) }
{
    out.extend_from_slice(b"CONG")?;
    push_blank_term(out, names, titles, terms, t)?;
    push_blank_term(out, names, titles, terms, u)?;
    push_facts(out, facts)
}

// The multiples for the other direction, which an equation has alone.
fn push_other_multiples(
    out: &mut Vec<u8>,
    relation: Relation,
    multiples: &[(Frac, u32)],
) -> Result<(), AllocError>
    ensures { OnOk result (out.new.items ≡ out.old.items ++ other_multiples relation multiples.now) }
{
    match relation {
        Relation::AtMost(_, _) => Ok(()),
        Relation::Equal(_, _) => {
            out.extend_from_slice(b" /")?;
            push_multiples(out, multiples)
        }
    }
}

// A relation and the multiples that show it.
fn push_linear(
    out: &mut Vec<u8>,
    names: &Names,
    titles: &[Option<Symbol>],
    terms: &Terms,
    relation: Relation,
    first: &[(Frac, u32)],
    second: &[(Frac, u32)],
) -> Result<(), AllocError>
    requires { RelationIn terms.now relation }
    ensures { OnOk result (out.new.items ≡ out.old.items ++ (codes "LINEAR" ++ blank_term names.now titles.now (relation_at (tree terms.now) relation) ++ multiples_text first.now ++ other_multiples relation second.now)) }
{
    out.extend_from_slice(b"LINEAR")?;
    push_relation(out, names, titles, terms, relation)?;
    push_multiples(out, first)?;
    push_other_multiples(out, relation, second)
}

// The name of a field, where there is one.
fn push_field(out: &mut Vec<u8>, names: &Names, field: &Option<Symbol>) -> Result<(), AllocError>
    ensures { OnOk result (out.new.items ≡ out.old.items ++ field_text names.now field.now) }
{
    match field {
        None => Ok(()),
        Some(name) => {
            out.push(b' ')?;
            push_name(out, names, *name)
        }
    }
}

// A fact of a schema: its kind, its terms, and its field.
fn push_schema(
    out: &mut Vec<u8>,
    names: &Names,
    titles: &[Option<Symbol>],
    terms: &Terms,
    kind: &u8,
    ts: &[TermId],
    field: &Option<Symbol>,
) -> Result<(), AllocError>
    requires { All (λ t. t.0 < length terms.now.nodes) ts.now }
    ensures { OnOk result (out.new.items ≡ out.old.items ++ (codes "SCHEMA" ++ number_text kind.now ++ terms_text names.now titles.now (tree terms.now) ts.now ++ field_text names.now field.now)) }
{
    out.extend_from_slice(b"SCHEMA")?;
    push_number(out, *kind as u64)?;
    push_terms(out, names, titles, terms, ts)?;
    push_field(out, names, field)
}

// A rule and its terms.
fn push_rule(
    out: &mut Vec<u8>,
    names: &Names,
    titles: &[Option<Symbol>],
    terms: &Terms,
    rule: &u32,
    ts: &[TermId],
) -> Result<(), AllocError>
    requires { All (λ t. t.0 < length terms.now.nodes) ts.now }
    ensures { OnOk result (out.new.items ≡ out.old.items ++ (codes "RULE" ++ number_text rule.now ++ terms_text names.now titles.now (tree terms.now) ts.now)) }
{
    out.extend_from_slice(b"RULE")?;
    push_fact(out, rule)?;
    push_terms(out, names, titles, terms, ts)
}

// What is evaluated, and the facts from which it follows.
fn push_evaluation(
    out: &mut Vec<u8>,
    names: &Names,
    titles: &[Option<Symbol>],
    terms: &Terms,
    stated: Stated,
    facts: &[u32],
) -> Result<(), AllocError>
    requires { StatedIn terms.now stated }
    ensures { OnOk result (out.new.items ≡ out.old.items ++ (codes "EVAL" ++ blank_term names.now titles.now (stated_at (tree terms.now) stated) ++ numbers_text facts.now)) }
{
    out.extend_from_slice(b"EVAL")?;
    push_stated(out, names, titles, terms, stated)?;
    push_facts(out, facts)
}

// A hypothesis, or that the goal is false.
fn push_given(out: &mut Vec<u8>, number: &u32) -> Result<(), AllocError>
    ensures { OnOk result (out.new.items ≡ out.old.items ++ (codes "GIVEN" ++ number_text number.now)) }
{
    out.extend_from_slice(b"GIVEN")?;
    push_fact(out, number)
}

// A fact whose sides are exchanged.
fn push_exchanged(out: &mut Vec<u8>, number: &u32) -> Result<(), AllocError>
    ensures { OnOk result (out.new.items ≡ out.old.items ++ (codes "SYMM" ++ number_text number.now)) }
{
    out.extend_from_slice(b"SYMM")?;
    push_fact(out, number)
}

// Two facts that are joined.
fn push_joined(out: &mut Vec<u8>, first: &u32, second: &u32) -> Result<(), AllocError>
    ensures { OnOk result (out.new.items ≡ out.old.items ++ (codes "TRANS" ++ number_text first.now ++ number_text second.now)) }
{
    out.extend_from_slice(b"TRANS")?;
    push_fact(out, first)?;
    push_fact(out, second)
}

// A term that equals itself.
fn push_reflexive(
    out: &mut Vec<u8>,
    names: &Names,
    titles: &[Option<Symbol>],
    terms: &Terms,
    t: TermId,
) -> Result<(), AllocError>
    requires { t.0 < length terms.now.nodes }
    ensures { OnOk result (out.new.items ≡ out.old.items ++ (codes "REFL" ++ blank_term names.now titles.now (tree terms.now t))) }
{
    out.extend_from_slice(b"REFL")?;
    push_blank_term(out, names, titles, terms, t)
}

// The second of two facts, where there is one.
fn push_second(out: &mut Vec<u8>, second: &Option<u32>) -> Result<(), AllocError>
    ensures { OnOk result (out.new.items ≡ out.old.items ++ second_number second.now) }
{
    match second {
        None => Ok(()),
        Some(number) => push_fact(out, number),
    }
}

// The facts that end a path.
fn push_end(out: &mut Vec<u8>, first: &u32, second: &Option<u32>) -> Result<(), AllocError>
    ensures { OnOk result (out.new.items ≡ out.old.items ++ (codes "CONTRA" ++ number_text first.now ++ second_number second.now)) }
{
    out.extend_from_slice(b"CONTRA")?;
    push_fact(out, first)?;
    push_second(out, second)
}

// A step by its word and what it names.
#[tactic(auto, using(crate::proofs::verdict_pages::Reach::all_below))]
fn push_step_text(
    out: &mut Vec<u8>,
    names: &Names,
    titles: &[Option<Symbol>],
    terms: &Terms,
    step: &Step,
) -> Result<(), AllocError>
    requires { StepIn terms.now step.now }
    ensures { OnOk result (out.new.items ≡ out.old.items ++ step_text names.now titles.now (tree terms.now) step.now) }
{
    match step {
        Step::Given(number) => push_given(out, number),
        Step::Refl(t) => push_reflexive(out, names, titles, terms, *t),
        Step::Symm(number) => push_exchanged(out, number),
        Step::Trans(first, second) => push_joined(out, first, second),
        Step::Cong(t, u, facts) => {
            push_congruence(out, names, titles, terms, *t, *u, facts.as_slice())
        }
        Step::Linear(relation, first, second) => push_linear(
            out,
            names,
            titles,
            terms,
            *relation,
            first.as_slice(),
            second.as_slice(),
        ),
        Step::Schema(kind, ts, field) => {
            push_schema(out, names, titles, terms, kind, ts.as_slice(), field)
        }
        Step::Rule(rule, ts) => push_rule(out, names, titles, terms, rule, ts.as_slice()),
        Step::Eval(stated, facts) => {
            push_evaluation(out, names, titles, terms, *stated, facts.as_slice())
        }
        Step::Contra(first, second) => push_end(out, first, second),
    }
}

// The line of a step.
fn push_step(
    out: &mut Vec<u8>,
    names: &Names,
    titles: &[Option<Symbol>],
    terms: &Terms,
    step: &Step,
) -> Result<(), AllocError>
    requires { StepIn terms.now step.now }
    ensures { OnOk result (out.new.items ≡ out.old.items ++ step_line names.now titles.now (tree terms.now) step.now) }
{
    out.extend_from_slice(b"STEP ")?;
    push_step_text(out, names, titles, terms, step)?;
    out.push(b'\n')?;
    Ok(())
}

// The lines of steps.
pub(crate) fn push_steps(
    out: &mut Vec<u8>,
    names: &Names,
    titles: &[Option<Symbol>],
    terms: &Terms,
    steps: &[Step],
) -> Result<(), AllocError>
    requires { All (λ s. StepIn terms.now s) steps.now }
    ensures { OnOk result (out.new.items ≡ out.old.items ++ flat_map (step_line names.now titles.now (tree terms.now)) steps.now) }
{
    for step in steps {
        push_step(out, names, titles, terms, step)?;
    }
    Ok(())
}
