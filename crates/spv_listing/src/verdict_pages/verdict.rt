// What is said of a condition behind its goal.

ghost use Rattle.std.specs.Prelude.{◌≡◌, ◌<◌, ◌++◌, All, OnOk, codes, length};
ghost use Rattle.std.specs.List.{flat_map};
ghost use Rattle.spv_term.specs.Arena.{tree};
ghost use Rattle.spv_proof_rules.specs.Stand.{NodesIn};
ghost use Rattle.spv_table.specs.Kept.{PairsIn};
ghost use Rattle.spv_listing.specs.printed.Printed.{line};
ghost use Rattle.spv_verdicts.specs.answers.Views.{CasesIn, InstancesIn, LimitIn, VerdictIn, branch_in, instances_in, limit_in, pairs_in, rounds_in};
ghost use Rattle.spv_listing.specs.verdict_pages.VerdictLines.{branch_line, instance_line, value_line, limit_text, wanted_proof, decided_lines};

use crate::printed::{push_fraction, push_negation, push_term};
use crate::verdict_pages::instances::push_instances;
use crate::verdict_pages::limits::push_limit;
use crate::verdict_pages::nodes::push_nodes;
use spv_atoms::Proof;
use spv_frac::Frac;
use spv_logic::names::{Names, Symbol};
use spv_term::{TermId, Terms};
use spv_verdicts::answers::{Decided, Limit, Round, Unproved, Verdict};
use std::alloc::AllocError;

// The line of an atom, as the table has it.
fn push_atom(
    out: &mut Vec<u8>,
    names: &Names,
    titles: &[Option<Symbol>],
    terms: &Terms,
    atom: TermId,
    truth: bool,
) -> Result<(), AllocError>
    requires { atom.0 < length terms.now.nodes }
    ensures { OnOk result (out.new.items ≡ out.old.items ++ branch_line names.now titles.now (tree terms.now atom, truth)) }
{
    out.extend_from_slice(b"BRANCH ")?;
    if truth {
        push_term(out, names, titles, terms, atom)?;
    } else {
        push_negation(out, names, titles, terms, atom)?;
    }
    out.push(b'\n')?;
    Ok(())
}

// A line for each atom, as the table has it.
fn push_branch(
    out: &mut Vec<u8>,
    names: &Names,
    titles: &[Option<Symbol>],
    terms: &Terms,
    branch: &[(TermId, bool)],
) -> Result<(), AllocError>
    requires { All (λ row. row.0.0 < length terms.now.nodes) branch.now }
    ensures { OnOk result (out.new.items ≡ out.old.items ++ flat_map (branch_line names.now titles.now) (branch_in terms.now branch.now)) }
{
    for row in branch {
        push_atom(out, names, titles, terms, row.0, row.1)?;
    }
    Ok(())
}

// The line of a term's number in a table.
fn push_value(
    out: &mut Vec<u8>,
    names: &Names,
    titles: &[Option<Symbol>],
    terms: &Terms,
    side: TermId,
    number: Frac,
) -> Result<(), AllocError>
    requires { side.0 < length terms.now.nodes }
    ensures { OnOk result (out.new.items ≡ out.old.items ++ value_line names.now titles.now (tree terms.now side, number)) }
{
    out.extend_from_slice(b"VALUE ")?;
    push_term(out, names, titles, terms, side)?;
    out.push(b' ')?;
    push_fraction(out, number)?;
    out.push(b'\n')?;
    Ok(())
}

// A line for each row of a table.
fn push_table(
    out: &mut Vec<u8>,
    names: &Names,
    titles: &[Option<Symbol>],
    terms: &Terms,
    table: &[(TermId, Frac)],
) -> Result<(), AllocError>
    requires { All (λ row. row.0.0 < length terms.now.nodes) table.now }
    ensures { OnOk result (out.new.items ≡ out.old.items ++ flat_map (value_line names.now titles.now) (pairs_in terms.now table.now)) }
{
    for row in table {
        push_value(out, names, titles, terms, row.0, row.1)?;
    }
    Ok(())
}

// What shows that a condition does not follow.
#[tactic(auto, using(crate::proofs::verdict_pages::Reach::all_cases, crate::proofs::verdict_pages::Reach::all_pairs, crate::proofs::verdict_pages::Reach::all_instances))]
fn push_unproved(
    out: &mut Vec<u8>,
    names: &Names,
    titles: &[Option<Symbol>],
    terms: &Terms,
    unproved: &Unproved,
) -> Result<(), AllocError>
    requires branch { CasesIn terms.now unproved.now.branch }
    requires table { PairsIn terms.now unproved.now.table.values }
    requires instances { InstancesIn terms.now unproved.now.instances }
    ensures { OnOk result (out.new.items ≡ out.old.items ++ (line (codes "UNPROVED") ++ flat_map (branch_line names.now titles.now) (branch_in terms.now unproved.now.branch) ++ flat_map (instance_line names.now titles.now) (instances_in terms.now unproved.now.instances) ++ flat_map (value_line names.now titles.now) (pairs_in terms.now unproved.now.table.values))) }
{
    out.extend_from_slice(b"UNPROVED\n")?;
    push_branch(out, names, titles, terms, unproved.branch.as_slice())?;
    push_instances(out, names, titles, terms, unproved.instances.as_slice())?;
    push_table(out, names, titles, terms, unproved.table.values.as_slice())
}

// That a condition is proved, and its proof where proofs are wanted.
fn push_proved(
    out: &mut Vec<u8>,
    names: &Names,
    titles: &[Option<Symbol>],
    terms: &Terms,
    proof: &Proof,
    proofs: bool,
) -> Result<(), AllocError>
    requires { NodesIn terms.now proof.now }
    ensures { OnOk result (out.new.items ≡ out.old.items ++ (line (codes "PROVED") ++ wanted_proof proofs names.now titles.now (tree terms.now) proof.now)) }
{
    out.extend_from_slice(b"PROVED\n")?;
    if proofs {
        push_nodes(out, names, titles, terms, proof.nodes())?;
    }
    Ok(())
}

// The limit at which a search gave up.
fn push_gave_up(
    out: &mut Vec<u8>,
    names: &Names,
    titles: &[Option<Symbol>],
    terms: &Terms,
    rounds: &[Round],
    limit: &Limit,
) -> Result<(), AllocError>
    requires { LimitIn terms.now limit.now }
    ensures { OnOk result (out.new.items ≡ out.old.items ++ line (codes "GAVE UP " ++ limit_text names.now titles.now (rounds_in terms.now rounds.now) (limit_in terms.now limit.now))) }
{
    out.extend_from_slice(b"GAVE UP ")?;
    push_limit(out, names, titles, terms, rounds, limit)?;
    out.push(b'\n')?;
    Ok(())
}

// That a proof that was handed in is not accepted.
fn push_not_accepted(out: &mut Vec<u8>) -> Result<(), AllocError>
    ensures { OnOk result (out.new.items ≡ out.old.items ++ line (codes "NOT ACCEPTED")) }
{
    out.extend_from_slice(b"NOT ACCEPTED\n")?;
    Ok(())
}

/// Adds the lines of a verdict, over the terms of its own arena: its word, and where it is `Unproved` the truth of each atom, the instances
/// of rules that were added, and the number of each term that its table lists, where it is `GaveUp` the limit that was reached. The lines of a proof stand behind the word
/// `PROVED` only where `proofs` is true. Each line ends with byte 10.
pub fn push_verdict(
    out: &mut Vec<u8>,
    names: &Names,
    titles: &[Option<Symbol>],
    decided: &Decided,
    proofs: bool,
) -> Result<(), AllocError>
    requires in_range { VerdictIn decided.now.terms decided.now.verdict }
    ensures lines { OnOk result (out.new.items ≡ out.old.items ++ decided_lines proofs names.now titles.now decided.now) }
{
    let terms = &decided.terms;
    match &decided.verdict {
        Verdict::Proved(proof) => push_proved(out, names, titles, terms, proof, proofs),
        Verdict::Unproved(unproved) => push_unproved(out, names, titles, terms, unproved),
        Verdict::GaveUp(rounds, limit) => {
            push_gave_up(out, names, titles, terms, rounds.as_slice(), limit)
        }
        Verdict::NotAccepted => push_not_accepted(out),
    }
}
