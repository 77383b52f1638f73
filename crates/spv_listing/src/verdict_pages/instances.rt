// Instances of rules, and how many of them rounds have.

ghost use Rattle.std.specs.Prelude.{◌≡◌, ◌+◌, ◌-◌, ◌++◌, All, IfOk, OnOk, codes, decimal, length};
ghost use Rattle.std.specs.List.{flat_map};
ghost use Rattle.spv_term.specs.Arena.{AllBelow, Arena};
ghost use Rattle.spv_verdicts.specs.answers.Views.{instance_in, instances_in, rounds_in};
ghost use Rattle.spv_listing.specs.verdict_pages.Counting.{member_total};
ghost use Rattle.spv_listing.specs.verdict_pages.VerdictLines.{instance_line, member_count};

use crate::printed::push_decimal;
use crate::verdict_pages::steps::push_terms;
use spv_logic::names::{Names, Symbol};
use spv_term::Terms;
use spv_verdicts::answers::{Instance, Round};
use std::alloc::AllocError;

// The line of an instance.
#[tactic(auto, using(crate::proofs::verdict_pages::Reach::all_below))]
fn push_instance(
    out: &mut Vec<u8>,
    names: &Names,
    titles: &[Option<Symbol>],
    terms: &Terms,
    instance: &Instance,
) -> Result<(), AllocError>
    requires { AllBelow (length terms.now.nodes) instance.now.values }
    ensures { OnOk result (out.new.items ≡ out.old.items ++ instance_line names.now titles.now (instance_in terms.now instance.now)) }
{
    out.extend_from_slice(b"INSTANCE ")?;
    push_decimal(out, instance.rule as u64)?;
    push_terms(out, names, titles, terms, instance.values.as_slice())?;
    out.push(b'\n')?;
    Ok(())
}

/// A line for each instance.
pub(crate) fn push_instances(
    out: &mut Vec<u8>,
    names: &Names,
    titles: &[Option<Symbol>],
    terms: &Terms,
    instances: &[Instance],
) -> Result<(), AllocError>
    requires { All (λ i. AllBelow (length terms.now.nodes) i.values) instances.now }
    ensures { OnOk result (out.new.items ≡ out.old.items ++ flat_map (instance_line names.now titles.now) (instances_in terms.now instances.now)) }
{
    for instance in instances {
        push_instance(out, names, titles, terms, instance)?;
    }
    Ok(())
}

// The sum of two counts. Where it would be too large the answer is want of memory.
fn sum(left: u64, right: u64) -> Result<u64, AllocError>
    ensures { IfOk result (λ n. n ≡ left + right) }
{
    match left.checked_add(right) {
        Some(both) => Ok(both),
        None => Err(AllocError),
    }
}

// How many instances rounds have together. Where they would be too many for 64 bits the answer is want of memory.
fn count_members(rounds: &[Round]) -> Result<u64, AllocError>
    ensures { IfOk result (λ n. n ≡ member_total rounds.now) }
{
    let mut number = 0;
    for round in rounds {
        number = sum(number, round.members.len() as u64)?;
    }
    Ok(number)
}

// One less, but for 0.
fn one_less(number: u64) -> u64
    ensures { result ≡ number - 1 }
{
    if number > 0 { number - 1 } else { 0 }
}

/// How many instances these rounds may have, which is one less than they have.
pub(crate) fn push_most_instances(out: &mut Vec<u8>, rounds: &[Round]) -> Result<(), AllocError>
    ensures { (a : Arena) → OnOk result (out.new.items ≡ out.old.items ++ (codes "INSTANCES " ++ decimal (member_count (rounds_in a rounds.now) - 1))) }
{
    let number = count_members(rounds)?;
    push_number_of_instances(out, one_less(number))
}

// A number of instances.
fn push_number_of_instances(out: &mut Vec<u8>, number: u64) -> Result<(), AllocError>
    ensures { OnOk result (out.new.items ≡ out.old.items ++ (codes "INSTANCES " ++ decimal number)) }
{
    out.extend_from_slice(b"INSTANCES ")?;
    push_decimal(out, number)
}
