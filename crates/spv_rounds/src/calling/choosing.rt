// Instances that are not known.

ghost use Rattle.std.specs.Prelude.{◌≡◌, ◌++◌, ◌∷◌, [], OnOk, IfOk};
ghost use Rattle.std.specs.List.{list_any};
ghost use Rattle.spv_term.specs.Arena.{ids_eq};
ghost use Rattle.spv_rounds.specs.telling.Told.{all_members};
ghost use Rattle.spv_rounds.specs.calling.Calling as spec;
ghost use Rattle.spv_rounds.specs.calling.Calling.{is_same, kept};

use spv_logic::list::List;
use spv_rules::matching::Instance as Match;
use spv_term::TermId;
use spv_verdicts::answers::{Instance, Round};
use std::alloc::{AllocError, Global};

// Whether two lists of terms are the same.
fn same_terms(left: &[TermId], right: &[TermId]) -> bool
    ensures { result ≡ ids_eq left.now right.now }
{
    if left.len() != right.len() {
        return false;
    }
    for i in 0..left.len() {
        if left[i] != right[i] {
            return false;
        }
    }
    true
}

// Whether an instance that was found is one that is known.
fn same(found: &Match, known: &Instance) -> bool
    ensures { result ≡ is_same found.now known.now }
{
    found.rule == known.rule && same_terms(found.values.as_slice(), known.values.as_slice())
}

// Whether it is one of these.
fn among(found: &Match, members: &[Instance]) -> bool
    ensures { result ≡ list_any (is_same found.now) members.now }
{
    for member in members {
        if same(found, member) {
            return true;
        }
    }
    false
}

// Whether it is a member of one of these rounds.
fn is_known(found: &Match, rounds: &[Round]) -> bool
    ensures { result ≡ list_any (is_same found.now) (all_members rounds.now) }
{
    for round in rounds {
        if among(found, round.members.as_slice()) {
            return true;
        }
    }
    false
}

// An instance as it is kept.
fn keep(alloc: Global, found: &Match) -> Result<Instance, AllocError>
    ensures { IfOk result (λ i. i ≡ kept found.now) }
{
    let values = found.values.as_slice().to_vec(alloc)?;
    Ok(Instance {
        rule: found.rule,
        values: List::from_vec(values),
    })
}

// Puts an instance behind others, if it is not known.
fn add(
    alloc: Global,
    rounds: &[Round],
    found: &Match,
    list: &mut Vec<Instance>,
) -> Result<(), AllocError>
    ensures { OnOk result (list.new.items ≡ list.old.items ++ spec.fresh rounds.now (found.now ∷ [])) }
{
    if is_known(found, rounds) {
        return Ok(());
    }
    list.push(keep(alloc, found)?)?;
    Ok(())
}

/// Those of the instances that were found that are no members of the rounds, in order.
pub fn fresh(alloc: Global, rounds: &[Round], found: &[Match]) -> Result<Vec<Instance>, AllocError>
    ensures { IfOk result (λ list. list.items ≡ spec.fresh rounds.now found.now) }
{
    let mut list = Vec::new(alloc);
    for one in found {
        add(alloc, rounds, one, &mut list)?;
    }
    Ok(list)
}
