// What rules say of the terms of instances, made in an arena.

ghost use Rattle.std.specs.Prelude.{◌≡◌, ◌<◌, ◌++◌, ◌∷◌, [], map, length, true, Some, IfOk, OnOk};
ghost use Rattle.spv_atoms.specs.Atoms.{is_truth};
ghost use Rattle.spv_term.specs.Arena.{AllBelow, Extends, tree};
ghost use Rattle.spv_rules.specs.RuleSets.{rules_in};
ghost use Rattle.spv_verdicts.specs.answers.Views.{InstancesIn, instance_in};
ghost use Rattle.spv_rounds.specs.growing.Growth.{says, AreSaid};

use spv_rules::{Rules, instance};
use spv_term::{TermFault, TermId, Terms};
use spv_verdicts::answers::Instance;
use std::alloc::{AllocError, Global};

// What a rule says of the terms of an instance. There is no memory where it says nothing.
fn say_one(
    alloc: Global,
    rules: &Rules,
    terms: &mut Terms,
    member: &Instance,
) -> Result<TermId, TermFault>
    requires values { AllBelow (length terms.old.nodes) member.now.values }
    requires shapes { rules.now.arena.shapes ≡ terms.old.shapes }
    requires decls { rules.now.arena.decls ≡ terms.old.decls }
    ensures there { IfOk result (λ t. t.0 < length terms.new.nodes) }
    ensures same { IfOk result (λ t. says (rules_in rules.now) terms.old.shapes terms.old.decls (instance_in terms.old member.now) ≡ Some (tree terms.new t)) }
    ensures truth { IfOk result (λ t. is_truth terms.old.shapes terms.old.decls (tree terms.new t) ≡ true) }
    ensures grows { Extends terms.old terms.new }
{
    rules.law_rules();
    match instance(alloc, terms, rules, member.rule, member.values.as_slice()) {
        Ok(Some(t)) => Ok(t),
        Ok(None) => Err(TermFault::Memory),
        Err(fault) => Err(fault),
    }
}

// Puts a term behind others.
fn push(made: &mut Vec<TermId>, t: TermId) -> Result<(), AllocError>
    ensures { OnOk result (made.new.items ≡ made.old.items ++ t ∷ []) }
{
    made.push(t)?;
    Ok(())
}

/// What rules say of the terms of instances, in order. There is no memory where one says nothing.
pub(crate) fn say(
    alloc: Global,
    rules: &Rules,
    terms: &mut Terms,
    members: &[Instance],
) -> Result<Vec<TermId>, TermFault>
    requires members { InstancesIn terms.old members.now }
    requires shapes { rules.now.arena.shapes ≡ terms.old.shapes }
    requires decls { rules.now.arena.decls ≡ terms.old.decls }
    ensures said { IfOk result (λ made. AreSaid (rules_in rules.now) terms.old members.now terms.new made.items) }
    ensures grows { Extends terms.old terms.new }
{
    let mut made = Vec::new(alloc);
    for member in members {
        let t = say_one(alloc, rules, terms, member)?;
        push(&mut made, t)?;
    }
    Ok(made)
}
