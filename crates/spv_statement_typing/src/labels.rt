// The labels of a CASE.

ghost use Rattle.std.specs.Prelude.{◌≡◌, ◌++◌, ◌∷◌, [], IfOk, IfErr, OnOk, Ok, false};
ghost use Rattle.std.specs.List.{list_any};
ghost use Rattle.std.specs.Ordering.{int_eq};
ghost use Rattle.spv_typing.specs.StatementWalk as spec;
ghost use Rattle.spv_environments.specs.Answers.{Stops};
ghost use Rattle.spv_environments.specs.Scopes.{scope_of};

use spv_declaration_typing::type_typing::constant;
use spv_environments::Scope;
use spv_logic::list::List;
use spv_tree::syntax::{Constant, Several};
use spv_typing::TypeFault;
use std::alloc::{AllocError, Global};
use std::collections::BTreeSet;
use std::marker::Model;

/// Numbers, each once, in the order in which they were added. A look-up goes by the order of the numbers, so that no
/// choice of labels makes it long.
#[derive(Drop)]
pub(crate) struct LabelSet {
    listed: Vec<i64>,
    sorted: BTreeSet<i64>,
}

impl Model for LabelSet {
    ghost use Rattle.std.specs.Prelude.{List, ℤ};
    ghost use Rattle.spv_statement_typing.specs.Labels.{AreThose};

    ghost Value = { List ℤ };

    ghost view = { λ l. l.listed.items };

    ghost invariant = { λ l. AreThose l.sorted l.listed.items };
}

impl LabelSet {
    // No numbers.
    pub(crate) fn new(alloc: Global) -> LabelSet
        ensures { result ≡ [] }
    {
        LabelSet {
            listed: Vec::new(alloc),
            sorted: BTreeSet::new(alloc),
        }
    }

    // Whether a number is among them.
    fn has(&self, z: i64) -> bool
        ensures { result ≡ list_any (int_eq z) self.now }
    {
        self.sorted.contains(&z)
    }

    // Puts a number that is new at the end.
    fn add(&mut self, z: i64) -> Result<(), AllocError>
        requires { list_any (int_eq z) self.old ≡ false }
        ensures { OnOk result (self.new ≡ self.old ++ z ∷ []) }
    {
        self.listed.reserve(1)?;
        let _new = self.sorted.insert(z)?;
        self.listed.push(z).unwrap();
        Ok(())
    }
}

// One more label, which differs from those before.
fn label(scope: &Scope<'_, '_>, seen: &mut LabelSet, tree: &Constant) -> Result<i64, TypeFault>
    ensures ok { IfOk result (λ z. spec.new_label (scope_of scope.now) seen.old tree.now ≡ Ok seen.new) }
    ensures added { IfOk result (λ z. seen.new ≡ seen.old ++ z ∷ []) }
    ensures err { IfErr result (λ e. Stops e (spec.new_label (scope_of scope.now) seen.old tree.now)) }
{
    let z = constant(scope, tree)?;
    if seen.has(z) {
        return Err(TypeFault::LabelTwice(tree.line, z));
    }
    seen.add(z)?;
    Ok(z)
}

/// The labels of an arm, which differ from one another and from those of the arms before.
pub(crate) fn arm_labels(
    scope: &Scope<'_, '_>,
    alloc: Global,
    seen: &mut LabelSet,
    trees: &Several<Constant>,
) -> Result<List<i64>, TypeFault>
    ensures ok { IfOk result (λ own. spec.new_labels (scope_of scope.now) seen.old trees.now ≡ Ok seen.new) }
    ensures added { IfOk result (λ own. seen.new ≡ seen.old ++ own) }
    ensures err { IfErr result (λ e. Stops e (spec.new_labels (scope_of scope.now) seen.old trees.now)) }
{
    let mut own = List::new(alloc);
    let first = label(scope, seen, &trees.first)?;
    own.push(first)?;
    for other in trees.more.as_slice() {
        let next = label(scope, seen, other)?;
        own.push(next)?;
    }
    Ok(own)
}
