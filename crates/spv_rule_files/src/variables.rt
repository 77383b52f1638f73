// The variables of a rule file.

ghost use Rattle.std.specs.Prelude.{◌≡◌, [], IfOk, IfErr, OnOk, Ok, option_map};
ghost use Rattle.spv_program.specs.Lists.{found};
ghost use Rattle.spv_typing.specs.DeclarationWalk.{new_name, class_named, sort_named};
ghost use Rattle.spv_typing.specs.Known.{meaning};
ghost use Rattle.spv_typing.specs.Outcomes.{each};
ghost use Rattle.spv_typing.specs.TypeWalk.{all_names};
ghost use Rattle.spv_environments.specs.Answers.{Stops};
ghost use Rattle.spv_environments.specs.Scopes.{meaning_of};
ghost use Rattle.spv_declaration_typing.specs.type_typing.Names.{only_names};
ghost use Rattle.spv_rule_files.specs.Scopes.{is_free_variable, rule_scope};
ghost use Rattle.spv_rule_files.specs.Variables as spec;
ghost use Rattle.spv_rule_files.specs.VariableNames.{AllNew};

use spv_declaration_typing::type_typing::{Free, new_names};
use spv_environments::{Known, Meaning};
use spv_logic::names::Symbol;
use spv_logic::{Sort, TypeId};
use spv_program::ordered_map::Named;
use spv_tree::syntax::{Name, NameOrClass, RuleVars, Several, SortName};
use spv_typing::TypeFault;
use std::alloc::Global;

// The names that a further variable may have.
#[derive(Clone, Copy)]
struct FreeVariables<'k, 'v> {
    known: &'k Known,
    vars: &'v Named<Sort>,
}

impl<'k, 'v> Free for FreeVariables<'k, 'v> {
    ghost use Rattle.spv_rule_files.specs.Scopes.{is_free_variable};

    ghost free = { λ f x. is_free_variable f.known.now f.vars.now x };

    fn is_free(&self, x: Symbol) -> bool {
        let known = self.known;
        let vars = self.vars;
        known.is_free(x) && !vars.has(x)
    }
}

// What a name stands for, where the variables are these.
#[tactic(auto, using(crate::proofs::Meanings::variable_found, crate::proofs::Meanings::variable_missing))]
fn meaning_in<'k>(known: &'k Known, vars: &Named<Sort>, x: Symbol) -> Option<Meaning<'k>>
    ensures { option_map meaning_of result ≡ meaning (rule_scope known.now vars.now) x }
{
    match vars.get(x) {
        Some(sort) => Some(Meaning::Start(*sort)),
        None => known.meaning(x),
    }
}

fn sort_of_name(known: &Known, vars: &Named<Sort>, line: u32, x: Name) -> Result<Sort, TypeFault>
    ensures ok { IfOk result (λ s. sort_named known.now.program.forms line x (meaning (rule_scope known.now vars.now) x.symbol) ≡ Ok s) }
    ensures err { IfErr result (λ e. Stops e (sort_named known.now.program.forms line x (meaning (rule_scope known.now vars.now) x.symbol))) }
{
    match meaning_in(known, vars, x.symbol) {
        Some(Meaning::Type(t)) => Ok(known.sort_of(t)),
        Some(Meaning::List) => Ok(Sort::List),
        Some(_) => Err(TypeFault::WrongType(line)),
        None => Err(TypeFault::Undeclared(x.line, x.symbol)),
    }
}

fn class_of_name(known: &Known, vars: &Named<Sort>, line: u32, x: Name) -> Result<TypeId, TypeFault>
    ensures ok { IfOk result (λ t. class_named line x (meaning (rule_scope known.now vars.now) x.symbol) ≡ Ok t) }
    ensures err { IfErr result (λ e. Stops e (class_named line x (meaning (rule_scope known.now vars.now) x.symbol))) }
{
    match meaning_in(known, vars, x.symbol) {
        Some(Meaning::Type(t)) => Ok(t),
        Some(_) => Err(TypeFault::WrongType(line)),
        None => Err(TypeFault::Undeclared(x.line, x.symbol)),
    }
}

fn sort_in(known: &Known, vars: &Named<Sort>, tree: SortName) -> Result<Sort, TypeFault>
    ensures ok { IfOk result (λ s. spec.sort_in (rule_scope known.now vars.now) tree ≡ Ok s) }
    ensures err { IfErr result (λ e. Stops e (spec.sort_in (rule_scope known.now vars.now) tree)) }
{
    match tree.form {
        NameOrClass::Name(x) => sort_of_name(known, vars, tree.line, x),
        NameOrClass::Class(x) => {
            let t = class_of_name(known, vars, tree.line, x)?;
            Ok(Sort::Class(t))
        }
    }
}

// The names of further variables, each new.
fn names_of(
    known: &Known,
    alloc: Global,
    vars: &Named<Sort>,
    tree: &Several<Name>,
) -> Result<Named<u32>, TypeFault>
    ensures ok { IfOk result (λ n. each (new_name (is_free_variable known.now vars.now)) [] (all_names tree.now) ≡ Ok (only_names n)) }
    ensures err { IfErr result (λ e. Stops e (each (new_name (is_free_variable known.now vars.now)) [] (all_names tree.now))) }
    ensures new { IfOk result (λ n. AllNew vars.now n) }
{
    new_names(&FreeVariables { known, vars }, alloc, tree)
}

// The variables with those of one line more.
fn variables_walk(
    known: &Known,
    alloc: Global,
    vars: &mut Named<Sort>,
    tree: &RuleVars,
) -> Result<(), TypeFault>
    ensures ok { OnOk result (spec.variables_walk known.now vars.old tree.now ≡ Ok vars.new) }
    ensures err { IfErr result (λ e. Stops e (spec.variables_walk known.now vars.old tree.now)) }
{
    let names = names_of(known, alloc, vars, &tree.names)?;
    let sort = sort_in(known, vars, tree.sort)?;
    vars.put_names(&names, sort)?;
    Ok(())
}

// The variables of a rule file with their sorts.
pub(crate) fn variables(
    known: &Known,
    alloc: Global,
    trees: &[RuleVars],
) -> Result<Named<Sort>, TypeFault>
    ensures ok { IfOk result (λ v. each (spec.variables_walk known.now) [] trees.now ≡ Ok v) }
    ensures err { IfErr result (λ e. Stops e (each (spec.variables_walk known.now) [] trees.now)) }
{
    let mut vars = Named::new(alloc);
    for tree in trees {
        variables_walk(known, alloc, &mut vars, tree)?;
    }
    Ok(vars)
}
