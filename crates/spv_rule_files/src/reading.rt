// Rules, read one after the other.

ghost use Rattle.std.specs.Prelude.{◌≡◌, [], ◌∷◌, ◌++◌, Ok, IfOk, IfErr, OnOk};
ghost use Rattle.spv_typing.specs.Known.{known_in};
ghost use Rattle.spv_typing.specs.Outcomes.{if_there};
ghost use Rattle.spv_environments.specs.Answers.{Stops};
ghost use Rattle.spv_environments.specs.Scopes.{scope_of};
ghost use Rattle.spv_formula_typing.specs.Operands.{operand_of};
ghost use Rattle.spv_rule_files.specs.Outcomes.{each_rule, RuleStops};
ghost use Rattle.spv_rule_files.specs.Scopes.{rule_scope};
ghost use Rattle.spv_rule_files.specs.Triggers as triggers;
ghost use Rattle.spv_rule_files.specs.Rules as spec;

use crate::faults::{RuleFault, rule_fault};
use crate::forms::RuleForms;
use crate::names::rule_known;
use crate::rules::{RuleForm, Said, TypedRule};
use crate::scopes::starts;
use crate::triggers::{first_unbound, names_in, trigger, variables_of};
use crate::variables::variables;
use spv_annotation_typing::{Annotations, settled_formula};
use spv_environments::{Known, Scope};
use spv_formula_typing::{Operand, formula};
use spv_logic::Sort;
use spv_logic::list::List;
use spv_logic::names::Names;
use spv_program::ordered_map::Named;
use spv_program::typed::{Formula, Program};
use spv_tree::syntax::{Name, Rule, RuleTree};
use spv_typing::TypeFault;
use std::alloc::{AllocError, Global};

// A formula that may be of any sort.
fn side(
    forms: &RuleForms<'_, '_>,
    alloc: Global,
    tree: &spv_tree::syntax::Formula,
) -> Result<Operand<Formula>, TypeFault>
    ensures ok { IfOk result (λ o. spec.side (scope_of forms.now.annotations.scope) tree.now ≡ Ok (operand_of o)) }
    ensures err { IfErr result (λ e. Stops e (spec.side (scope_of forms.now.annotations.scope) tree.now)) }
{
    formula(forms, alloc, tree)
}

// A truth value.
fn truth(
    forms: &RuleForms<'_, '_>,
    alloc: Global,
    tree: &spv_tree::syntax::Formula,
) -> Result<Formula, TypeFault>
    ensures ok { IfOk result (λ f. spec.truth (scope_of forms.now.annotations.scope) tree.now ≡ Ok f) }
    ensures err { IfErr result (λ e. Stops e (spec.truth (scope_of forms.now.annotations.scope) tree.now)) }
{
    let line = tree.line();
    let operand = side(forms, alloc, tree)?;
    settled_formula(line, Sort::Bool, operand)
}

// A truth value, where there is one.
fn guard(
    forms: &RuleForms<'_, '_>,
    alloc: Global,
    tree: &Option<spv_tree::syntax::Formula>,
) -> Result<Option<Formula>, TypeFault>
    ensures ok { IfOk result (λ o. if_there (spec.truth (scope_of forms.now.annotations.scope)) tree.now ≡ Ok o) }
    ensures err { IfErr result (λ e. Stops e (if_there (spec.truth (scope_of forms.now.annotations.scope)) tree.now)) }
{
    match tree {
        None => Ok(None),
        Some(tree) => {
            let made = truth(forms, alloc, tree)?;
            Ok(Some(made))
        }
    }
}

// Two sides of one sort.
fn sides(line: u32, a: Operand<Formula>, b: Operand<Formula>) -> Result<RuleForm, TypeFault>
    ensures ok { IfOk result (λ f. spec.sides line (operand_of a) (operand_of b) ≡ Ok f) }
    ensures err { IfErr result (λ e. Stops e (spec.sides line (operand_of a) (operand_of b))) }
{
    match (a, b) {
        (Operand::Of(x, sort), b) => {
            let y = settled_formula(line, sort, b)?;
            Ok(RuleForm::Replace(x, y))
        }
        (Operand::Nil(at), Operand::Of(y, sort)) => {
            let x = settled_formula(line, sort, Operand::Nil(at))?;
            Ok(RuleForm::Replace(x, y))
        }
        (Operand::Nil(_), Operand::Nil(_)) => Err(TypeFault::WrongType(line)),
    }
}

// What REPLACE says.
fn replaced(
    forms: &RuleForms<'_, '_>,
    alloc: Global,
    line: u32,
    left: &spv_tree::syntax::Formula,
    right: &spv_tree::syntax::Formula,
) -> Result<RuleForm, TypeFault>
    ensures ok { IfOk result (λ f. spec.replaced (scope_of forms.now.annotations.scope) line left.now right.now ≡ Ok f) }
    ensures err { IfErr result (λ e. Stops e (spec.replaced (scope_of forms.now.annotations.scope) line left.now right.now)) }
{
    let a = side(forms, alloc, left)?;
    let b = side(forms, alloc, right)?;
    sides(line, a, b)
}

// What a rule says, without its condition.
fn says(
    forms: &RuleForms<'_, '_>,
    alloc: Global,
    line: u32,
    tree: &spv_tree::syntax::RuleForm,
) -> Result<RuleForm, TypeFault>
    ensures ok { IfOk result (λ f. spec.says_walk (scope_of forms.now.annotations.scope) line tree.now ≡ Ok f) }
    ensures err { IfErr result (λ e. Stops e (spec.says_walk (scope_of forms.now.annotations.scope) line tree.now)) }
{
    match tree {
        spv_tree::syntax::RuleForm::Replace(left, right, _) => {
            replaced(forms, alloc, line, left, right)
        }
        spv_tree::syntax::RuleForm::Infer(inferred, _) => {
            let made = truth(forms, alloc, inferred)?;
            Ok(RuleForm::Infer(made))
        }
    }
}

// The tree of a rule's condition.
fn guard_tree(tree: &spv_tree::syntax::RuleForm) -> &Option<spv_tree::syntax::Formula>
    ensures { result.now ≡ spec.guard_of tree.now }
{
    match tree {
        spv_tree::syntax::RuleForm::Replace(_, _, guard) => guard,
        spv_tree::syntax::RuleForm::Infer(_, guard) => guard,
    }
}

// What a rule says, and under which condition.
fn said(
    forms: &RuleForms<'_, '_>,
    alloc: Global,
    line: u32,
    tree: &spv_tree::syntax::RuleForm,
) -> Result<Said, TypeFault>
    ensures ok { IfOk result (λ s. spec.form_walk (scope_of forms.now.annotations.scope) line tree.now ≡ Ok s) }
    ensures err { IfErr result (λ e. Stops e (spec.form_walk (scope_of forms.now.annotations.scope) line tree.now)) }
{
    let form = says(forms, alloc, line, tree)?;
    let guard = guard(forms, alloc, guard_tree(tree))?;
    Ok(Said { form, guard })
}

impl RuleForm {
    /// The formula that has the trigger: the left side, or what is inferred.
    pub fn leading(&self) -> &Formula
        ensures { result.now ≡ spec.leading self.now }
    {
        match self {
            RuleForm::Replace(left, _) => left,
            RuleForm::Infer(inferred) => inferred,
        }
    }
}

// The variables of a rule's trigger.
fn trigger_variables(
    alloc: Global,
    line: u32,
    vars: &Named<Sort>,
    leading: &Formula,
) -> Result<Named<Sort>, TypeFault>
    ensures ok { IfOk result (λ v. spec.trigger_variables line vars.now (triggers.trigger_in leading.now) ≡ Ok v) }
    ensures err { IfErr result (λ e. Stops e (spec.trigger_variables line vars.now (triggers.trigger_in leading.now))) }
{
    match trigger(leading) {
        None => Err(TypeFault::WrongType(line)),
        Some(found) => Ok(variables_of(alloc, vars, found)?),
    }
}

// A rule, but for variables that are not in its trigger.
fn typed_rule(
    forms: &RuleForms<'_, '_>,
    alloc: Global,
    vars: &Named<Sort>,
    tree: &Rule,
) -> Result<TypedRule, TypeFault>
    ensures ok { IfOk result (λ r. spec.typed_rule (scope_of forms.now.annotations.scope) vars.now tree.now ≡ Ok r) }
    ensures err { IfErr result (λ e. Stops e (spec.typed_rule (scope_of forms.now.annotations.scope) vars.now tree.now)) }
{
    let Said { form, guard } = said(forms, alloc, tree.line, &tree.form)?;
    let variables = trigger_variables(alloc, tree.line, vars, form.leading())?;
    Ok(TypedRule {
        form,
        guard,
        variables,
    })
}

// Puts the names in what a rule says behind others.
fn form_names(names: &mut Vec<Name>, form: &RuleForm) -> Result<(), AllocError>
    ensures { OnOk result (names.new.items ≡ spec.form_names names.old.items form.now) }
{
    match form {
        RuleForm::Replace(left, right) => {
            names_in(names, left)?;
            names_in(names, right)
        }
        RuleForm::Infer(inferred) => names_in(names, inferred),
    }
}

// Puts the names in a rule's condition behind others.
fn guard_names(names: &mut Vec<Name>, guard: &Option<Formula>) -> Result<(), AllocError>
    ensures { OnOk result (names.new.items ≡ spec.guard_names names.old.items guard.now) }
{
    match guard {
        None => Ok(()),
        Some(guard) => names_in(names, guard),
    }
}

// The first variable of a rule that is not in its trigger.
fn unbound(alloc: Global, rule: &TypedRule) -> Result<Option<Name>, AllocError>
    ensures { IfOk result (λ o. o ≡ triggers.first_unbound rule.now.variables (spec.rule_names rule.now)) }
{
    let mut names = Vec::new(alloc);
    form_names(&mut names, &rule.form)?;
    guard_names(&mut names, &rule.guard)?;
    Ok(first_unbound(&rule.variables, names.as_slice()))
}

// A rule whose names and types are right, where each of its variables is in its trigger.
fn bound_rule(alloc: Global, rule: TypedRule) -> Result<TypedRule, RuleFault>
    ensures ok { IfOk result (λ r. spec.bound_rule rule ≡ Ok r) }
    ensures err { IfErr result (λ e. RuleStops e (spec.bound_rule rule)) }
{
    let unbound = unbound(alloc, &rule)?;
    match unbound {
        None => Ok(rule),
        Some(x) => Err(RuleFault::Unbound(x.line, x.symbol)),
    }
}

// A rule.
fn rule_walk(
    forms: &RuleForms<'_, '_>,
    alloc: Global,
    vars: &Named<Sort>,
    tree: &Rule,
) -> Result<TypedRule, RuleFault>
    ensures ok { IfOk result (λ r. spec.rule_walk (scope_of forms.now.annotations.scope) vars.now tree.now ≡ Ok r) }
    ensures err { IfErr result (λ e. RuleStops e (spec.rule_walk (scope_of forms.now.annotations.scope) vars.now tree.now)) }
{
    match typed_rule(forms, alloc, vars, tree) {
        Ok(rule) => bound_rule(alloc, rule),
        Err(fault) => Err(rule_fault(fault)),
    }
}

// One rule more behind others.
fn one_more(
    forms: &RuleForms<'_, '_>,
    alloc: Global,
    vars: &Named<Sort>,
    rules: &mut List<TypedRule>,
    tree: &Rule,
) -> Result<(), RuleFault>
    ensures ok { OnOk result (spec.one_more (scope_of forms.now.annotations.scope) vars.now rules.old tree.now ≡ Ok rules.new) }
    ensures err { IfErr result (λ e. RuleStops e (spec.one_more (scope_of forms.now.annotations.scope) vars.now rules.old tree.now)) }
{
    let rule = rule_walk(forms, alloc, vars, tree)?;
    rules.push(rule)?;
    Ok(())
}

// The rules, in order.
fn all_rules(
    forms: &RuleForms<'_, '_>,
    alloc: Global,
    vars: &Named<Sort>,
    trees: &[Rule],
) -> Result<List<TypedRule>, RuleFault>
    ensures ok { IfOk result (λ l. each_rule (spec.one_more (scope_of forms.now.annotations.scope) vars.now) [] trees.now ≡ Ok l) }
    ensures err { IfErr result (λ e. RuleStops e (each_rule (spec.one_more (scope_of forms.now.annotations.scope) vars.now) [] trees.now)) }
{
    let mut rules = List::new(alloc);
    for tree in trees {
        one_more(forms, alloc, vars, &mut rules, tree)?;
    }
    Ok(rules)
}

// The rules of a file with these variables.
fn rules_in(
    known: &Known,
    alloc: Global,
    vars: &Named<Sort>,
    trees: &[Rule],
) -> Result<List<TypedRule>, RuleFault>
    ensures ok { IfOk result (λ l. each_rule (spec.one_more (rule_scope known.now vars.now) vars.now) [] trees.now ≡ Ok l) }
    ensures err { IfErr result (λ e. RuleStops e (each_rule (spec.one_more (rule_scope known.now vars.now) vars.now) [] trees.now)) }
{
    let none = Named::new(alloc);
    let own = starts(alloc, vars)?;
    let scope = Scope {
        known,
        parameters: &none,
        result: None,
        own: &own,
        routine: None,
    };
    let forms = RuleForms {
        annotations: Annotations { scope },
    };
    all_rules(&forms, alloc, vars, trees)
}

// The rules of a file, where this is known of the program.
fn file_walk(known: &Known, alloc: Global, tree: &RuleTree) -> Result<List<TypedRule>, RuleFault>
    ensures ok { IfOk result (λ l. spec.file_walk known.now tree.now ≡ Ok l) }
    ensures err { IfErr result (λ e. RuleStops e (spec.file_walk known.now tree.now)) }
{
    match variables(known, alloc, tree.variables.as_slice()) {
        Ok(vars) => rules_in(known, alloc, &vars, tree.rules.as_slice()),
        Err(fault) => Err(rule_fault(fault)),
    }
}

/// The rules of a rule file for a program, with each name resolved, or the first fault in the order of the text: of names and types, or
/// of a variable that is not in its rule's trigger. The names are those of the program's text and perhaps more behind them. Memory:
/// there was not enough of it.
pub fn read(
    alloc: Global,
    tree: &RuleTree,
    program: &Program,
    names: &Names,
) -> Result<List<TypedRule>, RuleFault>
    ensures ok { IfOk result (λ l. spec.rules_walk (known_in names.now) program.now tree.now ≡ Ok l) }
    ensures err { IfErr result (λ e. RuleStops e (spec.rules_walk (known_in names.now) program.now tree.now)) }
{
    let known = rule_known(alloc, names, program)?;
    file_walk(&known, alloc, tree)
}
