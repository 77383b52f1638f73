// ENTRY, EXIT and the main block.

ghost use Rattle.std.specs.Prelude.{◌≡◌, IfErr, IfOk, Ok, option_map};
ghost use Rattle.spv_program.specs.typed.FormulaViews.{annotation_of};
ghost use Rattle.spv_program.specs.typed.ProgramViews.{main_of};
ghost use Rattle.spv_typing.specs.FormulaWalk as formula;
ghost use Rattle.spv_typing.specs.Known.{at_top};
ghost use Rattle.spv_typing.specs.Outcomes.{if_there};
ghost use Rattle.spv_typing.specs.ProgramWalk.{main_setting};
ghost use Rattle.spv_typing.specs.StatementWalk.{block_walk};
ghost use Rattle.spv_environments.specs.Answers.{Stops};
ghost use Rattle.spv_types.specs.Walks.{main_walk};

use spv_annotation_typing::annotation;
use spv_environments::{Known, Own, Scope};
use spv_program::ordered_map::Named;
use spv_program::typed::{Annotation, Main, Statement};
use spv_statement_typing::{Setting, block};
use spv_tree::syntax::{Block, Formula, Program};
use spv_typing::TypeFault;
use std::alloc::Global;

/// An annotation of the program.
pub(crate) fn annotation_at_top(
    known: &Known,
    alloc: Global,
    tree: &Formula,
) -> Result<Annotation, TypeFault>
    ensures ok { IfOk result (λ a. formula.annotation (at_top known.now) tree.now ≡ Ok (annotation_of a)) }
    ensures err { IfErr result (λ e. Stops e (formula.annotation (at_top known.now) tree.now)) }
{
    let none: Named<Own> = Named::new(alloc);
    let scope = Scope {
        known,
        parameters: &none,
        result: None,
        own: &none,
        routine: None,
    };
    annotation(&scope, alloc, tree)
}

fn annotation_if_there(
    known: &Known,
    alloc: Global,
    tree: &Option<Formula>,
) -> Result<Option<Annotation>, TypeFault>
    ensures ok { IfOk result (λ o. if_there (formula.annotation (at_top known.now)) tree.now ≡ Ok (option_map annotation_of o)) }
    ensures err { IfErr result (λ e. Stops e (if_there (formula.annotation (at_top known.now)) tree.now)) }
{
    match tree {
        None => Ok(None),
        Some(tree) => {
            let made = annotation_at_top(known, alloc, tree)?;
            Ok(Some(made))
        }
    }
}

fn block_at_top(known: &Known, alloc: Global, tree: &Block) -> Result<Statement, TypeFault>
    ensures ok { IfOk result (λ s. block_walk (main_setting known.now) tree.now ≡ Ok s) }
    ensures err { IfErr result (λ e. Stops e (block_walk (main_setting known.now) tree.now)) }
{
    let none: Named<Own> = Named::new(alloc);
    let scope = Scope {
        known,
        parameters: &none,
        result: None,
        own: &none,
        routine: None,
    };
    let setting = Setting {
        inside: scope,
        noted: scope,
        counted: &[],
    };
    block(&setting, alloc, tree)
}

/// The main block of a program whose routines are known.
pub(crate) fn main_block(known: &Known, alloc: Global, tree: &Program) -> Result<Main, TypeFault>
    ensures ok { IfOk result (λ m. main_walk known.now tree.now ≡ Ok (main_of m)) }
    ensures err { IfErr result (λ e. Stops e (main_walk known.now tree.now)) }
{
    let entry = annotation_if_there(known, alloc, &tree.entry)?;
    let exit = annotation_if_there(known, alloc, &tree.exit)?;
    known.none_awaited()?;
    let body = block_at_top(known, alloc, &tree.block)?;
    Ok(Main { entry, exit, body })
}
