// Whole texts, typed.

ghost use Rattle.std.specs.Prelude.{◌≡◌, None, IfErr, IfOk, IsTrue, Ok};
ghost use Rattle.spv_program.specs.Statements.{Assert};
ghost use Rattle.spv_tree.specs.syntax.Reads.{well_formed};
ghost use Rattle.spv_program.specs.typed.FormulaViews.{annotation_of};
ghost use Rattle.spv_program.specs.typed.ProgramViews.{main_of};
ghost use Rattle.spv_typing.specs.Known.{known_in};
ghost use Rattle.spv_typing.specs.ProgramWalk.{formula_text_walk, program_walk, titles_of};
ghost use Rattle.spv_environments.specs.Answers.{Stops};
ghost use Rattle.spv_types.specs.Walks.{formula_parts_walk, parts_walk};

use crate::main_block::{annotation_at_top, main_block};
use crate::program::Typed;
use crate::titles::titles;
use spv_declaration_typing::declarations;
use spv_environments::{Known, KnownNames};
use spv_logic::list::List;
use spv_logic::names::{Names, Symbol};
use spv_program::typed::{Annotation, Main, Program, Statement, StatementForm};
use spv_routine_typing::routines;
use spv_tree::syntax::FormulaText;
use spv_type_soundness::well_typed_programs::law_programs;
use spv_typing::TypeFault;
use std::alloc::{AllocError, Global};

// What stands behind the declarations of a program: routines, ENTRY, EXIT and the main block.
#[tactic(auto, using(crate::proofs::Whole::parts_made, crate::proofs::Whole::parts_stop_at_declarations, crate::proofs::Whole::parts_stop_at_routines, crate::proofs::Whole::parts_stop_at_main))]
fn parts(
    known: &mut Known,
    alloc: Global,
    tree: &spv_tree::syntax::Program,
) -> Result<Main, TypeFault>
    ensures ok { IfOk result (λ m. parts_walk known.old tree.now ≡ Ok (record { known = known.new; main = main_of m })) }
    ensures err { IfErr result (λ e. Stops e (parts_walk known.old tree.now)) }
{
    declarations(known, alloc, &tree.declarations)?;
    routines(known, alloc, tree.routines.as_slice())?;
    main_block(known, alloc, tree)
}

// The titles of the types that are known.
fn known_titles(
    alloc: Global,
    known: &Known,
    names: &Names,
) -> Result<List<Option<Symbol>>, AllocError>
    ensures { IfOk result (λ l. l ≡ titles_of (known_in names.now) known.now.program) }
{
    titles(alloc, &KnownNames::of(names), known.types(), known.forms())
}

// What a program ends with: the titles of its types, and its main block.
fn ends(
    known: &mut Known,
    alloc: Global,
    names: &Names,
    tree: &spv_tree::syntax::Program,
) -> Result<(List<Option<Symbol>>, Main), TypeFault>
    ensures ok { IfOk result (λ e. parts_walk known.old tree.now ≡ Ok (record { known = known.new; main = main_of e.1 })) }
    ensures titles { IfOk result (λ e. e.0 ≡ titles_of (known_in names.now) known.new.program) }
    ensures err { IfErr result (λ e. Stops e (parts_walk known.old tree.now)) }
{
    let main = parts(known, alloc, tree)?;
    let titles = known_titles(alloc, known, names)?;
    Ok((titles, main))
}

// The program of a text's tree.
#[tactic(auto, using(crate::proofs::Whole::program_made, crate::proofs::Whole::program_stops))]
fn walked(
    alloc: Global,
    tree: &spv_tree::syntax::Program,
    names: &Names,
) -> Result<Program, TypeFault>
    ensures ok { IfOk result (λ p. program_walk (known_in names.now) tree.now ≡ Ok p) }
    ensures err { IfErr result (λ e. Stops e (program_walk (known_in names.now) tree.now)) }
{
    let mut known = Known::new(alloc, names)?;
    match ends(&mut known, alloc, names, tree) {
        Ok((titles, main)) => Ok(known.into_program(alloc, titles, main)?),
        Err(fault) => Err(fault),
    }
}

/// The typed program of a text's tree, which is well formed, as each tree is that a reading answers: each routine in it that begins
/// ends. Or the first fault of names and types, in the order of the text. Memory: there was not enough of it.
#[tactic(auto, using(crate::proofs::Whole::is_well_typed))]
pub fn typed(
    alloc: Global,
    tree: &spv_tree::syntax::Program,
    names: &Names,
) -> Result<Typed, TypeFault>
    requires formed { IsTrue (well_formed tree.now) }
    ensures ok { IfOk result (λ t. program_walk (known_in names.now) tree.now ≡ Ok t) }
    ensures err { IfErr result (λ e. Stops e (program_walk (known_in names.now) tree.now)) }
{
    law_programs();
    let program = walked(alloc, tree, names)?;
    Ok(Typed::of(program))
}

// The main block of a formula text: its one ASSERT.
fn asserted(alloc: Global, formula: Annotation) -> Result<Main, AllocError>
    ensures { IfOk result (λ m. main_of m ≡ record { entry = None; exit = None; body = Assert (annotation_of formula) }) }
{
    let formula = Box::new(alloc, formula)?;
    Ok(Main {
        entry: None,
        exit: None,
        body: Statement {
            form: StatementForm::Assert(formula),
        },
    })
}

// The declarations of a formula text, and its one ASSERT as a main block.
#[tactic(auto, using(crate::proofs::Whole::formula_parts_made, crate::proofs::Whole::formula_parts_stop_at_declarations, crate::proofs::Whole::formula_parts_stop))]
fn formula_parts(known: &mut Known, alloc: Global, tree: &FormulaText) -> Result<Main, TypeFault>
    ensures ok { IfOk result (λ m. formula_parts_walk known.old tree.now ≡ Ok (record { known = known.new; main = main_of m })) }
    ensures err { IfErr result (λ e. Stops e (formula_parts_walk known.old tree.now)) }
{
    declarations(known, alloc, &tree.declarations)?;
    let formula = annotation_at_top(known, alloc, &tree.formula)?;
    Ok(asserted(alloc, formula)?)
}

// What the program of a formula text ends with.
fn formula_ends(
    known: &mut Known,
    alloc: Global,
    names: &Names,
    tree: &FormulaText,
) -> Result<(List<Option<Symbol>>, Main), TypeFault>
    ensures ok { IfOk result (λ e. formula_parts_walk known.old tree.now ≡ Ok (record { known = known.new; main = main_of e.1 })) }
    ensures titles { IfOk result (λ e. e.0 ≡ titles_of (known_in names.now) known.new.program) }
    ensures err { IfErr result (λ e. Stops e (formula_parts_walk known.old tree.now)) }
{
    let main = formula_parts(known, alloc, tree)?;
    let titles = known_titles(alloc, known, names)?;
    Ok((titles, main))
}

// The program of a formula text's tree.
#[tactic(auto, using(crate::proofs::Whole::formula_program_made, crate::proofs::Whole::formula_program_stops))]
fn formula_walked(alloc: Global, tree: &FormulaText, names: &Names) -> Result<Program, TypeFault>
    ensures ok { IfOk result (λ p. formula_text_walk (known_in names.now) tree.now ≡ Ok p) }
    ensures err { IfErr result (λ e. Stops e (formula_text_walk (known_in names.now) tree.now)) }
{
    let mut known = Known::new(alloc, names)?;
    match formula_ends(&mut known, alloc, names, tree) {
        Ok((titles, main)) => Ok(known.into_program(alloc, titles, main)?),
        Err(fault) => Err(fault),
    }
}

/// The typed program whose main block is the one ASSERT of a formula text, or the first fault of names and types, in the
/// order of the text. Memory: there was not enough of it.
pub fn typed_formula(alloc: Global, tree: &FormulaText, names: &Names) -> Result<Typed, TypeFault>
    ensures ok { IfOk result (λ t. formula_text_walk (known_in names.now) tree.now ≡ Ok t) }
    ensures err { IfErr result (λ e. Stops e (formula_text_walk (known_in names.now) tree.now)) }
{
    law_programs();
    let program = formula_walked(alloc, tree, names)?;
    Ok(Typed::of(program))
}
