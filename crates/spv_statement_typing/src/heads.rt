// Tests, what a CASE is about, and the heads of FORs.

ghost use Rattle.std.specs.Prelude.{◌≡◌, IfOk, IfErr, Ok};
ghost use Rattle.spv_program.specs.Types.{sort_of};
ghost use Rattle.spv_program.specs.typed.StatementViews.{counting_of};
ghost use Rattle.spv_typing.specs.Known.{meaning};
ghost use Rattle.spv_typing.specs.StatementWalk as spec;
ghost use Rattle.spv_environments.specs.Answers.{Stops};
ghost use Rattle.spv_environments.specs.Scopes.{scope_of};
ghost use Rattle.spv_formula_typing.specs.Operands.{operand_of};
ghost use Rattle.spv_statement_typing.specs.Counters.{is_counter};
ghost use Rattle.spv_statement_typing.specs.Parts.{head_kept, head_settled, tested, uncounted};
ghost use Rattle.spv_statement_typing.specs.Settings.{setting_of};

use crate::setting::{Setting, in_box, kept};
use spv_environments::{Meaning, Scope};
use spv_expression_typing::counter_changes::{
    changed_by_head, changed_by_test, is_counted, is_own,
};
use spv_expression_typing::{expression_of, operand, settled_expression};
use spv_formula_typing::Operand;
use spv_logic::names::Symbol;
use spv_logic::{Sort, TypeId};
use spv_program::Direction;
use spv_program::typed::{Counting, Expression};
use spv_tree::syntax::{Formula, Name};
use spv_typing::TypeFault;
use std::alloc::{AllocError, Global};

/// A test, or what a CASE is about.
pub(crate) fn tested(
    setting: &Setting<'_, '_, '_, '_>,
    alloc: Global,
    line: u32,
    wanted: Sort,
    tree: &Formula,
) -> Result<Box<Expression>, TypeFault>
    ensures ok { IfOk result (λ x. tested (setting_of setting.now) line wanted tree.now ≡ Ok x.value) }
    ensures err { IfErr result (λ e. Stops e (tested (setting_of setting.now) line wanted tree.now)) }
{
    let made = expression_of(&setting.inside, alloc, wanted, tree)?;
    let changed = changed_by_test(&setting.inside, alloc, setting.counted, line, &made)?;
    let made = kept(line, changed, made)?;
    Ok(in_box(alloc, made)?)
}

fn direction_of(sign: spv_tree::syntax::Direction) -> Direction
    ensures { result ≡ spec.direction_of sign }
{
    match sign {
        spv_tree::syntax::Direction::Up => Direction::Up,
        spv_tree::syntax::Direction::Down => Direction::Down,
    }
}

// Whether a variable is one that may count: in a routine a local variable or a value parameter.
fn may_count(scope: &Scope<'_, '_>, x: Symbol) -> bool
    ensures { result ≡ spec.may_count (scope_of scope.now) x }
{
    match scope.routine {
        None => true,
        Some((name, heading)) => {
            is_own(scope, x) && !heading.formals.is_by_place(x) && name.0 != x.0
        }
    }
}

fn counter_of_type(scope: &Scope<'_, '_>, x: Name, t: TypeId) -> bool
    ensures { result ≡ is_counter (scope_of scope.now) x.symbol t }
{
    let known = scope.known;
    may_count(scope, x.symbol) && known.sort_of(t) == Sort::Int
}

// What a FOR counts with.
fn counter_of(scope: &Scope<'_, '_>, x: Name) -> Result<(), TypeFault>
    ensures ok { IfOk result (λ u. spec.counter_of (scope_of scope.now) x (meaning (scope_of scope.now) x.symbol) ≡ Ok x) }
    ensures err { IfErr result (λ e. Stops e (spec.counter_of (scope_of scope.now) x (meaning (scope_of scope.now) x.symbol))) }
{
    match scope.meaning(x.symbol) {
        None => Err(TypeFault::Undeclared(x.line, x.symbol)),
        Some(Meaning::Place(t)) => {
            if counter_of_type(scope, x, t) {
                Ok(())
            } else {
                Err(TypeFault::WrongType(x.line))
            }
        }
        Some(Meaning::Type(_)) => Err(TypeFault::WrongType(x.line)),
        Some(Meaning::List) => Err(TypeFault::WrongType(x.line)),
        Some(Meaning::Constant(_)) => Err(TypeFault::WrongType(x.line)),
        Some(Meaning::Start(_)) => Err(TypeFault::WrongType(x.line)),
        Some(Meaning::Declared(_, _)) => Err(TypeFault::WrongType(x.line)),
        Some(Meaning::Routine(_, _)) => Err(TypeFault::WrongType(x.line)),
    }
}

// Whether a variable does not count yet.
fn uncounted(setting: &Setting<'_, '_, '_, '_>, line: u32, x: Name) -> Result<(), TypeFault>
    ensures ok { IfOk result (λ u. uncounted (setting_of setting.now) line x ≡ Ok x) }
    ensures err { IfErr result (λ e. Stops e (uncounted (setting_of setting.now) line x)) }
{
    if is_counted(setting.counted, x.symbol) {
        Err(TypeFault::ControlChanged(line, x.symbol))
    } else {
        Ok(())
    }
}

// The head of a FOR whose ends have their sort; its variable does not count yet, and the ends change none that counts.
fn head_kept(
    setting: &Setting<'_, '_, '_, '_>,
    alloc: Global,
    line: u32,
    x: Name,
    direction: Direction,
    first: Expression,
    last: Expression,
) -> Result<Counting, TypeFault>
    ensures ok { IfOk result (λ c. head_kept (setting_of setting.now) line x direction first last ≡ Ok (counting_of c)) }
    ensures err { IfErr result (λ e. Stops e (head_kept (setting_of setting.now) line x direction first last)) }
{
    uncounted(setting, line, x)?;
    let head = Counting {
        variable: x.symbol,
        direction,
        first,
        last,
    };
    let changed = changed_by_head(&setting.inside, alloc, setting.counted, line, &head)?;
    kept(line, changed, head)
}

fn head_in_box(alloc: Global, head: Counting) -> Result<Box<Counting>, AllocError>
    ensures { IfOk result (λ b. counting_of b.value ≡ counting_of head) }
{
    Ok(Box::new(alloc, head)?)
}

// The same in a box.
fn boxed_head(
    setting: &Setting<'_, '_, '_, '_>,
    alloc: Global,
    line: u32,
    x: Name,
    direction: Direction,
    first: Expression,
    last: Expression,
) -> Result<Box<Counting>, TypeFault>
    ensures ok { IfOk result (λ c. head_kept (setting_of setting.now) line x direction first last ≡ Ok (counting_of c.value)) }
    ensures err { IfErr result (λ e. Stops e (head_kept (setting_of setting.now) line x direction first last)) }
{
    let head = head_kept(setting, alloc, line, x, direction, first, last)?;
    Ok(head_in_box(alloc, head)?)
}

// The head of a FOR whose ends are read, each with its line.
fn head_settled(
    setting: &Setting<'_, '_, '_, '_>,
    alloc: Global,
    line: u32,
    x: Name,
    direction: Direction,
    on: u32,
    a: Operand<Expression>,
    under: u32,
    b: Operand<Expression>,
) -> Result<Box<Counting>, TypeFault>
    ensures ok { IfOk result (λ c. head_settled (setting_of setting.now) line x direction on (operand_of a) under (operand_of b) ≡ Ok (counting_of c.value)) }
    ensures err { IfErr result (λ e. Stops e (head_settled (setting_of setting.now) line x direction on (operand_of a) under (operand_of b))) }
{
    counter_of(&setting.inside, x)?;
    let first = settled_expression(on, Sort::Int, a)?;
    let last = settled_expression(under, Sort::Int, b)?;
    boxed_head(setting, alloc, line, x, direction, first, last)
}

fn declared(scope: &Scope<'_, '_>, x: Name) -> Result<(), TypeFault>
    ensures ok { IfOk result (λ u. spec.is_declared x (meaning (scope_of scope.now) x.symbol) ≡ Ok x) }
    ensures err { IfErr result (λ e. Stops e (spec.is_declared x (meaning (scope_of scope.now) x.symbol))) }
{
    match scope.meaning(x.symbol) {
        Some(_) => Ok(()),
        None => Err(TypeFault::Undeclared(x.line, x.symbol)),
    }
}

/// The head of a FOR: its name first, then its ends, then their types, then whether it counts already.
pub(crate) fn counting(
    setting: &Setting<'_, '_, '_, '_>,
    alloc: Global,
    line: u32,
    x: Name,
    from: &Formula,
    towards: spv_tree::syntax::Direction,
    to: &Formula,
) -> Result<Box<Counting>, TypeFault>
    ensures ok { IfOk result (λ c. spec.counting (setting_of setting.now) line x from.now towards to.now ≡ Ok (counting_of c.value)) }
    ensures err { IfErr result (λ e. Stops e (spec.counting (setting_of setting.now) line x from.now towards to.now)) }
{
    declared(&setting.inside, x)?;
    let on = from.line();
    let under = to.line();
    let a = operand(&setting.inside, alloc, from)?;
    let b = operand(&setting.inside, alloc, to)?;
    head_settled(
        setting,
        alloc,
        line,
        x,
        direction_of(towards),
        on,
        a,
        under,
        b,
    )
}
