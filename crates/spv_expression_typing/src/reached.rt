// What a name with selectors has come to.

ghost use Rattle.std.specs.Prelude.{◌≡◌, IfOk, drop};
ghost use Rattle.spv_program.specs.typed.ExpressionViews.{expression_of};
ghost use Rattle.spv_typing.specs.ExpressionWalk as spec;
ghost use Rattle.spv_expression_typing.specs.Views.{base_of, cell_in, first_cell, link_of, links_of, place_of, value_of};

use spv_formula_typing::push;
use spv_logic::TypeId;
use spv_logic::names::Symbol;
use spv_program::typed::{Call, Designator, Expression, ExpressionForm, Selector, Through};
use std::alloc::{AllocError, Global};
use std::marker::Model;

/// Where a name with selectors begins.
#[derive(Drop)]
pub(crate) enum Base {
    /// A variable or a parameter, with the line of its name.
    Name(u32, Symbol),
    /// The name of the function in whose body it stands, as a place.
    Result(u32, Symbol),
    /// A constant.
    Number(i64),
    /// A function's call.
    Called(Call),
}

/// What a name with selectors has come to: where it begins, the selectors so far, and the type of what is reached.
#[derive(Drop)]
pub struct Reached {
    base: Base,
    selectors: Vec<Selector>,
    of: TypeId,
}

impl Model for Reached {
    ghost use Rattle.spv_logic.specs.list.Ways.{coded_by};
    ghost use Rattle.spv_typing.specs.ExpressionWalk as spec;
    ghost use Rattle.spv_expression_typing.specs.Model.{way_reached};
    ghost use Rattle.spv_expression_typing.specs.Views.{reached_of};

    ghost Value = { spec.Reached };

    ghost coded = { coded_by way_reached };

    ghost view = { λ r. reached_of r.base r.selectors.items r.of };
}

pub(crate) fn boxed(alloc: Global, expression: Expression) -> Result<Box<Expression>, AllocError>
    ensures { IfOk result (λ b. b.value ≡ expression) }
{
    Ok(Box::new(alloc, expression)?)
}

#[tactic(auto, using(crate::proofs::Links::chained_are))]
fn place_with(base: Base, selectors: Vec<Selector>) -> Option<Designator>
    ensures { result ≡ place_of (base_of base) (links_of selectors.items) }
{
    match base {
        Base::Name(line, name) => Some(Designator {
            line,
            name,
            selectors,
        }),
        Base::Result(line, name) => Some(Designator {
            line,
            name,
            selectors,
        }),
        Base::Number(_) => None,
        Base::Called(_) => None,
    }
}

fn cell_in(selector: &Selector) -> Option<(u32, TypeId)>
    ensures { result ≡ cell_in selector.now }
{
    match selector {
        Selector::Cell(line, t) => Some((*line, *t)),
        _ => None,
    }
}

// The line of `^` and the type of the cells, where that is the first selector.
fn first_cell(selectors: &[Selector]) -> Option<(u32, TypeId)>
    ensures { result ≡ first_cell selectors.now }
{
    match selectors {
        [first, ..] => cell_in(first),
        [] => None,
    }
}

#[tactic(auto, using(crate::proofs::Links::none_behind, crate::proofs::Links::behind_first))]
fn behind_first(selectors: Vec<Selector>) -> Vec<Selector>
    ensures { result.items ≡ drop 1 selectors.items }
{
    let mut behind = selectors;
    if behind.len() > 0 {
        let _ = behind.remove(0);
    }
    behind
}

// A function's result, which is followed by `^` where anything follows it.
#[tactic(auto, using(crate::proofs::Links::result_through, crate::proofs::Links::result_alone))]
fn result_with(
    alloc: Global,
    call: Call,
    selectors: Vec<Selector>,
) -> Result<ExpressionForm, AllocError>
    ensures { IfOk result (λ form. expression_of form ≡ spec.result_at call (links_of selectors.items)) }
{
    let Some((line, of)) = first_cell(selectors.as_slice()) else {
        return Ok(ExpressionForm::Result(call));
    };
    let through = Through {
        call,
        line,
        of,
        selectors: behind_first(selectors),
    };
    Ok(ExpressionForm::Through(Box::new(alloc, through)?))
}

#[tactic(auto, using(crate::proofs::Links::chained_are))]
fn value_with(alloc: Global, base: Base, selectors: Vec<Selector>) -> Result<Expression, AllocError>
    ensures { IfOk result (λ e. e ≡ value_of (base_of base) (links_of selectors.items)) }
{
    let form = match base {
        Base::Name(line, name) => ExpressionForm::Read(Designator {
            line,
            name,
            selectors,
        }),
        Base::Result(line, name) => ExpressionForm::Read(Designator {
            line,
            name,
            selectors,
        }),
        Base::Number(z) => ExpressionForm::Numeral(z),
        Base::Called(call) => result_with(alloc, call, selectors)?,
    };
    Ok(Expression { form })
}

impl Reached {
    // What begins here, without selectors.
    pub(crate) fn at(alloc: Global, base: Base, of: TypeId) -> Reached
        ensures { result ≡ spec.reached (base_of base) of }
    {
        Reached {
            base,
            selectors: Vec::new(alloc),
            of,
        }
    }

    // With one more selector, which leads to this type.
    #[tactic(auto, using(crate::proofs::Links::one_more))]
    pub(crate) fn further(self, selector: Selector, of: TypeId) -> Result<Reached, AllocError>
        ensures { IfOk result (λ r. r ≡ spec.further self (link_of selector) of) }
    {
        let mut selectors = self.selectors;
        push(&mut selectors, selector)?;
        Ok(Reached {
            base: self.base,
            selectors,
            of,
        })
    }

    /// The type of what is reached.
    pub fn of(&self) -> TypeId
        ensures { result ≡ self.now.type }
    {
        self.of
    }

    // The result of a function is a place as a whole only.
    pub(crate) fn may_be_selected(&self) -> bool
        ensures { result ≡ spec.may_be_selected self.now.base }
    {
        match self.base {
            Base::Result(_, _) => false,
            _ => true,
        }
    }

    /// The place, where it is one.
    #[tactic(auto, using(crate::proofs::Links::place_is))]
    pub fn into_designator(self) -> Option<Designator>
        ensures { result ≡ spec.designator_at self }
    {
        place_with(self.base, self.selectors)
    }

    // The value.
    #[tactic(auto, using(crate::proofs::Links::value_is))]
    pub(crate) fn into_expression(self, alloc: Global) -> Result<Expression, AllocError>
        ensures { IfOk result (λ e. e ≡ spec.expression_at self) }
    {
        value_with(alloc, self.base, self.selectors)
    }
}
