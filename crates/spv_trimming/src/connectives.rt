// Connectives: what terms are made of as far as truth goes, their values by the three-valued tables, and which formulas a value comes from.

ghost use Rattle.std.specs.Prelude.{◌<◌, length};

use spv_atoms::numeral_relation;
use spv_term::{Head, Sort, TermId, Terms};
use std::alloc::{AllocError, Global};

/// What a term is made of, as far as truth goes.
#[derive(Clone, Copy, Debug)]
pub(crate) enum Shape {
    /// A connective over one formula.
    Not(TermId),
    /// A connective over two.
    Pair(Connective, TermId, TermId),
    /// Any other term, with its value, if that is known without facts.
    Other(Option<bool>),
}

/// A connective over two formulas.
#[derive(Clone, Copy, Debug)]
pub(crate) enum Connective {
    And,
    Or,
    Implies,
    Same,
}

fn is_formula(terms: &Terms, t: TermId) -> bool {
    t.0 < terms.len() && matches!(terms.sort(t), Sort::Bool)
}

// What a term of two arguments is made of.
fn shape_over(terms: &Terms, t: TermId, left: TermId, right: TermId) -> Shape
    requires { t.0 < length terms.now.nodes }
{
    match terms.node(t).head {
        Head::And => Shape::Pair(Connective::And, left, right),
        Head::Or => Shape::Pair(Connective::Or, left, right),
        Head::Implies => Shape::Pair(Connective::Implies, left, right),
        Head::Eq if is_formula(terms, left) => Shape::Pair(Connective::Same, left, right),
        _ => Shape::Other(numeral_relation(terms, t)),
    }
}

// What a term without arguments is worth.
fn constant(head: Head) -> Option<bool> {
    match head {
        Head::True => Some(true),
        Head::False => Some(false),
        _ => None,
    }
}

// What a term is made of.
fn shape_of(terms: &Terms, t: TermId) -> Shape
    requires { t.0 < length terms.now.nodes }
{
    let node = terms.node(t);
    match node.args.as_slice() {
        [u] => match node.head {
            Head::Not => Shape::Not(*u),
            _ => Shape::Other(None),
        },
        [left, right] => shape_over(terms, t, *left, *right),
        _ => Shape::Other(constant(node.head)),
    }
}

// A term stands over another one.
fn add_above(above: &mut Vec<Vec<TermId>>, u: TermId, t: TermId) -> Result<(), AllocError> {
    if let Some(list) = above.get_mut(u.0 as usize) {
        list.push(t)?;
    }
    Ok(())
}

/// The connectives of an arena: what each term is made of, and which connectives stand over it.
#[derive(Drop)]
pub(crate) struct Connectives {
    shapes: Vec<Shape>,
    above: Vec<Vec<TermId>>,
}

impl Connectives {
    // One term more.
    fn add(&mut self, alloc: Global, t: TermId, shape: Shape) -> Result<(), AllocError> {
        self.shapes.push(shape)?;
        self.above.push(Vec::new(alloc))?;
        match shape {
            Shape::Not(u) => add_above(&mut self.above, u, t),
            Shape::Pair(_, left, right) => {
                add_above(&mut self.above, left, t)?;
                add_above(&mut self.above, right, t)
            }
            Shape::Other(_) => Ok(()),
        }
    }

    /// The connectives of an arena.
    pub(crate) fn of(alloc: Global, terms: &Terms) -> Result<Connectives, AllocError> {
        let mut connectives = Connectives {
            shapes: Vec::new(alloc),
            above: Vec::new(alloc),
        };
        for k in 0..terms.len() {
            let t = TermId(k);
            connectives.add(alloc, t, shape_of(terms, t))?;
        }
        Ok(connectives)
    }

    /// How many terms there are.
    pub(crate) fn len(&self) -> usize {
        self.shapes.len()
    }

    /// What a term is made of.
    pub(crate) fn shape(&self, t: TermId) -> Shape {
        match self.shapes.get(t.0 as usize) {
            Some(shape) => *shape,
            None => Shape::Other(None),
        }
    }

    /// The connectives that stand over a term.
    pub(crate) fn above(&self, t: TermId) -> &[TermId] {
        match self.above.get(t.0 as usize) {
            Some(list) => list.as_slice(),
            None => &[],
        }
    }
}

// The value of a conjunction.
fn both(x: Option<bool>, y: Option<bool>) -> Option<bool> {
    if x == Some(false) || y == Some(false) {
        return Some(false);
    }
    if x == Some(true) && y == Some(true) {
        return Some(true);
    }
    None
}

/// The other value, if one is known.
pub(crate) fn opposite(x: Option<bool>) -> Option<bool> {
    match x {
        Some(value) => Some(!value),
        None => None,
    }
}

// The value of an equation.
fn same(x: Option<bool>, y: Option<bool>) -> Option<bool> {
    if x.is_none() || y.is_none() {
        return None;
    }
    Some(x == y)
}

/// The value of a connective over formulas of these values.
pub(crate) fn combined(connective: Connective, x: Option<bool>, y: Option<bool>) -> Option<bool> {
    match connective {
        Connective::And => both(x, y),
        Connective::Or => opposite(both(opposite(x), opposite(y))),
        Connective::Implies => opposite(both(x, opposite(y))),
        Connective::Same => same(x, y),
    }
}

/// From which of the two formulas of a connective its value comes.
#[derive(Clone, Copy, Debug)]
pub(crate) enum Sources {
    First,
    Second,
    Both,
}

/// From which formulas the value of a connective comes, where they have these values; `early` says that the first one is to be preferred.
pub(crate) fn sources_of(
    connective: Connective,
    x: Option<bool>,
    y: Option<bool>,
    early: bool,
) -> Sources {
    let first = combined(connective, x, None).is_some();
    let second = combined(connective, None, y).is_some();
    if first && (early || !second) {
        Sources::First
    } else if second {
        Sources::Second
    } else {
        Sources::Both
    }
}
