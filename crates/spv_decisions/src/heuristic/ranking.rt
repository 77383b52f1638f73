// The formulas of a condition in the order in which they are looked at: the goal, and the others by how near to it their terms are.

ghost use Rattle.std.specs.Prelude.{◌<◌, length, IfOk, OnOk};
ghost use Rattle.spv_term.specs.Arena.{AllBelow};

use crate::heuristic::parts::formulas_of;
use spv_search_terms::subterms::subterms;
use spv_term::{Condition, Head, TermId, Terms};
use std::alloc::{AllocError, Global};

// Whether a term is a variable or a symbol without arguments.
fn is_name(terms: &Terms, t: TermId) -> bool
    requires { t.0 < length terms.now.nodes }
{
    let node = terms.node(t);
    node.args.as_slice().is_empty() && !matches!(node.head, Head::Num(_) | Head::True | Head::False)
}

// Whether a term looks into others: an element, a field, the content of a cell, a part of a list, or what a symbol or a division makes of numbers.
fn is_view(terms: &Terms, t: TermId) -> bool
    requires { t.0 < length terms.now.nodes }
{
    let node = terms.node(t);
    match node.head {
        Head::App(_) => !node.args.as_slice().is_empty(),
        Head::Select | Head::Field(_) | Head::Cell | Head::PointerTo => true,
        Head::Car | Head::Cdr | Head::Atom | Head::Div | Head::Mod => true,
        _ => false,
    }
}

// The terms by which formulas are near to each other: what looks into others, and the variables.
#[derive(Drop)]
struct Signs {
    views: Vec<Vec<TermId>>,
    names: Vec<Vec<TermId>>,
}

impl Signs {
    // Those of no formula.
    fn new(alloc: Global) -> Signs {
        Signs {
            views: Vec::new(alloc),
            names: Vec::new(alloc),
        }
    }

    // Those of one formula more, whose subterms these are.
    fn add(&mut self, alloc: Global, terms: &Terms, ids: &[TermId]) -> Result<(), AllocError>
        requires { AllBelow (length terms.now.nodes) ids.now }
    {
        let mut views = Vec::new(alloc);
        let mut names = Vec::new(alloc);
        for t in ids {
            if is_view(terms, *t) {
                views.push(*t)?;
            } else if is_name(terms, *t) {
                names.push(*t)?;
            }
        }
        self.views.push(views)?;
        self.names.push(names)?;
        Ok(())
    }
}

// The terms by which these formulas are near to each other.
fn signs_of(alloc: Global, terms: &Terms, formulas: &[TermId]) -> Result<Signs, AllocError>
    requires { AllBelow (length terms.now.nodes) formulas.now }
{
    let mut signs = Signs::new(alloc);
    for f in formulas {
        let found = subterms(alloc, terms, &[*f])?;
        signs.add(alloc, terms, found.as_slice())?;
    }
    Ok(signs)
}

// Lists for so many terms, all of them empty.
fn no_uses(alloc: Global, count: u32) -> Result<Vec<Vec<usize>>, AllocError> {
    let mut uses = Vec::new(alloc);
    for _ in 0..count {
        uses.push(Vec::new(alloc))?;
    }
    Ok(uses)
}

// A formula has these variables.
fn add_uses(
    uses: &mut Vec<Vec<usize>>,
    names: &[TermId],
    formula: usize,
) -> Result<(), AllocError> {
    for t in names {
        if let Some(list) = uses.get_mut(t.0 as usize) {
            list.push(formula)?;
        }
    }
    Ok(())
}

// Beside each term the formulas whose variable it is, by their places.
fn uses_of(
    alloc: Global,
    count: u32,
    names: &[Vec<TermId>],
) -> Result<Vec<Vec<usize>>, AllocError> {
    let mut uses = no_uses(alloc, count)?;
    for formula in 0..names.len() {
        add_uses(&mut uses, names[formula].as_slice(), formula)?;
    }
    Ok(uses)
}

// Puts the formulas on top of those that wait that share one of its terms with this one, those of its first term last.
fn push_near(
    waiting: &mut Vec<usize>,
    signs: &[Vec<TermId>],
    uses: &mut Vec<Vec<usize>>,
    formula: usize,
) -> Result<(), AllocError> {
    let Some(own) = signs.get(formula) else {
        return Ok(());
    };
    let count = own.len();
    for k in 0..count {
        let t = own[count - 1 - k];
        if let Some(list) = uses.get_mut(t.0 as usize) {
            push_turned(waiting, list.as_slice())?;
            list.clear();
        }
    }
    Ok(())
}

// Puts these formulas on top of those that wait, the last one first.
fn push_turned(waiting: &mut Vec<usize>, formulas: &[usize]) -> Result<(), AllocError> {
    let count = formulas.len();
    for k in 0..count {
        waiting.push(formulas[count - 1 - k])?;
    }
    Ok(())
}

// The formulas that are in order so far, by their places, and which ones they are.
#[derive(Drop)]
struct Ranking {
    order: Vec<usize>,
    has: Vec<bool>,
}

impl Ranking {
    // No formula of so many is in order.
    fn new(alloc: Global, count: usize) -> Result<Ranking, AllocError> {
        let mut has = Vec::new(alloc);
        for _ in 0..count {
            has.push(false)?;
        }
        Ok(Ranking {
            order: Vec::new(alloc),
            has,
        })
    }

    // Puts a formula behind the others, if it is new.
    fn add(&mut self, formula: usize) -> Result<(), AllocError> {
        if let Some(has) = self.has.get_mut(formula) {
            if !*has {
                *has = true;
                self.order.push(formula)?;
            }
        }
        Ok(())
    }

    // Puts these formulas behind the others, where they are new.
    fn add_all(&mut self, formulas: &[usize]) -> Result<(), AllocError> {
        for formula in formulas {
            self.add(*formula)?;
        }
        Ok(())
    }

    // Puts the formulas behind the others that share one of their terms with this one.
    fn add_near(
        &mut self,
        names: &[Vec<TermId>],
        uses: &mut Vec<Vec<usize>>,
        formula: usize,
    ) -> Result<(), AllocError> {
        let Some(own) = names.get(formula) else {
            return Ok(());
        };
        for t in own.as_slice() {
            if let Some(list) = uses.get_mut(t.0 as usize) {
                self.add_all(list.as_slice())?;
                list.clear();
            }
        }
        Ok(())
    }

    // Puts the formula on top of those that wait behind the others, and on top of those that wait what it shares a term with; whether one waited.
    fn take(
        &mut self,
        waiting: &mut Vec<usize>,
        signs: &[Vec<TermId>],
        uses: &mut Vec<Vec<usize>>,
    ) -> Result<bool, AllocError> {
        let Some(formula) = waiting.pop() else {
            return Ok(false);
        };
        self.add(formula)?;
        push_near(waiting, signs, uses, formula)?;
        Ok(true)
    }

    // Goes from a formula to those that share one of its terms with it, and from each of these on, before the next one: what a term is made of
    // stands before it, so what is said of inner terms comes before what is said of those around them. Each term leads to others once.
    fn descend(
        &mut self,
        alloc: Global,
        terms: &Terms,
        signs: &[Vec<TermId>],
        uses: &mut Vec<Vec<usize>>,
        first: usize,
    ) -> Result<(), AllocError> {
        let mut waiting = Vec::new(alloc);
        waiting.push(first)?;
        for _ in 0..signs.len() {
            for _ in 0..terms.len() {
                if !self.take(&mut waiting, signs, uses)? {
                    return Ok(());
                }
            }
        }
        Ok(())
    }

    // Goes on from each formula in order to those that share one of their terms with it.
    fn spread(
        &mut self,
        names: &[Vec<TermId>],
        uses: &mut Vec<Vec<usize>>,
    ) -> Result<(), AllocError> {
        for place in 0..names.len() {
            if place < self.order.len() {
                let formula = self.order[place];
                self.add_near(names, uses, formula)?;
            }
        }
        Ok(())
    }

    // Puts all formulas behind the others that are not there yet.
    fn fill(&mut self, count: usize) -> Result<(), AllocError> {
        for formula in 0..count {
            self.add(formula)?;
        }
        Ok(())
    }
}

// Puts the formula at a place behind others, if there is one.
fn push_at(
    terms: &Terms,
    list: &mut Vec<TermId>,
    formulas: &[TermId],
    place: usize,
) -> Result<(), AllocError>
    requires { AllBelow (length terms.now.nodes) formulas.now }
    ensures { OnOk result (AllBelow (length terms.now.nodes) list.old.items → AllBelow (length terms.now.nodes) list.new.items) }
{
    let _ = terms;
    if place >= formulas.len() {
        return Ok(());
    }
    list.push(formulas[place])?;
    Ok(())
}

// These formulas in the order of these places.
fn placed(
    alloc: Global,
    terms: &Terms,
    formulas: &[TermId],
    order: &[usize],
) -> Result<Vec<TermId>, AllocError>
    requires { AllBelow (length terms.now.nodes) formulas.now }
    ensures { IfOk result (λ fs. AllBelow (length terms.now.nodes) fs.items) }
{
    let mut list = Vec::new(alloc);
    for place in order {
        push_at(terms, &mut list, formulas, *place)?;
    }
    Ok(list)
}

// The formula that a search is about: the goal of its condition, or the hypothesis of this number from 1.
fn focus_of(condition: &Condition, focus: usize) -> TermId {
    let given = condition.given.as_slice();
    if focus == 0 || focus > given.len() {
        return condition.goal;
    }
    given[focus - 1]
}

/// The goal of a condition and its hypotheses, each conjunction in its parts. The one that the search is about comes first: the goal, where `focus` is
/// 0, or the hypothesis of this number. Behind it come those that are linked to it by terms that look into others, inner terms first, and then those
/// that are linked by variables, the nearer the earlier.
pub(crate) fn ranked(
    alloc: Global,
    terms: &Terms,
    condition: &Condition,
    focus: usize,
) -> Result<Vec<TermId>, AllocError>
    requires given { AllBelow (length terms.now.nodes) condition.now.given }
    requires goal { condition.now.goal.0 < length terms.now.nodes }
    ensures { IfOk result (λ fs. AllBelow (length terms.now.nodes) fs.items) }
{
    let formulas = formulas_of(alloc, terms, condition)?;
    let signs = signs_of(alloc, terms, formulas.as_slice())?;
    let views = signs.views.as_slice();
    let names = signs.names.as_slice();
    let mut ranking = Ranking::new(alloc, formulas.len())?;
    let first = focus_of(condition, focus);
    if let Some(place) = formulas.as_slice().iter().position(|f| *f == first) {
        let mut uses = uses_of(alloc, terms.len(), views)?;
        ranking.descend(alloc, terms, views, &mut uses, place)?;
    }
    ranking.spread(names, &mut uses_of(alloc, terms.len(), names)?)?;
    ranking.fill(formulas.len())?;
    placed(alloc, terms, formulas.as_slice(), ranking.order.as_slice())
}
