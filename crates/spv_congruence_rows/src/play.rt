// Doing the steps of a case.

ghost use Rattle.std.specs.Prelude.{◌≡◌, suc, true, IfOk, OnOk, length};
ghost use Rattle.spv_logic.specs.declared.conditions.TermId.{TermId};
ghost use Rattle.spv_congruence.specs.Keep.{IsNode};
ghost use Rattle.spv_congruence.specs.Told.{IsOf};
ghost use Rattle.spv_congruence_rows.specs.Plays.{Continues, IsReady};

use crate::shown;
use spv_congruence::{Graph, Mark};
use spv_term::{TermId, Terms};
use std::alloc::{AllocError, Global};

/// One step of a case.
#[derive(Clone, Copy, Debug)]
pub enum Step {
    Add(TermId),
    Join(TermId, TermId, u32),
    Separate(TermId, TermId, u32),
    Mark,
    Undo,
    Note,
    Noted,
    Same(TermId, TermId),
    Explain(TermId, TermId),
    Clash,
}

/// A graph, how many facts it has, the marks with the numbers of facts that they are for, the terms
/// that were added by steps, and the classes that were noted.
#[derive(Drop)]
pub(crate) struct Play {
    pub(crate) graph: Graph,
    pub(crate) told: usize,
    pub(crate) marks: Vec<(Mark, usize)>,
    pub(crate) added: Vec<TermId>,
    pub(crate) noted: Vec<usize>,
}

// Adds a term, if there is one of this number; whether there is.
fn put(terms: &Terms, graph: &mut Graph, t: TermId) -> Result<bool, AllocError>
    requires { IsOf terms.now graph.old }
    ensures continues { OnOk result (Continues terms.now graph.old graph.new) }
    ensures there { IfOk result (λ b. b ≡ true → IsNode graph.new.nodes t) }
{
    if t.0 >= terms.len() {
        return Ok(false);
    }
    graph.add(terms, t)?;
    Ok(true)
}

// Adds two terms, if there are such; whether there are.
fn put_both(terms: &Terms, graph: &mut Graph, s: TermId, t: TermId) -> Result<bool, AllocError>
    requires { IsOf terms.now graph.old }
    ensures continues { OnOk result (Continues terms.now graph.old graph.new) }
    ensures first { IfOk result (λ b. b ≡ true → IsNode graph.new.nodes s) }
    ensures second { IfOk result (λ b. b ≡ true → IsNode graph.new.nodes t) }
{
    let first = put(terms, graph, s)?;
    let second = put(terms, graph, t)?;
    Ok(first && second)
}

// Tells a fact of two terms.
fn tell(graph: &mut Graph, s: TermId, t: TermId, why: u32, equal: bool) -> Result<(), AllocError>
    requires left { IsNode graph.old.nodes s }
    requires right { IsNode graph.old.nodes t }
    ensures nodes { OnOk result (graph.new.nodes ≡ graph.old.nodes) }
    ensures told { OnOk result (length graph.new.told ≡ suc (length graph.old.told)) }
{
    if equal {
        graph.join(s, t, why)
    } else {
        graph.separate(s, t, why)
    }
}

// The classes of terms.
fn classes(
    alloc: Global,
    terms: &Terms,
    graph: &mut Graph,
    added: &[TermId],
) -> Result<Vec<usize>, AllocError>
    requires { IsOf terms.now graph.old }
    ensures { OnOk result (Continues terms.now graph.old graph.new) }
{
    let mut classes = Vec::new(alloc);
    for t in added {
        if put(terms, graph, *t)? {
            classes.push(graph.class_of(*t).0)?;
        }
    }
    Ok(classes)
}

impl Play {
    // Adds a term.
    fn add(&mut self, terms: &Terms, t: TermId) -> Result<(), AllocError>
        requires { IsReady terms.now self.old }
        ensures { OnOk result (IsReady terms.now self.new) }
    {
        if put(terms, &mut self.graph, t)? {
            self.added.push(t)?;
        }
        Ok(())
    }

    // Tells a fact.
    fn tell(
        &mut self,
        terms: &Terms,
        s: TermId,
        t: TermId,
        why: u32,
        equal: bool,
    ) -> Result<(), AllocError>
        requires { IsReady terms.now self.old }
        ensures { OnOk result (IsReady terms.now self.new) }
    {
        let Some(told) = self.told.checked_add(1) else {
            return Err(AllocError);
        };
        if put_both(terms, &mut self.graph, s, t)? {
            tell(&mut self.graph, s, t, why, equal)?;
            self.told = told;
        }
        Ok(())
    }

    // Marks what is told.
    fn mark(&mut self, terms: &Terms) -> Result<(), AllocError>
        requires { IsReady terms.now self.old }
        ensures { OnOk result (IsReady terms.now self.new) }
    {
        self.marks.push((self.graph.mark(), self.told))?;
        Ok(())
    }

    // Goes back to the last mark.
    fn undo(&mut self, terms: &Terms)
        requires { IsReady terms.now self.old }
        ensures { IsReady terms.now self.new }
    {
        if let Some((mark, told)) = self.marks.pop() {
            if told <= self.told {
                self.graph.undo(mark);
                self.told = told;
            }
        }
    }

    // Notes the classes of all terms.
    fn note(&mut self, alloc: Global, terms: &Terms) -> Result<(), AllocError>
        requires { IsReady terms.now self.old }
        ensures { OnOk result (IsReady terms.now self.new) }
    {
        self.noted = classes(alloc, terms, &mut self.graph, self.added.as_slice())?;
        Ok(())
    }

    // Prints whether the classes are those that were noted.
    fn noted(&mut self, alloc: Global, terms: &Terms, out: &mut Vec<u8>) -> Result<(), AllocError>
        requires { IsReady terms.now self.old }
        ensures { OnOk result (IsReady terms.now self.new) }
    {
        let now = classes(alloc, terms, &mut self.graph, self.added.as_slice())?;
        let same = now.as_slice().starts_with(self.noted.as_slice());
        shown::add_noted(out, same)
    }

    // Prints whether two terms are the same.
    fn same(
        &mut self,
        alloc: Global,
        terms: &Terms,
        s: TermId,
        t: TermId,
        out: &mut Vec<u8>,
    ) -> Result<(), AllocError>
        requires { IsReady terms.now self.old }
        ensures { OnOk result (IsReady terms.now self.new) }
    {
        if put_both(terms, &mut self.graph, s, t)? {
            shown::add_same(alloc, out, s, t, self.graph.same(s, t))?;
        }
        Ok(())
    }

    // Prints the links from one term to another one.
    fn explain(
        &mut self,
        alloc: Global,
        terms: &Terms,
        s: TermId,
        t: TermId,
        out: &mut Vec<u8>,
    ) -> Result<(), AllocError>
        requires { IsReady terms.now self.old }
        ensures { OnOk result (IsReady terms.now self.new) }
    {
        if put_both(terms, &mut self.graph, s, t)? {
            if self.graph.class_of(s).0 == self.graph.class_of(t).0 {
                let links = self.graph.explain(s, t)?;
                shown::add_links(alloc, out, s, t, links.as_slice())?;
            }
        }
        Ok(())
    }

    // Does one step.
    fn do_step(
        &mut self,
        alloc: Global,
        terms: &Terms,
        step: Step,
        out: &mut Vec<u8>,
    ) -> Result<(), AllocError>
        requires { IsReady terms.now self.old }
        ensures { OnOk result (IsReady terms.now self.new) }
    {
        match step {
            Step::Add(t) => self.add(terms, t),
            Step::Join(s, t, why) => self.tell(terms, s, t, why, true),
            Step::Separate(s, t, why) => self.tell(terms, s, t, why, false),
            Step::Mark => self.mark(terms),
            Step::Undo => {
                self.undo(terms);
                Ok(())
            }
            Step::Note => self.note(alloc, terms),
            Step::Noted => self.noted(alloc, terms, out),
            Step::Same(s, t) => self.same(alloc, terms, s, t, out),
            Step::Explain(s, t) => self.explain(alloc, terms, s, t, out),
            Step::Clash => shown::add_clash(alloc, out, self.graph.clash()),
        }
    }
}

/// Does steps, and prints what they show.
pub fn do_steps(
    alloc: Global,
    terms: &Terms,
    steps: &[Step],
    out: &mut Vec<u8>,
) -> Result<(), AllocError> {
    let mut play = Play {
        graph: Graph::new(alloc),
        told: 0,
        marks: Vec::new(alloc),
        added: Vec::new(alloc),
        noted: Vec::new(alloc),
    };
    for step in steps {
        play.do_step(alloc, terms, *step, out)?;
    }
    Ok(())
}
