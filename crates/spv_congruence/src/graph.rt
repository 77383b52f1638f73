// The graph, with what is true of it.

ghost use Rattle.std.specs.Prelude.{◌≡◌, ◌<◌, ◌≤◌, ◌++◌, [], ◌∷◌, true, false, IfOk, IfSome, IfNone, OnOk, OnErr, length};
ghost use Rattle.spv_logic.specs.declared.conditions.TermId.{TermId};
ghost use Rattle.spv_congruence.specs.Graph as spec;
ghost use Rattle.spv_congruence.specs.Clashes.{Clashes};
ghost use Rattle.spv_congruence.specs.Explained.{Explains};
ghost use Rattle.spv_congruence.specs.Keep.{IsNode};
ghost use Rattle.spv_congruence.specs.Told.{AddsParts, IsExact, IsOf, Joins, Undone, empty};

use crate::facts::{Fact, Link};
use crate::kept::Kept;
use spv_term::{TermId, Terms};
use spv_union_find::classes::Classes;
use spv_union_find::signatures::Signatures;
use std::alloc::{AllocError, Global};
use std::marker::Model;

/// How many facts stood at some time, to which a graph can go back.
#[derive(Clone, Copy, Debug)]
pub struct Mark {
    facts: usize,
}

impl Model for Mark {
    ghost use Rattle.std.specs.Prelude.{ℕ};

    ghost Value = { ℕ };

    ghost view = { λ m. m.facts };

    ghost inverse = { λ n. record { facts = n } };
}

/// The class of a term: two terms have the same one exactly where they are the same.
#[derive(Clone, Copy, PartialEq, Eq, Debug)]
pub struct ClassId(pub usize);

/// Terms in classes. Equalities join classes, and what follows from them by congruence is joined too. What was told can be taken back,
/// the last fact first; terms that were added stay.
#[derive(Drop)]
pub struct Graph {
    kept: Kept,
}

impl Model for Graph {
    ghost use Rattle.spv_congruence.specs.Graph as spec;
    ghost use Rattle.spv_congruence.specs.Keep.{graph, Fits};

    ghost Value = { spec.Graph };

    ghost view = { λ g. graph g.kept };

    ghost invariant = { λ g. record {
      fits : Fits g.kept;
      graph_is : spec.IsGraph (graph g.kept);
    } };
}

impl Graph {
    /// The graph without terms and facts. It takes no memory.
    pub fn new(alloc: Global) -> Graph
        ensures { result ≡ empty }
    {
        Graph {
            kept: Kept {
                nodes: Vec::new(alloc),
                added: Vec::new(alloc),
                told: Vec::new(alloc),
                levels: Vec::new(alloc),
                classes: Classes::new(alloc),
                table: Signatures::new(alloc),
                uses: Vec::new(alloc),
                labels: Vec::new(alloc),
            },
        }
    }

    /// Adds a term with all its parts. For want of memory the graph stays as it was.
    pub fn add(&mut self, terms: &Terms, t: TermId) -> Result<(), AllocError>
        requires of { IsOf terms.now self.old }
        requires within { t.0 < length terms.now.nodes }
        ensures ok { OnOk result (IsNode self.new.nodes t) }
        ensures parts { OnOk result (AddsParts terms.now t self.old self.new) }
        ensures of { OnOk result (IsOf terms.now self.new) }
        ensures err { OnErr result (self.new ≡ self.old) }
    {
        self.kept.add(terms, t)
    }

    /// How many facts stand.
    pub fn mark(&self) -> Mark
        ensures { result ≡ length self.now.told }
    {
        Mark {
            facts: self.kept.count(),
        }
    }

    /// Takes back what was told since a mark. Each term that was there has the class that it had. It takes no memory.
    pub fn undo(&mut self, mark: Mark)
        requires { mark ≤ length self.old.told }
        ensures { Undone self.old mark self.new }
    {
        self.kept.undo(mark.facts);
    }

    /// Tells that two terms are equal. For want of memory the graph stays as it was.
    pub fn join(&mut self, s: TermId, t: TermId, why: u32) -> Result<(), AllocError>
        requires left { IsNode self.old.nodes s }
        requires right { IsNode self.old.nodes t }
        ensures ok { OnOk result (Joins self.old (record { left = s; right = t; why = why; equal = true }) self.new) }
        ensures err { OnErr result (self.new ≡ self.old) }
    {
        let told = self.kept.tell(Fact {
            left: s,
            right: t,
            why,
            equal: true,
        });
        self.kept.law_joins();
        told
    }

    /// Tells that two terms are separate. For want of memory the graph stays as it was.
    pub fn separate(&mut self, s: TermId, t: TermId, why: u32) -> Result<(), AllocError>
        requires left { IsNode self.old.nodes s }
        requires right { IsNode self.old.nodes t }
        ensures ok { OnOk result (Joins self.old (record { left = s; right = t; why = why; equal = false }) self.new) }
        ensures err { OnErr result (self.new ≡ self.old) }
    {
        let told = self.kept.tell(Fact {
            left: s,
            right: t,
            why,
            equal: false,
        });
        self.kept.law_joins();
        told
    }

    /// Whether two terms are the same.
    pub fn same(&self, s: TermId, t: TermId) -> bool
        requires left { IsNode self.now.nodes s }
        requires right { IsNode self.now.nodes t }
        ensures { result ≡ spec.are_same self.now s t }
    {
        self.class_of(s).0 == self.class_of(t).0
    }

    /// The class of a term.
    pub fn class_of(&self, t: TermId) -> ClassId
        requires { IsNode self.now.nodes t }
        ensures { result.0 ≡ spec.label_of self.now.joins t }
    {
        ClassId(self.kept.label(t))
    }

    /// Links that lead from one term to another one that is the same. Each is an equality that was told and stands, or two terms of one
    /// head whose arguments were the same before: after fewer joins than the two terms.
    pub fn explain(&self, s: TermId, t: TermId) -> Result<Vec<Link>, AllocError>
        requires left { IsNode self.now.nodes s }
        requires right { IsNode self.now.nodes t }
        requires same { spec.label_of self.now.joins s ≡ spec.label_of self.now.joins t }
        ensures { IfOk result (λ v. Explains self.now s t v.items) }
    {
        self.kept.explain(s, t)
    }

    /// Two terms that are the same and cannot be: they were told to be separate, or they are two numerals, or TRUE and FALSE.
    pub fn clash(&self) -> Option<(TermId, TermId)>
        ensures some { IfSome result (λ p. Clashes self.now p.0 p.1) }
        ensures none { IfNone result ((s t : TermId) → Clashes self.now s t → ⊥) }
    {
        match self.kept.separate_clash() {
            Some(pair) => Some(pair),
            None => self.kept.opposed_clash(),
        }
    }

    /// Each term that was added has its node, and its arguments were added before it.
    pub fn law_terms(&self)
        ensures { spec.AreTerms self.now.nodes self.now.added }
    {
        self.kept.law_joins();
    }

    /// Two terms are the same exactly where it follows from what was told: by reflexivity, symmetry, transitivity and the congruence of
    /// added terms.
    pub fn law_same(&self)
        ensures { IsExact self.now }
    {
        self.kept.law_joins();
    }
}
