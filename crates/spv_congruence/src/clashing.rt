// Finding terms that are the same and cannot be.

ghost use Rattle.std.specs.Prelude.{◌≡◌, ◌<◌, ℕ, true, false, IsTrue, IfSome, IfNone, Some, slice_get, ◌&&◌, not};
ghost use Rattle.spv_logic.specs.declared.conditions.TermId.{TermId};
ghost use Rattle.spv_congruence.specs.Clashes as spec;
ghost use Rattle.spv_congruence.specs.Clashes.{AreOpposed, AreSeparate, Clashes};
ghost use Rattle.spv_congruence.specs.Graph.{are_same, id, label_of};
ghost use Rattle.spv_union_find.specs.classes.Classes.{size};
ghost use Rattle.spv_congruence.specs.Keep.{graph, Fits, IsNode};
ghost use Rattle.spv_congruence.specs.Rings.{AgreesBehind, comparable_with, first_behind, opposed_to};
ghost use Rattle.spv_congruence.specs.Rings as rings;

use crate::facts::Fact;
use crate::kept::{Kept, node_of};
use spv_term::{Head, Node, TermId};

// Whether two heads are two numerals, or TRUE and FALSE.
fn opposed(left: Head, right: Head) -> bool
    ensures { result ≡ spec.opposed left right }
{
    match (left, right) {
        (Head::Num(x), Head::Num(y)) => x != y,
        (Head::True, Head::False) => true,
        (Head::False, Head::True) => true,
        _ => false,
    }
}

// Whether two heads are two numerals or two truth values.
fn comparable(left: Head, right: Head) -> bool
    ensures { result ≡ rings.comparable left right }
{
    match (left, right) {
        (Head::Num(_), Head::Num(_)) => true,
        (Head::True, Head::True) => true,
        (Head::True, Head::False) => true,
        (Head::False, Head::True) => true,
        (Head::False, Head::False) => true,
        _ => false,
    }
}

// Whether the term of a number has a head that is comparable with a head.
fn is_comparable(nodes: &[Option<Node>], head: Head, x: usize) -> bool
    ensures { result ≡ comparable_with head (slice_get nodes.now x) }
{
    match nodes.get(x) {
        Some(Some(node)) => comparable(head, node.head),
        _ => false,
    }
}

// Whether the term of a number has a head that is opposed to a head.
fn is_opposed(nodes: &[Option<Node>], head: Head, x: usize) -> bool
    ensures { result ≡ opposed_to head (slice_get nodes.now x) }
{
    match nodes.get(x) {
        Some(Some(node)) => opposed(head, node.head),
        _ => false,
    }
}

// The term of a number.
fn term_of(terms: &[TermId], x: usize) -> TermId
    requires { (i : ℕ) × ((t : TermId) × ((slice_get terms.now i ≡ Some t) × (t.0 ≡ x))) }
    ensures { result.0 ≡ x }
{
    for t in terms {
        if t.0 as usize == x {
            return *t;
        }
    }
    unreachable!()
}

impl Kept {
    // Whether two terms are in one class.
    fn same(&self, s: TermId, t: TermId) -> bool
        requires fits { Fits self.now }
        requires left { IsNode self.now.nodes s }
        requires right { IsNode self.now.nodes t }
        ensures { result ≡ are_same (graph self.now) s t }
    {
        self.label(s) == self.label(t)
    }

    // Two terms that were told to be separate and are the same.
    pub(crate) fn separate_clash(&self) -> Option<(TermId, TermId)>
        requires { Fits self.now }
        ensures some { IfSome result (λ p. Clashes (graph self.now) p.0 p.1) }
        ensures none { IfNone result ((s t : TermId) → IsTrue (are_same (graph self.now) s t) → AreSeparate (graph self.now) s t → ⊥) }
    {
        for fact in self.told.as_slice() {
            if self.clashes(*fact) {
                return Some((fact.left, fact.right));
            }
        }
        None
    }

    // Whether a fact says that two terms are separate that are the same.
    fn clashes(&self, fact: Fact) -> bool
        requires fits { Fits self.now }
        requires left { IsNode self.now.nodes fact.left }
        requires right { IsNode self.now.nodes fact.right }
        ensures { result ≡ (not fact.equal && are_same (graph self.now) fact.left fact.right) }
    {
        !fact.equal && self.same(fact.left, fact.right)
    }

    // The first number behind another one on its ring, within so many steps, whose term is comparable with a head.
    fn next_comparable(&self, head: Head, start: usize, steps: usize) -> Option<usize>
        requires { start < self.now.classes.count }
        ensures { result ≡ first_behind (λ x. comparable_with head (slice_get self.now.nodes x)) self.now.classes.joins start steps }
    {
        let mut at = start;
        for _ in 0..steps {
            at = self.classes.next(at);
            if is_comparable(self.nodes.as_slice(), head, at) {
                return Some(at);
            }
        }
        None
    }

    // The number of the next term of a term's class that is comparable with it, if it is opposed to it. So a class is gone round once
    // for all its numerals, and once for its truth values.
    fn opposed_behind(&self, s: TermId) -> Option<usize>
        requires fits { Fits self.now }
        requires node { IsNode self.now.nodes s }
        ensures there { IfSome result (λ x. IsNode self.now.nodes (id x)) }
        ensures some { IfSome result (λ x. (t : TermId) → t.0 ≡ x → Clashes (graph self.now) s t) }
        ensures none { IfNone result (AgreesBehind self.now s) }
    {
        self.law_joins();
        let head = node_of(self.nodes.as_slice(), s).head;
        if !comparable(head, head) {
            return None;
        }
        let x = self.next_comparable(head, s.0 as usize, self.class_size(s))?;
        if is_opposed(self.nodes.as_slice(), head, x) {
            return Some(x);
        }
        None
    }

    // How many members a term's class has.
    fn class_size(&self, s: TermId) -> usize
        requires { s.0 < self.now.classes.count }
        ensures { result ≡ size self.now.classes.joins (label_of self.now.classes.joins s) }
    {
        self.law_joins();
        self.classes.size(self.label(s))
    }

    // Two terms that are opposed and the same.
    pub(crate) fn opposed_clash(&self) -> Option<(TermId, TermId)>
        requires { Fits self.now }
        ensures some { IfSome result (λ p. Clashes (graph self.now) p.0 p.1) }
        ensures none { IfNone result ((s t : TermId) → IsTrue (are_same (graph self.now) s t) → AreOpposed (graph self.now) s t → ⊥) }
    {
        self.law_joins();
        for s in self.added.as_slice() {
            if let Some(x) = self.opposed_behind(*s) {
                return Some((*s, term_of(self.added.as_slice(), x)));
            }
        }
        None
    }
}
