//! Used terms, and which of them an instance can be about beside another one.

ghost use Rattle.std.specs.Prelude.{◌≡◌, ◌<◌, IfOk, length, map};
ghost use Rattle.spv_schemas.specs.Instances.{is_taken_apart};
ghost use Rattle.spv_term.specs.Arena.{Arena, AllBelow, IsArena, tree};
ghost use Rattle.spv_proof.specs.declared.schema_facts.uses.Subject.TheVariants.{Array, Class, Division};
ghost use Rattle.spv_proof.specs.schema_facts.Uses.{AreUses, ArePartners, subject_of};

use crate::schema_facts::groups::{Groups, Link, Links};
use crate::schema_facts::relations::{Relation, links, table};
use crate::schema_facts::shapes::same_head;
use spv_logic::{Head, Sort};
use spv_schemas::SchemaKind;
use spv_term::{TermId, Terms};
use std::alloc::{AllocError, Global};

/// What the instances of a kind are about.
#[derive(Clone, Copy, Debug)]
pub(crate) enum Subject {
    /// A used term.
    Any,
    /// A used term, and a field of its sort.
    Field,
    /// A used list that a used term takes apart.
    TakenApart,
    /// An array that is changed, and an index of one of its type.
    Array,
    /// A class that is changed by this head, and a pointer of one of its type.
    Class(Head),
    /// A number and what divides it, where a used term is that.
    Division(Relation),
}

/// What the instances of a kind are about.
pub(crate) fn subject_for(kind: SchemaKind) -> Subject
    ensures { result ≡ subject_of kind }
{
    match kind {
        SchemaKind::SelectStoreSame | SchemaKind::SelectStoreOther => Subject::Array,
        SchemaKind::FieldPutSame
        | SchemaKind::PointerToNil
        | SchemaKind::CarCons
        | SchemaKind::CdrCons
        | SchemaKind::AtomCons => Subject::Any,
        SchemaKind::FieldPutOther => Subject::Field,
        SchemaKind::CellSetCellSame | SchemaKind::CellSetCellOther | SchemaKind::PointerToSetCell =>
            Subject::Class(Head::SetCell),
        SchemaKind::CellExtendSame | SchemaKind::CellExtendOther | SchemaKind::PointerToExtend =>
            Subject::Class(Head::Extend),
        SchemaKind::ConsCarCdr => Subject::TakenApart,
        SchemaKind::DivMod | SchemaKind::ModOfNonNegative | SchemaKind::ModOfNonPositive => {
            Subject::Division(Relation::Divisors)
        }
        SchemaKind::DivOfNumerals => Subject::Division(Relation::Quotients),
        SchemaKind::ModOfNumerals => Subject::Division(Relation::Remainders),
    }
}

/// Used terms, and what they put together.
#[derive(Drop)]
pub(crate) struct Uses {
    ids: Vec<TermId>,
    indices: Groups,
    pointers: Groups,
    divisors: Groups,
    quotients: Groups,
    remainders: Groups,
    lists: Links,
}

impl Uses {
    // What used terms put together.
    pub(crate) fn new(alloc: Global, terms: &Terms, used: &[TermId]) -> Result<Uses, AllocError>
        requires { AllBelow (length terms.now.nodes) used.now }
        ensures ids { IfOk result (λ uses. uses.ids.items ≡ used.now) }
        ensures uses { IfOk result (AreUses terms.now) }
    {
        Ok(Uses {
            ids: Vec::from_slice(alloc, used)?,
            indices: table(alloc, terms, used, Relation::Indices)?,
            pointers: table(alloc, terms, used, Relation::Pointers)?,
            divisors: table(alloc, terms, used, Relation::Divisors)?,
            quotients: table(alloc, terms, used, Relation::Quotients)?,
            remainders: table(alloc, terms, used, Relation::Remainders)?,
            lists: links(alloc, terms, used, Relation::Lists)?,
        })
    }

    // The used terms.
    pub(crate) fn ids(&self) -> &[TermId]
        ensures { result.now ≡ self.now.ids.items }
    {
        self.ids.as_slice()
    }

    // Whether a used term takes a list apart, or asks whether it is an atom.
    pub(crate) fn takes_apart(&self, terms: &Terms, list: TermId) -> bool
        requires uses { AreUses terms.now self.now }
        requires list { list.0 < length terms.now.nodes }
        ensures { result ≡ is_taken_apart (map (tree terms.now) self.now.ids.items) (tree terms.now list) }
    {
        terms.law_arena();
        self.lists.has(Link {
            key: list.0,
            member: list,
        })
    }

    // The indices for a changed array.
    fn indices(&self, terms: &Terms, array: TermId) -> &[Link]
        requires uses { AreUses terms.now self.now }
        requires array { array.0 < length terms.now.nodes }
        ensures { ArePartners terms.now self.now.ids.items Array array result.now }
    {
        terms.law_arena();
        if !same_head(terms.node(array).head, Head::Store) {
            return &[];
        }
        match terms.sort(array) {
            Sort::Whole(t) => self.indices.get(t.0),
            _ => &[],
        }
    }

    // The pointers for a class that is changed by this head.
    fn pointers(&self, terms: &Terms, head: Head, class: TermId) -> &[Link]
        requires uses { AreUses terms.now self.now }
        requires class { class.0 < length terms.now.nodes }
        ensures { ArePartners terms.now self.now.ids.items (Class head) class result.now }
    {
        terms.law_arena();
        if !same_head(terms.node(class).head, head) {
            return &[];
        }
        match terms.sort(class) {
            Sort::Class(t) => self.pointers.get(t.0),
            _ => &[],
        }
    }

    // What a number is divided by.
    fn divisors(&self, relation: Relation, dividend: TermId) -> &[Link]
        ensures { (a : Arena) → IsArena a → AreUses a self.now → dividend.0 < length a.nodes
            → ArePartners a self.now.ids.items (Division relation) dividend result.now }
    {
        match relation {
            Relation::Divisors => self.divisors.get(dividend.0),
            Relation::Quotients => self.quotients.get(dividend.0),
            Relation::Remainders => self.remainders.get(dividend.0),
            _ => &[],
        }
    }

    // The used terms that an instance can be about beside a first one.
    pub(crate) fn partners(&self, terms: &Terms, subject: Subject, first: TermId) -> &[Link]
        requires uses { AreUses terms.now self.now }
        requires first { first.0 < length terms.now.nodes }
        ensures { ArePartners terms.now self.now.ids.items subject first result.now }
    {
        terms.law_arena();
        match subject {
            Subject::Array => self.indices(terms, first),
            Subject::Class(head) => self.pointers(terms, head, first),
            Subject::Division(relation) => self.divisors(relation, first),
            _ => &[],
        }
    }
}
