// The numbers that were taken.

ghost use Rattle.std.specs.Prelude.{◌≡◌, ◌<◌, if◌then◌else◌, length, Err, OnOk, OnErr, IfOk, IsTrue};
ghost use Rattle.spv_logic.specs.Sorts.{sort_in_range, head_in_range, variable_sort};
ghost use Rattle.spv_logic.specs.Substitution.{is_variable};
ghost use Rattle.spv_term.specs.declared.nodes.TermFault.TheVariants.{Size};
ghost use Rattle.spv_term.specs.Arena.{tree, sort_at, Extends};
ghost use Rattle.spv_term.specs.substitution.Images.{head_at};
ghost use Rattle.spv_term.specs.substitution.Parts.{AddsOnly, Lacks};
ghost use Rattle.spv_program.specs.Lists.{same_name};
ghost use Rattle.spv_program.specs.Types.{same_type};
ghost use Rattle.spv_program.specs.Supplies as spec;
ghost use Rattle.spv_program.specs.Supplies.{full_supply};
ghost use Rattle.spv_program.specs.Terms.{alone};
ghost use Rattle.spv_assign.specs.supply.Numbers.{supply_of, last_of_name, last_of_class, IsFresh, AreThere};

use indexmap::IndexMap;
use spv_logic::names::Symbol;
use spv_logic::{Head, Sort, TypeId};
use spv_term::{TermFault, TermId, Terms};
use std::alloc::{AllocError, Global};
use std::marker::Model;

/// The numbers of the fresh variables and classes that were taken: of each name and of each class the
/// last one. A look-up goes by a hash.
#[derive(Drop)]
pub struct Supply {
    names: IndexMap<Symbol, u32>,
    classes: IndexMap<TypeId, u32>,
}

impl Model for Supply {
    ghost use Rattle.spv_assign.specs.supply.Numbers.{Taken};

    ghost Value = { Taken };

    ghost view = { λ s. record { names = s.names.entries; classes = s.classes.entries } };
}

// The term of a variable.
fn alone(terms: &mut Terms, head: Head) -> Result<TermId, TermFault>
    requires variable { IsTrue (is_variable head) }
    requires types { IsTrue (head_in_range terms.old.shapes head) }
    ensures tree { IfOk result (λ t. tree terms.new t ≡ alone head) }
    ensures sort { IfOk result (λ t. sort_at terms.new t ≡ variable_sort head) }
    ensures in_range { IfOk result (λ t. t.0 < length terms.new.nodes) }
    ensures grows { Extends terms.old terms.new }
    ensures only { AddsOnly terms.old terms.new (alone head) }
    ensures size { result ≡ Err Size → Lacks terms.new (alone head) }
{
    terms.law_arena();
    let t = terms.make(head, &[])?;
    Ok(t)
}

impl Supply {
    /// No number was taken yet.
    pub fn new(alloc: Global) -> Supply
        ensures { supply_of result ≡ full_supply }
    {
        Supply {
            names: IndexMap::new(alloc),
            classes: IndexMap::new(alloc),
        }
    }

    // The last number that was taken of a name.
    fn last_of_name(&self, name: Symbol) -> u32
        ensures { result ≡ last_of_name self.now.names name }
    {
        self.names.get(&name).copied().unwrap_or(0)
    }

    // The last number that was taken of a class.
    fn last_of_class(&self, class: TypeId) -> u32
        ensures { result ≡ last_of_class self.now.classes class }
    {
        self.classes.get(&class).copied().unwrap_or(0)
    }

    // Keeps the last number that was taken of a name.
    fn put_name(&mut self, name: Symbol, number: u32) -> Result<(), AllocError>
        ensures names { OnOk result ((x : Symbol) → last_of_name self.new.names x ≡ (if same_name name x then number else last_of_name self.old.names x)) }
        ensures classes { self.new.classes ≡ self.old.classes }
        ensures unchanged { OnErr result (self.new.names ≡ self.old.names) }
    {
        self.names.insert(name, number)?;
        Ok(())
    }

    // Keeps the last number that was taken of a class.
    fn put_class(&mut self, class: TypeId, number: u32) -> Result<(), AllocError>
        ensures classes { OnOk result ((t : TypeId) → last_of_class self.new.classes t ≡ (if same_type class t then number else last_of_class self.old.classes t)) }
        ensures names { self.new.names ≡ self.old.names }
        ensures unchanged { OnErr result (self.new.classes ≡ self.old.classes) }
    {
        self.classes.insert(class, number)?;
        Ok(())
    }

    /// The variable of this name and sort, with the next number of the name. `Size` comes where the
    /// arena is full and the variable is not there. It also comes where each number of 32 bits was
    /// taken of the name; if each of them is the number of a term, then that arena is full too.
    pub fn fresh_variable(
        &mut self,
        terms: &mut Terms,
        name: Symbol,
        sort: Sort,
    ) -> Result<TermId, TermFault>
        requires { IsTrue (sort_in_range terms.old.shapes sort) }
        ensures fresh { IfOk result (λ t. IsFresh terms.new t self.new (spec.fresh_variable name sort (supply_of self.old))) }
        ensures sort { IfOk result (λ t. sort_at terms.new t ≡ sort) }
        ensures unchanged { OnErr result (supply_of self.new ≡ supply_of self.old) }
        ensures grows { Extends terms.old terms.new }
        ensures only { AddsOnly terms.old terms.new (alone (spec.fresh_variable name sort (supply_of self.old)).head) }
        ensures size { AreThere terms.old (supply_of self.old) → result ≡ Err Size
            → Lacks terms.new (alone (spec.fresh_variable name sort (supply_of self.old)).head) }
        ensures there { AreThere terms.old (supply_of self.old) → AreThere terms.new (supply_of self.new) }
    {
        terms.law_arena();
        let last = self.last_of_name(name);
        if last == u32::MAX {
            return Err(TermFault::Size);
        }
        let t = alone(terms, Head::Var(name, sort, last + 1))?;
        self.put_name(name, last + 1)?;
        Ok(t)
    }

    /// The cells of a type, with the next number of the class. `Size` comes as for a variable.
    pub fn fresh_class(&mut self, terms: &mut Terms, class: TypeId) -> Result<TermId, TermFault>
        requires { class.0 < length terms.old.shapes }
        ensures fresh { IfOk result (λ t. IsFresh terms.new t self.new (spec.fresh_class class (supply_of self.old))) }
        ensures sort { IfOk result (λ t. sort_at terms.new t ≡ Sort.Class class) }
        ensures unchanged { OnErr result (supply_of self.new ≡ supply_of self.old) }
        ensures grows { Extends terms.old terms.new }
        ensures only { AddsOnly terms.old terms.new (alone (spec.fresh_class class (supply_of self.old)).head) }
        ensures size { AreThere terms.old (supply_of self.old) → result ≡ Err Size
            → Lacks terms.new (alone (spec.fresh_class class (supply_of self.old)).head) }
        ensures there { AreThere terms.old (supply_of self.old) → AreThere terms.new (supply_of self.new) }
    {
        terms.law_arena();
        let last = self.last_of_class(class);
        if last == u32::MAX {
            return Err(TermFault::Size);
        }
        let t = alone(terms, Head::ClassVar(class, last + 1))?;
        self.put_class(class, last + 1)?;
        Ok(t)
    }

    /// A fresh one of the same name as a variable, or of the same type as a class; a start value
    /// itself. `Size` comes as for a variable.
    pub fn fresh_like(&mut self, terms: &mut Terms, t: TermId) -> Result<TermId, TermFault>
        requires in_range { t.0 < length terms.old.nodes }
        requires variable { IsTrue (is_variable (head_at terms.old t)) }
        ensures fresh { IfOk result (λ u. IsFresh terms.new u self.new (spec.fresh_like (head_at terms.old t) (supply_of self.old))) }
        ensures sort { IfOk result (λ u. sort_at terms.new u ≡ sort_at terms.old t) }
        ensures unchanged { OnErr result (supply_of self.new ≡ supply_of self.old) }
        ensures grows { Extends terms.old terms.new }
        ensures only { AddsOnly terms.old terms.new (alone (spec.fresh_like (head_at terms.old t) (supply_of self.old)).head) }
        ensures size { AreThere terms.old (supply_of self.old) → result ≡ Err Size
            → Lacks terms.new (alone (spec.fresh_like (head_at terms.old t) (supply_of self.old)).head) }
        ensures there { AreThere terms.old (supply_of self.old) → AreThere terms.new (supply_of self.new) }
    {
        terms.law_arena();
        match terms.node(t).head {
            Head::Var(name, sort, _) => self.fresh_variable(terms, name, sort),
            Head::ClassVar(class, _) => self.fresh_class(terms, class),
            _ => Ok(t),
        }
    }
}
