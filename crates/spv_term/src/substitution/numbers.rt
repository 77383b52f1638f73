// Fresh variables, numbered from the greatest number in the arena.

ghost use Rattle.std.specs.Prelude.{◌≡◌, ◌<◌, ◌≤◌, [], length, Err, IfOk, IsTrue};
ghost use Rattle.spv_logic.specs.Terms.{term, no_terms};
ghost use Rattle.spv_logic.specs.Sorts.{sort_in_range};
ghost use Rattle.spv_term.specs.declared.nodes.TermFault.TheVariants.{Size};
ghost use Rattle.spv_term.specs.Arena.{tree, sort_at, Extends};
ghost use Rattle.spv_term.specs.substitution.Fresh as spec;
ghost use Rattle.spv_term.specs.substitution.Fresh.{greatest, fresh_head, HasFewNumbers};

use crate::{TermFault, TermId, Terms};
use spv_logic::names::Symbol;
use spv_logic::{Head, Sort, TypeId};

// The number of a head that counts for a fresh one of this name and sort.
fn number_for(name: Symbol, sort: Sort, head: Head) -> u32
    ensures { result ≡ spec.number_for name sort head }
{
    match sort {
        Sort::Class(t) => number_of_class(t, head),
        _ => number_of_name(name, head),
    }
}

fn number_of_name(name: Symbol, head: Head) -> u32
    ensures { result ≡ spec.number_of_name name head }
{
    match head {
        Head::Var(x, _, number) => { if name == x { number } else { 0 } }
        _ => 0,
    }
}

fn number_of_class(class: TypeId, head: Head) -> u32
    ensures { result ≡ spec.number_of_class class head }
{
    match head {
        Head::ClassVar(t, number) => { if class == t { number } else { 0 } }
        _ => 0,
    }
}

// The greatest of them in an arena.
fn greatest(terms: &Terms, name: Symbol, sort: Sort) -> u32
    ensures { result ≡ greatest name sort terms.now.nodes }
{
    let mut most = 0;
    let mut left = terms.len();
    while left > 0 {
        left -= 1;
        most = number_for(name, sort, terms.node(TermId(left)).head).max(most);
    }
    most
}

fn numbered(name: Symbol, sort: Sort, number: u32) -> Head
    ensures { result ≡ spec.numbered name sort number }
{
    match sort {
        Sort::Class(t) => Head::ClassVar(t, number),
        _ => Head::Var(name, sort, number),
    }
}

/// A variable that the arena does not have: of this name and sort, numbered behind all of its name there, whatever
/// their sorts; for the sort of a class, a class numbered behind all of its type. The first number is 1. It is
/// never there already, so `Size` comes exactly where the arena is full.
pub fn fresh(terms: &mut Terms, name: Symbol, sort: Sort) -> Result<TermId, TermFault>
    requires sort { IsTrue (sort_in_range terms.old.shapes sort) }
    requires few { greatest name sort terms.old.nodes ≤ length terms.old.nodes }
    ensures tree { IfOk result (λ t. tree terms.new t ≡ term (fresh_head name sort terms.old.nodes) no_terms) }
    ensures sort { IfOk result (λ t. sort_at terms.new t ≡ sort) }
    ensures in_range { IfOk result (λ t. t.0 < length terms.new.nodes) }
    ensures grows { Extends terms.old terms.new }
    ensures size { result ≡ Err Size → length terms.old.nodes ≡ terms.old.most }
    ensures few { HasFewNumbers terms.old → HasFewNumbers terms.new }
    ensures full { length terms.old.nodes ≡ terms.old.most → result ≡ Err Size }
{
    if terms.len() == terms.most() {
        return Err(TermFault::Size);
    }
    let number = greatest(terms, name, sort) + 1;
    terms.make(numbered(name, sort, number), &[])
}
