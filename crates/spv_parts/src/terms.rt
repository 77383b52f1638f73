// The texts of heads and terms of every kind.

ghost use Rattle.std.specs.Prelude.{◌≡◌, ◌<◌, ◌∷◌, [], length, IfOk};
ghost use Rattle.spv_logic.specs.declared.types.Sort.TheVariants as sort;
ghost use Rattle.spv_logic.specs.declared.types.Shape.TheVariants as shape;

use spv_listing::{push_claim, push_head, push_term};
use spv_logic::list::List;
use spv_logic::names::{Names, Symbol};
use spv_reports::ProgramNames;
use spv_term::{
    Condition, Decl, Field, Head, Kind, Origin, Shape, Shapes, Sort, TermFault, TermId, Terms,
    TypeId,
};
use std::alloc::{AllocError, Global};

const X: Symbol = Symbol(0);

const T: Symbol = Symbol(1);

const F: Symbol = Symbol(2);

// The first type, whose title is T, and a type without title.
const TYPE: TypeId = TypeId(0);

const UNTITLED: TypeId = TypeId(1);

// Heads with names and numbers, and each operator.
const HEADS: [Head; 35] = [
    Head::Var(X, Sort::Int, 0),
    Head::Var(X, Sort::Int, 13),
    Head::Start(X, Sort::Int),
    Head::ClassVar(TYPE, 0),
    Head::ClassVar(TYPE, 1),
    Head::ClassVar(UNTITLED, 0),
    Head::Num(-30),
    Head::App(F),
    Head::Field(F),
    Head::Put(F),
    Head::Nil(TYPE),
    Head::Add,
    Head::Sub,
    Head::Mul,
    Head::Div,
    Head::Mod,
    Head::Eq,
    Head::Lt,
    Head::Le,
    Head::Not,
    Head::And,
    Head::Or,
    Head::Implies,
    Head::Select,
    Head::Store,
    Head::Cell,
    Head::SetCell,
    Head::Extend,
    Head::PointerTo,
    Head::Car,
    Head::Cdr,
    Head::Cons,
    Head::Atom,
    Head::True,
    Head::False,
];

// The names X, T and F.
fn names_of(alloc: Global) -> Result<Names, AllocError> {
    let mut names = Names::new(alloc);
    names.enter(b"X")?;
    names.enter(b"T")?;
    names.enter(b"F")?;
    Ok(names)
}

// Adds the text of each head.
fn push_heads(alloc: Global, out: &mut Vec<u8>) -> Result<(), AllocError> {
    let names = names_of(alloc)?;
    for head in HEADS {
        push_head(out, &names, &[Some(T), None], head)?;
        out.extend_from_slice(b"\n")?;
    }
    Ok(())
}

// Adds the text of a term.
fn push_line(alloc: Global, terms: &Terms, t: TermId, out: &mut Vec<u8>) -> Result<(), AllocError>
    requires { t.0 < length terms.now.nodes }
{
    push_term(out, &names_of(alloc)?, &[Some(T), None], terms, t)?;
    out.extend_from_slice(b"\n")
}

// A list of this symbol's declaration, with a whole number as its result.
fn declared(alloc: Global, name: Symbol, args: &[Sort]) -> Result<List<Decl>, AllocError>
    ensures { IfOk result (λ decls. decls ≡ record { name = name; args = args.now; result = sort.Int } ∷ []) }
{
    let args = List::from_vec(Vec::from_slice(alloc, args)?);
    let mut list = Vec::new(alloc);
    list.push(Decl {
        name,
        args,
        result: Sort::Int,
    })?;
    Ok(List::from_vec(list))
}

// A symbol without arguments.
fn push_constant(alloc: Global, out: &mut Vec<u8>) -> Result<(), TermFault> {
    let decls = declared(alloc, F, &[])?;
    let mut terms = Terms::new(alloc, Shapes::new(alloc), decls, 10);
    let t = terms.make(Head::App(F), &[])?;
    push_line(alloc, &terms, t, out)?;
    Ok(())
}

// A symbol over two arguments.
fn push_application(alloc: Global, out: &mut Vec<u8>) -> Result<(), TermFault> {
    let decls = declared(alloc, F, &[Sort::Int, Sort::Int])?;
    let mut terms = Terms::new(alloc, Shapes::new(alloc), decls, 10);
    let x = terms.make(Head::Var(X, Sort::Int, 0), &[])?;
    let t = terms.make(Head::App(F), &[x, x])?;
    push_line(alloc, &terms, t, out)?;
    Ok(())
}

// Pointers to a type of whole numbers, and this type.
fn pointers(alloc: Global) -> Result<Shapes, AllocError>
    ensures { IfOk result (λ shapes. shapes ≡ shape.Int ∷ shape.Pointer (record { 0 = 0 }) ∷ []) }
{
    let mut list = Vec::new(alloc);
    list.push(Shape::Int)?;
    list.push(Shape::Pointer(TYPE))?;
    Ok(Shapes::from_vec(list))
}

// A cell at NIL.
#[tactic(auto, using(spv_term::proofs::ArenaLemmas::growth))]
fn push_cell(alloc: Global, out: &mut Vec<u8>) -> Result<(), TermFault> {
    let shapes = pointers(alloc)?;
    let mut terms = Terms::new(alloc, shapes, List::new(alloc), 10);
    let class = terms.make(Head::ClassVar(TYPE, 1), &[])?;
    let nil = terms.make(Head::Nil(TYPE), &[])?;
    let t = terms.make(Head::Cell, &[class, nil])?;
    push_line(alloc, &terms, t, out)?;
    Ok(())
}

// A type of records with the field F, a whole number.
fn records(alloc: Global) -> Result<Shapes, AllocError>
    ensures { IfOk result (λ shapes. shapes ≡ shape.Record (record { name = record { 0 = 2 }; sort = sort.Int } ∷ []) ∷ []) }
{
    let mut fields = Vec::new(alloc);
    fields.push(Field {
        name: F,
        sort: Sort::Int,
    })?;
    let mut list = Vec::new(alloc);
    list.push(Shape::Record(List::from_vec(fields)))?;
    Ok(Shapes::from_vec(list))
}

// A record with its own field put into it.
#[tactic(auto, using(spv_term::proofs::ArenaLemmas::growth))]
fn push_record(alloc: Global, out: &mut Vec<u8>) -> Result<(), TermFault> {
    let shapes = records(alloc)?;
    let mut terms = Terms::new(alloc, shapes, List::new(alloc), 10);
    let r = terms.make(Head::Var(X, Sort::Whole(TYPE), 0), &[])?;
    let t = terms.make(Head::Field(F), &[r])?;
    let t = terms.make(Head::Put(F), &[r, t])?;
    push_line(alloc, &terms, t, out)?;
    Ok(())
}

// The lines of the condition on line 7 that claims the second term wherever the first is true.
fn push_condition(
    alloc: Global,
    terms: &Terms,
    given: TermId,
    goal: TermId,
    out: &mut Vec<u8>,
) -> Result<(), AllocError>
    requires given { given.0 < length terms.now.nodes }
    requires goal { goal.0 < length terms.now.nodes }
{
    let mut list = Vec::new(alloc);
    list.push(given)?;
    let condition = Condition {
        given: List::from_vec(list),
        goal,
        origin: Origin {
            routine: None,
            kind: Kind::Assert,
            line: 7,
        },
    };
    let named = ProgramNames {
        names: names_of(alloc)?,
        titles: List::new(alloc),
        routines: List::new(alloc),
    };
    push_claim(out, &named, terms, 2, &condition)
}

// A condition with a hypothesis.
fn push_sequent(alloc: Global, out: &mut Vec<u8>) -> Result<(), TermFault> {
    let mut terms = Terms::new(alloc, Shapes::new(alloc), List::new(alloc), 10);
    let x = terms.make(Head::Var(X, Sort::Bool, 0), &[])?;
    let goal = terms.make(Head::Not, &[x])?;
    push_condition(alloc, &terms, x, goal, out)?;
    Ok(())
}

// Adds the number of an answer, or that the arena is full.
fn push_made(
    alloc: Global,
    made: Result<TermId, TermFault>,
    out: &mut Vec<u8>,
) -> Result<(), AllocError> {
    let line = match made {
        Ok(t) => format!(in alloc; "term {}\n", t.0)?,
        Err(fault) => format!(in alloc; "{fault}\n")?,
    };
    out.extend_from_slice(line.as_str().as_bytes())
}

// Ids of the greatest and the least numeral, in an arena that has room for two terms.
fn push_ids(alloc: Global, out: &mut Vec<u8>) -> Result<(), AllocError> {
    let greatest = 170141183460469231731687303715884105727;
    let mut terms = Terms::new(alloc, Shapes::new(alloc), List::new(alloc), 2);
    push_made(alloc, terms.make(Head::Num(greatest), &[]), out)?;
    push_made(alloc, terms.make(Head::Num(-greatest), &[]), out)?;
    push_made(alloc, terms.make(Head::True, &[]), out)?;
    push_made(alloc, terms.make(Head::Num(greatest), &[]), out)
}

/// Adds the text of each head, terms of several kinds, a condition, and the ids of equal terms.
pub fn show(alloc: Global, out: &mut Vec<u8>) -> Result<(), AllocError> {
    push_heads(alloc, out)?;
    let shown = push_terms(alloc, out);
    push_made(alloc, shown, out)?;
    push_ids(alloc, out)
}

// Adds the terms, and answers the first id.
fn push_terms(alloc: Global, out: &mut Vec<u8>) -> Result<TermId, TermFault> {
    push_constant(alloc, out)?;
    push_application(alloc, out)?;
    push_cell(alloc, out)?;
    push_record(alloc, out)?;
    push_sequent(alloc, out)?;
    Ok(TermId(0))
}
