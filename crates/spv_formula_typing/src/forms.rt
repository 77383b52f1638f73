// What the forms of a text become.

ghost use Rattle.std.specs.Prelude.{◌≡◌, ℕ, List, IfOk, IfErr, Ok};
ghost use Rattle.spv_tree.specs.declared.syntax.names.Name.{Name as NameText};
ghost use Rattle.spv_typing.specs.Outcomes.{Outcome, after};
ghost use Rattle.spv_typing.specs.OperatorWalk as spec;
ghost use Rattle.spv_environments.specs.Answers.{Stops};
ghost use Rattle.spv_formula_typing.specs.Operands.{operand_of, operands_of};
ghost use Rattle.spv_formula_typing.specs.Arguments as arguments;

use spv_logic::{Sort, TypeId};
use spv_program::{Arithmetic, Comparison, Connective};
use spv_tree::syntax::Name;
use spv_typing::TypeFault;
use std::alloc::{AllocError, Global};

/// What an operand became.
#[derive(Drop)]
pub enum Operand<X> {
    /// Something of this sort.
    Of(X, Sort),
    /// NIL, on this line; the other side tells its type.
    Nil(u32),
}

/// How an argument is read.
#[derive(Clone, Copy, PartialEq, Eq, Debug)]
pub enum Way {
    /// As a value.
    Value,
    /// As a place that is written.
    Place,
    /// As the name of a field.
    Field,
}

/// What an argument is, as it was read.
#[derive(Drop)]
pub enum Given<X, S> {
    /// A value.
    Value(Operand<X>),
    /// A place that is written.
    Place(S),
    /// Something that is no designator, where a place is wanted.
    NoPlace,
    /// The name of a field, where it is a name alone.
    Field(Option<Name>),
}

/// What the forms of a text become, in annotations or in expressions. Each line is that of the first token of the
/// construct that a fault would be told of.
pub trait Forms {
    /// A formula or an expression.
    type Formed: Drop;
    /// What a name with selectors has come to.
    type Reached: Drop;
    /// What a name with arguments in brackets calls.
    type Callee: Drop;

    ghost use Rattle.spv_formula_typing.specs.declared.forms.Way.{Way};

    ghost forms: { Self → spec.Forms Self.Formed Self.Reached };

    ghost way_of: { Self → Self.Callee → ℕ → Way };

    ghost applied_to: { Self → ℕ → NameText → Self.Callee → List (ℕ × arguments.Given Self.Formed Self.Reached) → Outcome Self.Reached };

    ghost indexed_at: { Self → ℕ → Self.Reached → List (ℕ × spec.Operand Self.Formed) → Outcome Self.Reached };

    /// A numeral with its sign, or a constant.
    fn numeral(&self, n: i64) -> Self::Formed
        ensures { result ≡ (forms self.now).numeral n };

    /// TRUE or FALSE.
    fn boolean(&self, value: bool) -> Self::Formed
        ensures { result ≡ (forms self.now).boolean value };

    /// NIL of this type.
    fn nil_of(&self, t: TypeId) -> Self::Formed
        ensures { result ≡ (forms self.now).nil_of t };

    /// A sign `-` that does not belong to a numeral.
    fn negative_of(&self, alloc: Global, a: Self::Formed) -> Result<Self::Formed, AllocError>
        ensures { IfOk result (λ x. x ≡ (forms self.now).negative_of a) };

    /// Two numbers calculated to one.
    fn calculated(
        &self,
        alloc: Global,
        o: Arithmetic,
        a: Self::Formed,
        b: Self::Formed,
    ) -> Result<Self::Formed, AllocError>
        ensures { IfOk result (λ x. x ≡ (forms self.now).calculated o a b) };

    /// Two values compared.
    fn compares(
        &self,
        alloc: Global,
        o: Comparison,
        a: Self::Formed,
        b: Self::Formed,
    ) -> Result<Self::Formed, AllocError>
        ensures { IfOk result (λ x. x ≡ (forms self.now).compares o a b) };

    /// NOT.
    fn negated(&self, alloc: Global, a: Self::Formed) -> Result<Self::Formed, AllocError>
        ensures { IfOk result (λ x. x ≡ (forms self.now).negated a) };

    /// Two truth values joined.
    fn joined(
        &self,
        alloc: Global,
        o: Connective,
        a: Self::Formed,
        b: Self::Formed,
    ) -> Result<Self::Formed, AllocError>
        ensures { IfOk result (λ x. x ≡ (forms self.now).joined o a b) };

    /// Whether `->` may stand.
    fn may_imply(&self) -> bool
        ensures { result ≡ (forms self.now).may_imply };

    /// `a -> b`
    fn implied(
        &self,
        alloc: Global,
        a: Self::Formed,
        b: Self::Formed,
    ) -> Result<Self::Formed, AllocError>
        ensures { IfOk result (λ x. x ≡ (forms self.now).implied a b) };

    /// Whether `=` and `<>` compare values of this sort.
    fn comparable(&self, of: Sort) -> bool
        ensures { result ≡ (forms self.now).comparable of };

    /// `#T`
    fn class_of(&self, line: u32, x: Name) -> Result<Operand<Self::Formed>, TypeFault>
        ensures ok { IfOk result (λ o. (forms self.now).class_of line x ≡ Ok (operand_of o)) }
        ensures err { IfErr result (λ e. Stops e ((forms self.now).class_of line x)) };

    /// A name that is read.
    fn begin(&self, alloc: Global, line: u32, x: Name) -> Result<Self::Reached, TypeFault>
        ensures ok { IfOk result (λ r. (forms self.now).begin line x ≡ Ok r) }
        ensures err { IfErr result (λ e. Stops e ((forms self.now).begin line x)) };

    /// A name that is written.
    fn begin_written(&self, alloc: Global, line: u32, x: Name) -> Result<Self::Reached, TypeFault>
        ensures ok { IfOk result (λ r. (forms self.now).begin_written line x ≡ Ok r) }
        ensures err { IfErr result (λ e. Stops e ((forms self.now).begin_written line x)) };

    /// What a name with arguments calls, before the arguments are read.
    fn callee(&self, line: u32, x: Name) -> Result<Self::Callee, TypeFault>
        ensures ok { IfOk result (λ c. (given : List (spec.Argument Self.Formed Self.Reached)) →
            (forms self.now).apply line x given ≡ after (arguments.given_as (way_of self.now c) 0 given) (applied_to self.now line x c)) }
        ensures err { IfErr result (λ e. (given : List (spec.Argument Self.Formed Self.Reached)) → Stops e ((forms self.now).apply line x given)) };

    /// How the argument at a place, from 0, is read.
    fn way(&self, callee: &Self::Callee, place: usize) -> Way
        ensures { result ≡ way_of self.now callee.now place };

    /// What is called, with its arguments as they were read, each with its line.
    fn applied(
        &self,
        alloc: Global,
        line: u32,
        x: Name,
        callee: Self::Callee,
        given: Vec<(u32, Given<Self::Formed, Self::Reached>)>,
    ) -> Result<Self::Reached, TypeFault>
        ensures ok { IfOk result (λ r. applied_to self.now line x callee (arguments.all_given given.items) ≡ Ok r) }
        ensures err { IfErr result (λ e. Stops e (applied_to self.now line x callee (arguments.all_given given.items))) };

    /// An element, or an element of an element, at indices with their lines.
    fn indexed(
        &self,
        alloc: Global,
        line: u32,
        reached: Self::Reached,
        indices: Vec<(u32, Operand<Self::Formed>)>,
    ) -> Result<Self::Reached, TypeFault>
        ensures ok { IfOk result (λ r. indexed_at self.now line reached (operands_of indices.items) ≡ Ok r) }
        ensures err { IfErr result (λ e. Stops e (indexed_at self.now line reached (operands_of indices.items))) };

    /// `.x`
    fn field_of(
        &self,
        alloc: Global,
        line: u32,
        reached: Self::Reached,
        x: Name,
    ) -> Result<Self::Reached, TypeFault>
        ensures ok { IfOk result (λ r. (forms self.now).field_of line reached x ≡ Ok r) }
        ensures err { IfErr result (λ e. Stops e ((forms self.now).field_of line reached x)) };

    /// `^` on the line `at`.
    fn content_of(
        &self,
        alloc: Global,
        line: u32,
        at: u32,
        reached: Self::Reached,
    ) -> Result<Self::Reached, TypeFault>
        ensures ok { IfOk result (λ r. (forms self.now).content_of line at reached ≡ Ok r) }
        ensures err { IfErr result (λ e. Stops e ((forms self.now).content_of line at reached)) };

    /// What a name with selectors is as an operand.
    fn finish(
        &self,
        alloc: Global,
        reached: Self::Reached,
    ) -> Result<Operand<Self::Formed>, AllocError>
        ensures { IfOk result (λ o. operand_of o ≡ (forms self.now).finish reached) };

    ghost indexes: { (s : Self) (line : ℕ) (r : Self.Reached) (given : List (spec.Argument Self.Formed Self.Reached)) →
        (forms s).indexed line r given ≡ after (spec.operands given) (indexed_at s line r) };
}
