// Joining equalities, and those that follow by congruence.

ghost use Rattle.std.specs.Prelude.{◌≡◌, ◌≢◌, ◌<◌, ◌≤◌, ◌++◌, [], ◌∷◌, suc, List, IfOk, OnOk, IfSome, IfNone, length, map};
ghost use Rattle.spv_logic.specs.declared.conditions.TermId.{TermId};
ghost use Rattle.spv_union_find.specs.classes.Classes.{label, join_of, IsJoin, HasMembers};
ghost use Rattle.spv_congruence.specs.Graph.{label_of};
ghost use Rattle.spv_congruence.specs.Keep.{Fits, GoesOn, HasUsers, IsNow, uses_at, with_join};

use crate::facts::Equal;
use crate::kept::{Kept, is_node};
use spv_term::TermId;
use spv_union_find::classes::{Cause, Join};
use std::alloc::AllocError;

// Adds the terms that use a term.
fn add_uses(users: &mut Vec<TermId>, uses: &[Vec<TermId>], x: usize) -> Result<(), AllocError>
    ensures { OnOk result (users.new.items ≡ users.old.items ++ uses_at (map (λ v. v.items) uses.now) x) }
{
    if x < uses.len() {
        users.extend_from_slice(uses[x].as_slice())?;
    }
    Ok(())
}

impl Kept {
    // The members of a class, by its label.
    fn members(&self, class: usize) -> Result<Vec<usize>, AllocError>
        requires label { label self.now.classes.joins class ≡ class }
        requires within { class < self.now.classes.count }
        ensures { IfOk result (λ v. HasMembers self.now.classes class v.items) }
    {
        self.classes.members(*self.added.allocator(), class)
    }

    // Adds the terms that use a term.
    fn add_uses(&self, users: &mut Vec<TermId>, x: usize) -> Result<(), AllocError>
        ensures { OnOk result (users.new.items ≡ users.old.items ++ uses_at self.now.uses x) }
    {
        add_uses(users, self.uses.as_slice(), x)
    }

    // The terms that have an argument of a class, by its label.
    fn users(&self, class: usize) -> Result<Vec<TermId>, AllocError>
        requires label { label self.now.classes.joins class ≡ class }
        requires within { class < self.now.classes.count }
        requires fits { Fits self.now }
        ensures { IfOk result (λ v. HasUsers self.now class v.items) }
    {
        let members = self.members(class)?;
        let members = members.as_slice();
        let mut users = Vec::new(*self.added.allocator());
        for x in members {
            self.add_uses(&mut users, *x)?;
        }
        Ok(users)
    }

    // The join of the classes of two terms.
    pub(crate) fn join_of(&self, equal: Equal) -> Join
        requires left { equal.left.0 < self.now.classes.count }
        requires right { equal.right.0 < self.now.classes.count }
        ensures { result ≡ join_of self.now.classes.joins equal.left.0 equal.right.0 equal.cause }
    {
        self.classes
            .join_of(equal.left.0, equal.right.0, equal.cause)
    }

    // Joins two classes.
    pub(crate) fn add_join(&mut self, join: Join)
        requires { IsJoin self.old.classes.count self.old.classes.joins join }
        ensures { self.new ≡ with_join self.old join }
    {
        self.classes.add(join);
    }

    // Enters a term again, and adds the equality with the term that was entered with its signature first.
    fn enter_user(&mut self, equals: &mut Vec<Equal>, t: TermId) -> Result<(), AllocError>
        requires fits { Fits self.old }
        requires level { (rest : List TermId) × IsNow self.old (length self.old.added) equals.old.items (rest ++ t ∷ []) }
        ensures ok { OnOk result ((rest : List TermId) → IsNow self.old (length self.old.added) equals.old.items (rest ++ t ∷ []) → IsNow self.new (length self.new.added) equals.new.items rest) }
        ensures goes { GoesOn self.old self.new }
        ensures classes { self.new.classes ≡ self.old.classes }
    {
        self.law_joins();
        if !is_node(self.nodes.as_slice(), t) {
            return Ok(());
        }
        let first = self.enter(t)?;
        if self.label(first) != self.label(t) {
            equals.push(Equal {
                left: t,
                right: first,
                cause: Cause::Congruent,
            })?;
        }
        Ok(())
    }

    // Enters terms again.
    fn enter_users(&mut self, equals: &mut Vec<Equal>, users: Vec<TermId>) -> Result<(), AllocError>
        requires fits { Fits self.old }
        requires level { IsNow self.old (length self.old.added) equals.old.items users.items }
        ensures ok { OnOk result (IsNow self.new (length self.new.added) equals.new.items []) }
        ensures goes { GoesOn self.old self.new }
        ensures classes { self.new.classes ≡ self.old.classes }
    {
        let mut users = users;
        while let Some(t) = users.pop() {
            self.enter_user(equals, t)?;
        }
        Ok(())
    }

    // Joins the last equality, whose sides are in two classes.
    fn join_one(&mut self, equals: &mut Vec<Equal>, equal: Equal) -> Result<(), AllocError>
        requires fits { Fits self.old }
        requires level { IsNow self.old (length self.old.added) (equals.old.items ++ equal ∷ []) [] }
        requires apart { label_of self.old.classes.joins equal.left ≢ label_of self.old.classes.joins equal.right }
        ensures ok { OnOk result (IsNow self.new (length self.new.added) equals.new.items []) }
        ensures goes { GoesOn self.old self.new }
        ensures more { OnOk result (suc (length self.old.classes.joins) ≤ length self.new.classes.joins) }
        ensures few { length self.old.classes.joins < self.old.classes.count }
    {
        self.law_joins();
        let join = self.join_of(equal);
        let users = self.users(join.lower)?;
        self.add_join(join);
        self.enter_users(equals, users)
    }

    // The last equality whose sides are in two classes.
    fn next_apart(&self, equals: &mut Vec<Equal>) -> Option<Equal>
        requires fits { Fits self.now }
        requires level { IsNow self.now (length self.now.added) equals.old.items [] }
        ensures some { IfSome result (λ e. IsNow self.now (length self.now.added) (equals.new.items ++ e ∷ []) []) }
        ensures apart { IfSome result (λ e. label_of self.now.classes.joins e.left ≢ label_of self.now.classes.joins e.right) }
        ensures none { IfNone result (IsNow self.now (length self.now.added) [] []) }
    {
        while let Some(equal) = equals.pop() {
            if self.label(equal.left) != self.label(equal.right) {
                return Some(equal);
            }
        }
        None
    }

    // Joins equalities, and all that follow by congruence.
    pub(crate) fn settle(&mut self, equals: Vec<Equal>) -> Result<(), AllocError>
        requires fits { Fits self.old }
        requires level { IsNow self.old (length self.old.added) equals.items [] }
        ensures ok { OnOk result (IsNow self.new (length self.new.added) [] []) }
        ensures goes { GoesOn self.old self.new }
    {
        let mut equals = equals;
        while let Some(equal) = self.next_apart(&mut equals) {
            self.join_one(&mut equals, equal)?;
        }
        Ok(())
    }
}
