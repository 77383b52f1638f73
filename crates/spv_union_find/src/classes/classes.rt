// Classes of numbers.

ghost use Rattle.std.specs.Prelude.{◌≡◌, ◌≢◌, ◌<◌, ◌+◌, ◌-◌, [], ◌∷◌, ◌++◌, IfOk, OnOk, OnErr, length, take};
ghost use Rattle.spv_union_find.specs.classes.Classes as spec;

use crate::classes::joins::{Cause, Join, Point};
use crate::classes::rings::{link, point, unlink};
use std::alloc::{AllocError, Global};
use std::marker::Model;

/// Numbers from 0 on in classes, at first each in one of its own. What was joined can be taken back, the last join first.
#[derive(Drop)]
pub struct Classes {
    points: Vec<Point>,
    joins: Vec<Join>,
}

impl Model for Classes {
    ghost use Rattle.std.specs.Prelude.{length, ◌≤◌};
    ghost use Rattle.std.specs.Vec.{vec_capacity};
    ghost use Rattle.spv_union_find.specs.classes.Classes as spec;

    ghost Value = { spec.Classes };

    ghost view = { λ c. record { count = length c.points.items; joins = c.joins.items } };

    ghost invariant = { λ c. record {
      points : spec.ArePoints c.joins.items c.points.items;
      joins : spec.AreJoins (length c.points.items) c.joins.items;
      room : length c.points.items ≤ vec_capacity c.joins;
    } };
}

impl Classes {
    /// No numbers. It takes no memory.
    pub fn new(alloc: Global) -> Classes
        ensures { result ≡ record { count = 0; joins = [] } }
    {
        Classes {
            points: Vec::new(alloc),
            joins: Vec::new(alloc),
        }
    }

    /// How many numbers there are.
    pub fn count(&self) -> usize
        ensures { result ≡ self.now.count }
    {
        self.points.as_slice().len()
    }

    /// The joins, in order.
    pub fn joins(&self) -> &[Join]
        ensures { result.now ≡ self.now.joins }
    {
        self.joins.as_slice()
    }

    /// What is true of the joins.
    pub fn law_joins(&self)
        ensures { spec.AreJoins self.now.count self.now.joins }
    {
        let _points = &self.points;
    }

    /// The label of a number's class.
    pub fn label(&self, x: usize) -> usize
        requires { x < self.now.count }
        ensures { result ≡ spec.label self.now.joins x }
    {
        point(self.points.as_slice(), x).label
    }

    /// One number more, in a class of its own.
    pub fn grow(&mut self) -> Result<(), AllocError>
        ensures ok { OnOk result (self.new ≡ record self.old { count = self.old.count + 1 }) }
        ensures err { OnErr result (self.new ≡ self.old) }
    {
        let count = self.points.as_slice().len();
        let room = count.saturating_sub(self.joins.as_slice().len()) + 1;
        self.joins.reserve(room)?;
        self.points.push(Point {
            label: count,
            size: 1,
            next: count,
            taken: None,
        })?;
        Ok(())
    }

    /// Joins two classes. It takes no memory.
    pub fn add(&mut self, join: Join)
        requires { spec.IsJoin self.old.count self.old.joins join }
        ensures { self.new ≡ record self.old { joins = self.old.joins ++ join ∷ [] } }
    {
        let place = self.joins.as_slice().len();
        link(self.points.as_mut_slice(), join.lower, join.upper, place);
        self.joins.push(join).unwrap();
    }

    // Takes the last join back.
    fn pop(&mut self)
        requires { 0 < length self.old.joins }
        ensures { self.new ≡ record self.old { joins = take (length self.old.joins - 1) self.old.joins } }
    {
        let join = self.joins.pop().unwrap();
        unlink(self.points.as_mut_slice(), join.lower, join.upper);
    }

    /// The join of the classes of two numbers: the smaller class gets the label of the other.
    pub fn join_of(&self, left: u32, right: u32, cause: Cause) -> Join
        requires left { left < self.now.count }
        requires right { right < self.now.count }
        ensures { result ≡ spec.join_of self.now.joins left right cause }
    {
        let points = self.points.as_slice();
        let first = point(points, left as usize).label;
        let second = point(points, right as usize).label;
        if point(points, first).size <= point(points, second).size {
            Join {
                lower: first,
                upper: second,
                left,
                right,
                cause,
            }
        } else {
            Join {
                lower: second,
                upper: first,
                left,
                right,
                cause,
            }
        }
    }

    /// Takes joins back until so many are left. It takes no memory.
    pub fn cut(&mut self, count: usize)
        ensures { self.new ≡ record self.old { joins = take count self.old.joins } }
    {
        while self.joins().len() > count {
            self.pop();
        }
    }

    /// How many members a class has, by its label.
    pub fn size(&self, label: usize) -> usize
        requires { label < self.now.count }
        ensures { result ≡ spec.size self.now.joins label }
    {
        point(self.points.as_slice(), label).size
    }

    /// The next member of a number's class, round about.
    pub fn next(&self, x: usize) -> usize
        requires { x < self.now.count }
        ensures next { result ≡ spec.next self.now.joins x }
        ensures within { result < self.now.count }
    {
        self.law_joins();
        point(self.points.as_slice(), x).next
    }

    /// Where the join stands that took a label away.
    pub fn taken_at(&self, label: usize) -> Option<usize>
        requires { label < self.now.count }
        ensures { result ≡ spec.taken_at self.now.joins label }
    {
        point(self.points.as_slice(), label).taken
    }

    /// The members of a class, by its label.
    pub fn members(&self, alloc: Global, label: usize) -> Result<Vec<usize>, AllocError>
        requires within { label < self.now.count }
        requires label { spec.label self.now.joins label ≡ label }
        ensures ring { IfOk result (λ v. v.items ≡ spec.ring_from self.now.joins label (spec.size self.now.joins label)) }
        ensures within { IfOk result (λ v. spec.AreWithin self.now.count v.items) }
        ensures all { IfOk result (λ v. spec.HasMembers self.now label v.items) }
    {
        self.law_joins();
        let mut members = Vec::new(alloc);
        let mut at = label;
        for _ in 0..self.size(label) {
            members.push(at)?;
            at = self.next(at);
        }
        Ok(members)
    }
}
