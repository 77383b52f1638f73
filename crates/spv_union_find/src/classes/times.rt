// When numbers came into one class.

ghost use Rattle.std.specs.Prelude.{◌≡◌, ◌≢◌, ◌<◌, ◌≤◌, ◌+◌, ◌⊎◌, None, Some, length, slice_get, take};
ghost use Rattle.spv_union_find.specs.classes.Classes as spec;

use crate::classes::classes::Classes;
use crate::classes::joins::Join;

// The join at a place.
fn join_at(joins: &[Join], place: usize) -> Join
    requires { place < length joins.now }
    ensures { slice_get joins.now place ≡ Some result }
{
    joins[place]
}

// How many joins there are up to a place.
fn after(joins: &[Join], place: usize) -> usize
    requires { place < length joins.now }
    ensures { result ≡ place + 1 }
{
    place + 1
}

// The label after a join.
fn one_label(label: usize, join: Join) -> usize
    ensures { result ≡ spec.one_label label join }
{
    if label == join.lower {
        join.upper
    } else {
        label
    }
}

impl Classes {
    /// The join at a place.
    pub fn join_at(&self, place: usize) -> Join
        requires { place < length self.now.joins }
        ensures { slice_get self.now.joins place ≡ Some result }
    {
        join_at(self.joins(), place)
    }

    // Where the first join stands that takes one of two labels away.
    fn next_taken(&self, a: usize, b: usize) -> usize
        requires first { a < self.now.count }
        requires second { b < self.now.count }
        requires some { (spec.taken_at self.now.joins a ≢ None) ⊎ (spec.taken_at self.now.joins b ≢ None) }
        ensures { spec.IsNextTaken self.now.joins a b result }
    {
        match self.taken_at(a) {
            Some(i) => match self.taken_at(b) {
                Some(j) => { if i < j { i } else { j } }
                None => i,
            },
            None => match self.taken_at(b) {
                Some(j) => j,
                None => unreachable!(),
            },
        }
    }

    /// The place of the last join that was needed to bring two numbers into one class. The labels of the two go up to it in as few steps as
    /// their classes were joined to larger ones.
    pub fn latest(&self, x: usize, y: usize) -> usize
        requires first { x < self.now.count }
        requires second { y < self.now.count }
        requires apart { x ≢ y }
        requires same { spec.label self.now.joins x ≡ spec.label self.now.joins y }
        ensures { spec.IsLatest self.now.joins x y result }
    {
        self.law_joins();
        let mut a = x;
        let mut b = y;
        let mut time = 0;
        while a != b {
            let place = self.next_taken(a, b);
            let join = self.join_at(place);
            a = one_label(a, join);
            b = one_label(b, join);
            time = after(self.joins(), place);
        }
        time - 1
    }

    /// The label of a number's class when there were so many joins.
    pub fn label_at(&self, x: usize, time: usize) -> usize
        requires within { x < self.now.count }
        requires time { time ≤ length self.now.joins }
        ensures { result ≡ spec.label (take time self.now.joins) x }
    {
        self.law_joins();
        let mut at = x;
        while let Some(place) = self.taken_before(at, time) {
            at = self.join_at(place).upper;
        }
        at
    }

    // Where the join stands that took a label away, if it is among so many.
    fn taken_before(&self, label: usize, time: usize) -> Option<usize>
        requires { label < self.now.count }
        ensures { result ≡ spec.before_time time (spec.taken_at self.now.joins label) }
    {
        match self.taken_at(label) {
            Some(place) => { if place < time { Some(place) } else { None } }
            None => None,
        }
    }
}
