// The members of a class, which stand on a ring.

ghost use Rattle.std.specs.Prelude.{◌≡◌, ℕ, ◌+◌, ◌<◌, ◌≤◌, length};
ghost use Rattle.spv_union_find.specs.classes.Classes.{point_at, with_label, relabelled, linked, parted, unlinked};

use crate::classes::joins::Point;

// What is kept for a number.
pub(crate) fn point(points: &[Point], x: usize) -> Point
    requires { x < length points.now }
    ensures { result ≡ point_at points.now x }
{
    points[x]
}

// The same with another label.
fn with_label(point: Point, label: usize) -> Point
    ensures { result ≡ with_label point label }
{
    Point {
        label,
        size: point.size,
        next: point.next,
        taken: point.taken,
    }
}

// Puts a label to so many points on a ring.
pub(crate) fn relabel(points: &mut [Point], start: usize, count: usize, label: usize)
    requires start { start < length points.old }
    requires next { (x : ℕ) → x < length points.old → (point_at points.old x).next < length points.old }
    ensures { points.new ≡ relabelled points.old start count label }
{
    let mut at = start;
    for _ in 0..count {
        let here = point(points, at);
        points[at] = with_label(here, label);
        at = here.next;
    }
}

// Puts two rings together into one, with the label of the upper one.
pub(crate) fn link(points: &mut [Point], lower: usize, upper: usize, place: usize)
    requires lower { lower < length points.old }
    requires upper { upper < length points.old }
    requires next { (x : ℕ) → x < length points.old → (point_at points.old x).next < length points.old }
    requires fits { (point_at points.old upper).size + (point_at points.old lower).size ≤ length points.old }
    ensures { points.new ≡ linked points.old lower upper place }
{
    let low = point(points, lower);
    let high = point(points, upper);
    relabel(points, lower, low.size, upper);
    points[lower] = Point {
        label: upper,
        size: low.size,
        next: high.next,
        taken: Some(place),
    };
    points[upper] = Point {
        label: upper,
        size: high.size + low.size,
        next: low.next,
        taken: high.taken,
    };
}

// Takes one ring out of another one, with the label that it had.
pub(crate) fn unlink(points: &mut [Point], lower: usize, upper: usize)
    requires lower { lower < length points.old }
    requires upper { upper < length points.old }
    requires size { (point_at points.old lower).size ≤ (point_at points.old upper).size }
    requires next { (x : ℕ) → x < length points.old → (point_at (parted points.old lower upper) x).next < length points.old }
    ensures { points.new ≡ unlinked points.old lower upper }
{
    let low = point(points, lower);
    let high = point(points, upper);
    points[lower] = Point {
        label: low.label,
        size: low.size,
        next: high.next,
        taken: None,
    };
    points[upper] = Point {
        label: high.label,
        size: high.size - low.size,
        next: low.next,
        taken: high.taken,
    };
    relabel(points, lower, low.size, lower);
}
