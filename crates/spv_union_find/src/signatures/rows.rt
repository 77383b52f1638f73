// A row of the table.

ghost use Rattle.std.specs.Prelude.{◌≡◌, ◌<◌, ◌≤◌, ◌+◌, Some, length, map, nat_eq, slice_get};
ghost use Rattle.std.specs.Cmp.Lexicographic.{pointwise};
ghost use Rattle.spv_logic.specs.Terms.{head_eq};
ghost use Rattle.spv_union_find.specs.signatures.Signatures as spec;

use crate::signatures::chains::Chains;
use spv_logic::{Head, TermId};
use std::hash::{FoldHasher, Hash, Hasher};

/// A head and a term; the labels are so many cells of the table, from a place on.
#[derive(Clone, Copy, Debug)]
pub(crate) struct Row {
    pub(crate) head: Head,
    pub(crate) start: usize,
    pub(crate) size: usize,
    pub(crate) term: TermId,
}

// Whether two heads are the same.
fn same_head(left: Head, right: Head) -> bool
    ensures { result ≡ head_eq left right }
{
    left == right
}

// Whether two lists of labels are the same.
fn same_labels(left: &[usize], right: &[usize]) -> bool
    ensures { result ≡ pointwise nat_eq left.now right.now }
{
    left == right
}

// Whether a row is that of a head and labels.
fn is_for(row: Row, cells: &[usize], head: Head, labels: &[usize]) -> bool
    requires { row.start + row.size ≤ length cells.now }
    ensures { result ≡ spec.is_for head labels.now (spec.signature cells.now row) }
{
    let end = row.start + row.size;
    same_head(row.head, head) && same_labels(&cells[row.start..end], labels)
}

// The row at a place.
pub(crate) fn row_at(rows: &[Row], place: usize) -> Row
    requires { place < length rows.now }
    ensures { slice_get rows.now place ≡ Some result }
{
    rows[place]
}

// The hash of a head over labels.
pub(crate) fn hash(head: Head, labels: &[usize]) -> u64
    ensures { result ≡ spec.hash_of head labels.now }
{
    let mut hasher = FoldHasher::default();
    head.hash(&mut hasher);
    labels.hash(&mut hasher);
    hasher.finish()
}

// The term of the last row of a head and labels.
pub(crate) fn find(
    rows: &[Row],
    cells: &[usize],
    hashes: &Chains,
    head: Head,
    labels: &[usize],
) -> Option<TermId>
    requires laid { spec.Laid 0 rows.now (length cells.now) }
    requires hashes { hashes.now.hashes ≡ map spec.hash (map (spec.signature cells.now) rows.now) }
    ensures { result ≡ spec.held (map (spec.signature cells.now) rows.now) head labels.now }
{
    let hash = hash(head, labels);
    let mut below = rows.len();
    while let Some(place) = hashes.last_below(below, hash) {
        let row = row_at(rows, place);
        if is_for(row, cells, head, labels) {
            return Some(row.term);
        }
        below = place;
    }
    None
}
