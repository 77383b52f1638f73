// What a test adds to a count.

ghost use Rattle.std.specs.Prelude.{◌≡◌, ◌≤◌, cond};

/// 1 where a test holds, else 0.
pub(crate) fn one_if(test: bool) -> usize
    ensures number { result ≡ cond test 1 0 }
    ensures small { result ≤ 1 }
{
    if test { 1 } else { 0 }
}
