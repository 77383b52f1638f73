// Lists of parts that are not empty.

ghost use Rattle.std.specs.Prelude.{◌≡◌, IfOk};
ghost use Rattle.spv_tree.specs.syntax.Lines.{items_in};

use spv_logic::list::List;
use std::alloc::{AllocError, Global};

/// Parts of one kind, in the order of the text, at least one.
#[derive(Debug, Drop)]
pub struct Several<T> {
    /// The first of them.
    pub first: T,
    /// The others, in order.
    pub more: List<T>,
}

/// The items of a list that stands in a box where it is not empty.
pub fn items<T>(list: &Option<Box<Vec<T>>>) -> &[T]
    ensures { result.now ≡ items_in list.now }
{
    match list {
        None => &[],
        Some(items) => items.as_slice(),
    }
}

/// The same list, in a box where it is not empty.
pub fn in_box<T: Drop>(alloc: Global, items: Vec<T>) -> Result<Option<Box<Vec<T>>>, AllocError>
    ensures { IfOk result (λ list. items_in list ≡ items.items) }
{
    if items.is_empty() {
        return Ok(None);
    }
    Ok(Some(Box::new(alloc, items)?))
}
