//! Lists that were read to their end.

ghost use Rattle.std.specs.Prelude.{◌≡◌};

use tree_items::Items;

/// The same items. The room that none of them takes is given back, so the empty list holds no memory.
pub fn fitted<T>(items: Items<T>) -> Items<T>
    ensures { result ≡ items }
{
    let mut elements = items.into_vec();
    elements.shrink_to_fit();
    Items::from_vec(elements)
}
