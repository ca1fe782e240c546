/// What is written of an item: the item as an entity, its stars, or its one tag in a list.
#[derive(Clone, Copy)]
pub enum Form {
    Item,
    Stars,
    Tag,
}
