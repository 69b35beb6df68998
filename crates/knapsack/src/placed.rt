use crate::item::Item;

/// An item with its number in the text, from 0.
#[derive(Clone, Copy, Debug)]
pub(crate) struct Placed {
    pub(crate) number: usize,
    pub(crate) item: Item,
}
