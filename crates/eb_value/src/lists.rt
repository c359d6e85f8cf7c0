use crate::value::Value;
use sqlite_items::Items;

/// The size of each carrier set, in the order of declaration.
pub type Sizes = Items<u32>;

/// The members of a set: ascending and distinct.
pub type Values = Items<Value>;

/// Values in any order, one a place.
pub type Row = Items<Value>;

/// What a set may have as members: the values of a list, or any.
#[derive(Drop)]
pub enum May {
    List(Values),
    Any,
}
