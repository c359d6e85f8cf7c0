//! Types, values and scopes of Event-B, and the operators on sets and relations.
#![tactic(auto)]

mod application;
mod canonical;
mod families;
mod laws;
mod listing;
mod lists;
mod merges;
mod order;
mod products;
mod read;
mod relations;
mod rows;
mod scope;
mod sets;
mod text;
mod typed_results;
mod types;
mod typing;
mod value;

pub use application::{apply, is_functional};
pub use canonical::{canonical_values_have_canonical_parts, operators_keep_values_canonical};
pub use families::{meet_all, union_all};
pub use laws::{
    integers_lie_within_bounds, members_determine_ascending_lists, order_is_total,
    values_are_ascending, values_are_complete, values_are_told_by_their_texts,
};
pub use listing::{integers, values};
pub use lists::{May, Row, Sizes, Values};
pub use order::{compare, is_ascending};
pub use products::{compose, cross, direct, parallel};
pub use read::{ValueFault, read_value};
pub use relations::{
    dom_drop, dom_keep, domain, image, inverse, overlay, ran_drop, ran_keep, range,
};
pub use rows::{read_values, values_text};
pub use scope::Scope;
pub use sets::{contains, meet, minus, set_of, union};
pub use text::value_text;
pub use typed_results::operators_keep_types;
pub use types::{EbType, Shape, same_type};
pub use typing::{count, has_type};
pub use value::{Form, LIMIT, Value, parts, values_copied};
