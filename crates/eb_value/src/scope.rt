use crate::lists::Sizes;

/// The finite scope in which values are chosen: integers from `lo` to `hi`, the number of
/// atoms of each carrier set, and how many events a sequence has at most.
#[derive(Drop)]
pub struct Scope {
    pub lo: i64,
    pub hi: i64,
    pub sizes: Sizes,
    pub depth: u32,
}
