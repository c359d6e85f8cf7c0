use occ_domains::Domain;

/// What a slot gets on the way from one store to the next.
#[derive(Drop)]
pub(crate) struct Change {
    pub(crate) slot: u64,
    /// A domain of its own, or none, where the first one is to hold again.
    pub(crate) domain: Option<Domain>,
    /// Whether the store after this change is that of a box.
    pub(crate) is_box: bool,
}
