//! Notes.

use eb_names::Name;

/// A bound identifier that takes its values, in which there are integers, from the scope.
#[derive(Drop)]
pub struct Note {
    /// The label of its formula, with its `@`.
    pub label: Name,
    pub identifier: Name,
}
