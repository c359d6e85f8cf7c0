//! Names that only clauses read.
ghost use Rattle.std.specs.Prelude.{◌≡◌, ℕ, List, [], ◌∷◌, ◌++◌};
ghost use Rattle.std.specs.Borrow.{ftrue};

use eb_names::Name;
use std::marker::Model;

/// The names that were given to `open` so far, oldest first. They take no memory: contracts see them, and the
/// program does nothing for them. What ties them to the calls is that `open` of each source adds its name, whatever
/// it answers, and that code over any source gets none but by such a call.
///
/// There is no field besides them, since nothing is kept at run time: `also_owns`, by which the names may be data, says
/// that nothing in memory goes with them. So both functions are proved by hand.
#[derive(Drop)]
pub struct OpenedNames {
    pub ghost names: { List (List ℕ) },
}

impl Model for OpenedNames {
    ghost also_owns = { λ _. ftrue };
}

impl OpenedNames {
    /// No name.
    pub fn new() -> OpenedNames
        ensures { result.names ≡ [] }
    {
        OpenedNames {}
    }

    /// These names and one more.
    pub fn with(_before: &OpenedNames, _name: &Name) -> OpenedNames
        ensures { result.names ≡ _before.now.names ++ _name.now ∷ [] }
    {
        OpenedNames {}
    }
}
