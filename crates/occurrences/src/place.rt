ghost use Rattle.std.specs.Prelude.{◌≡◌, List};
ghost use Rattle.eb_value.specs.declared.value.Value.{Value as TheValue};
ghost use Rattle.occ_domains.specs.declared.domain.Domain.{Domain as TheDomain};
ghost use Rattle.occurrences.specs.declared.place.Place.{Place as ThePlace};

use eb_value::{Value, Values};
use occ_domains::Domain;

/// Where a formula occurs, but for the values of the binders around it.
#[derive(Clone, Copy)]
pub enum Place {
    /// The choice at this place.
    Choice(u64),
    /// The definition at this place.
    Definition(u64),
    /// The node with this number.
    Node(u64),
}

/// A place with a value for each binder around it, the outermost first.
#[derive(Drop)]
pub struct Occurrence {
    pub place: Place,
    pub bound: Values,
}

/// How a domain is narrowed.
#[derive(Clone, Copy)]
pub enum Rule {
    /// That of a formula by those of its parts.
    Up,
    /// That of a part by those of its formula and of the other parts.
    Down,
    /// That of a choice or a definition by that of a reference to it.
    Refer,
}

/// What gives each occurrence a domain.
pub trait View {
    /// The domain of a place, by the values of the binders around it, the outermost first.
    ghost domains: { Self → ThePlace → List TheValue → TheDomain };

    /// The domain of an occurrence.
    fn at<'s>(&'s self, place: Place, bound: &[Value]) -> &'s Domain
        ensures domain { result.now ≡ domains self.now place bound.now };
}
