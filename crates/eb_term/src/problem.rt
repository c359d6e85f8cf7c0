ghost use Rattle.std.specs.Prelude.{◌≡◌};
ghost use Rattle.eb_value.specs.Types.{integer};

use crate::term::Term;
use eb_names::Name;
use eb_value::{EbType, Shape};
use sqlite_items::Items;

/// What a valuation gives a value of its type.
#[derive(Drop)]
pub struct Choice {
    pub name: Name,
    pub ty: EbType,
}

impl Choice {
    /// The choice of an integer with this name.
    pub fn integer(name: Name) -> Choice
        ensures { result ≡ record { name = name; ty = integer } }
    {
        Choice {
            name,
            ty: EbType {
                shape: Shape::Integer,
            },
        }
    }
}

/// The choices of a problem, in order.
pub type Choices = Items<Choice>;

/// Terms one after the other, as the definitions or the facts of a problem.
pub type Terms = Items<Term>;

/// Choices; definitions, each of which names an expression over the choices and the definitions before it; and facts, which
/// are to be true. Terms refer by place to the choices and then to the definitions.
#[derive(Drop)]
pub struct Problem {
    pub choices: Choices,
    pub definitions: Terms,
    pub facts: Terms,
}
