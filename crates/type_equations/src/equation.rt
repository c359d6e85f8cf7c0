use sqlite_items::Items;

/// What an equation says of types, which are numbered from 0.
#[derive(Clone, Copy, Debug, PartialEq, Eq)]
pub enum Equation {
    /// Both types are the same.
    Same(u32, u32),
    /// The type is that of the integers.
    Integer(u32),
    /// The type is that of FALSE and TRUE.
    Boolean(u32),
    /// The first is the type of the atoms of the carrier set with the second number.
    Carrier(u32, u32),
    /// The first is the product of the second and the third.
    Product(u32, u32, u32),
    /// The first is the type of sets of the second.
    Power(u32, u32),
}

/// Equations that are to hold together.
pub type Equations = Items<Equation>;
