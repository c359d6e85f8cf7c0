/// A letter of a row of the type table, which stands for the same type wherever the row has it.
#[derive(Clone, Copy, Debug, PartialEq, Eq)]
pub enum Letter {
    A,
    B,
    C,
    D,
}

/// What a row of the type table says of a part, or of the whole.
#[derive(Clone, Copy, Debug, PartialEq, Eq)]
pub enum Pattern {
    /// A predicate, which has no type.
    Predicate,
    Integer,
    Boolean,
    /// `POW(INT)`
    Integers,
    /// `POW(BOOL)`
    Booleans,
    /// `POW(S)` of the carrier set S with this number.
    Atoms(u32),
    /// `a`
    Type(Letter),
    /// `a ** b`
    Pair(Letter, Letter),
    /// `POW(a)`
    Set(Letter),
    /// `POW(POW(a))`
    Sets(Letter),
    /// `POW(a ** b)`
    Relation(Letter, Letter),
    /// `POW(POW(a ** b))`
    Relations(Letter, Letter),
    /// `POW(a ** (b ** c))`
    ToPairs,
    /// `POW((a ** b) ** (c ** d))`
    BetweenPairs,
    /// `POW((a ** b) ** a)`
    ToFirst,
    /// `POW((a ** b) ** b)`
    ToSecond,
}

/// A row of the type table for what has one part.
#[derive(Clone, Copy, Debug, PartialEq, Eq)]
pub struct UnaryRow {
    pub part: Pattern,
    pub whole: Pattern,
}

/// A row of the type table for what has two parts.
#[derive(Clone, Copy, Debug, PartialEq, Eq)]
pub struct BinaryRow {
    pub left: Pattern,
    pub right: Pattern,
    pub whole: Pattern,
}

/// A row of the type table for what has three parts.
#[derive(Clone, Copy, Debug, PartialEq, Eq)]
pub struct TernaryRow {
    pub first: Pattern,
    pub second: Pattern,
    pub third: Pattern,
    pub whole: Pattern,
}
