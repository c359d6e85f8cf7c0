use eb_names::Name;
use sqlite_items::{Boxed, Items};

/// A constant of the language, which is one token.
#[derive(Clone, Copy, Debug, PartialEq, Eq)]
pub enum Constant {
    /// The predicate `true`.
    Truth,
    /// The predicate `false`.
    Falsity,
    /// `INT`
    Integers,
    /// `NAT`
    Naturals,
    /// `NAT1`
    PositiveNaturals,
    /// `BOOL`
    Booleans,
    /// `TRUE`
    TrueValue,
    /// `FALSE`
    FalseValue,
    /// `id`
    Identity,
    /// `prj1`
    FirstProjection,
    /// `prj2`
    SecondProjection,
    /// `{}`
    EmptySet,
}

/// What stands before its one part.
#[derive(Clone, Copy, Debug, PartialEq, Eq)]
pub enum Prefix {
    /// `not`
    Not,
    /// The `-` of a negative number.
    Minus,
}

/// A word that stands before its one part in parentheses.
#[derive(Clone, Copy, Debug, PartialEq, Eq)]
pub enum Call {
    /// `POW`
    PowerSet,
    /// `POW1`
    NonemptyPowerSet,
    /// `card`
    Cardinality,
    /// `min`
    Minimum,
    /// `max`
    Maximum,
    /// `dom`
    Domain,
    /// `ran`
    Range,
    /// `union`
    GeneralizedUnion,
    /// `inter`
    GeneralizedIntersection,
    /// `bool`, of a predicate
    BoolOf,
    /// `finite`, a predicate
    Finite,
}

/// What stands between two formulas, and the application and image of a relation.
#[derive(Clone, Copy, Debug, PartialEq, Eq)]
pub enum Operator {
    // Connectives
    /// `=>`
    Implies,
    /// `<=>`
    Equivalent,
    /// `or`
    Or,
    /// `&`
    And,
    // Relations of expressions
    /// `=`
    Equal,
    /// `/=`
    Unequal,
    /// `:`
    MemberOf,
    /// `/:`
    NotMemberOf,
    /// `<:`
    SubsetOf,
    /// `/<:`
    NotSubsetOf,
    /// `<<:`
    ProperSubsetOf,
    /// `/<<:`
    NotProperSubsetOf,
    /// `<`
    Less,
    /// `<=`
    AtMost,
    /// `>`
    Greater,
    /// `>=`
    AtLeast,
    /// `|->`
    MapsTo,
    // Sets of relations
    /// `<->`
    Relation,
    /// `<<->`
    TotalRelation,
    /// `<->>`
    SurjectiveRelation,
    /// `<<->>`
    TotalSurjectiveRelation,
    /// `+->`
    PartialFunction,
    /// `-->`
    TotalFunction,
    /// `>+>`
    PartialInjection,
    /// `>->`
    TotalInjection,
    /// `+->>`
    PartialSurjection,
    /// `-->>`
    TotalSurjection,
    /// `>->>`
    Bijection,
    // Operations of sets and relations
    /// `\/`
    Union,
    /// `/\`
    Intersection,
    /// `\`
    Difference,
    /// `**`
    Product,
    /// `;`
    ForwardComposition,
    /// `circ`
    BackwardComposition,
    /// `<|`
    DomainRestriction,
    /// `<<|`
    DomainSubtraction,
    /// `|>`
    RangeRestriction,
    /// `|>>`
    RangeSubtraction,
    /// `<+`
    Override,
    /// `><`
    DirectProduct,
    /// `||`
    ParallelProduct,
    // Numbers
    /// `..`
    UpTo,
    /// `+`
    Plus,
    /// `-`
    Minus,
    /// `*`
    Times,
    /// `/`
    Divide,
    /// `mod`
    Modulo,
    /// `^`
    Power,
    // Relations at an argument
    /// `f(x)`
    Apply,
    /// `r[s]`
    Image,
}

/// What makes a predicate of names and a predicate.
#[derive(Clone, Copy, Debug, PartialEq, Eq)]
pub enum Quantifier {
    /// `!`
    ForAll,
    /// `#`
    Exists,
}

/// What makes an expression of what is bound, a predicate and an expression.
#[derive(Clone, Copy, Debug, PartialEq, Eq)]
pub enum Binder {
    /// `%p.P|E`, which binds a pattern.
    Lambda,
    /// `UNION x.P|E`, which binds identifiers.
    Union,
    /// `INTER x.P|E`, which binds identifiers.
    Intersection,
}

/// An identifier where it is bound, and its place in the text, in bytes.
#[derive(Debug, Drop)]
pub struct Identifier {
    pub name: Name,
    pub place: u32,
}

/// Identifiers in the order of the text.
pub type Identifiers = Items<Identifier>;

/// A token of the pattern of a `%`.
#[derive(Debug, Drop)]
pub enum Mark {
    Identifier(Identifier),
    MapsTo,
    Open,
    Close,
}

/// A pattern of `%` as it is written, token by token: identifiers, `|->` and parentheses.
/// It is no tree, since parentheses of a pattern may nest without limit.
pub type Pattern = Items<Mark>;

/// What a binder binds.
#[derive(Debug, Drop)]
pub enum Bound {
    Identifiers(Identifiers),
    Pattern(Pattern),
}

/// A predicate or an expression as it is written, and the place of its first token in the text, in bytes.
#[cycle(ast)]
#[derive(Drop)]
pub struct Ast {
    pub node: Node,
    pub place: u32,
}

/// How a formula is made: one variant or one operator for each production of the grammar.
#[cycle(ast)]
#[derive(Drop)]
pub enum Node {
    Number(i64),
    Identifier(Name),
    /// An identifier with a `'`, which the name leaves out.
    Primed(Name),
    Constant(Constant),
    Prefix(Prefix, Boxed<Ast>),
    Call(Call, Boxed<Ast>),
    /// A predicate or an expression in parentheses.
    Parentheses(Boxed<Ast>),
    /// `r~`
    Inverse(Boxed<Ast>),
    Operator(Operator, Boxed<Ast>, Boxed<Ast>),
    Quantifier(Quantifier, Identifiers, Boxed<Ast>),
    /// What is bound, the predicate and the expression.
    Binder(Binder, Bound, Boxed<Ast>, Boxed<Ast>),
    /// `{x.P|E}`
    Comprehension(Identifiers, Boxed<Ast>, Boxed<Ast>),
    /// `{E|P}`
    Builder(Boxed<Ast>, Boxed<Ast>),
    /// The members between braces; none where `{` and `}` stand apart.
    Extension(Items<Ast>),
    /// `partition(E, E1, ..)`
    Partition(Items<Ast>),
}
