/// A token that is neither a name nor a number: an operator, a bracket or a reserved word.
#[derive(Clone, Copy, Debug, PartialEq, Eq)]
pub enum Sign {
    // Connectives
    /// `&` ∧
    And,
    /// `or` ∨
    Or,
    /// `=>` ⇒
    Implies,
    /// `<=>` ⇔
    Equivalent,
    /// `not` ¬
    Not,
    /// `!` ∀
    ForAll,
    /// `#` ∃
    Exists,
    /// `.` ·
    Dot,
    /// `true` ⊤
    Truth,
    /// `false` ⊥
    Falsity,
    // Relations
    /// `=`
    Equal,
    /// `/=` ≠
    Unequal,
    /// `:` ∈
    MemberOf,
    /// `/:` ∉
    NotMemberOf,
    /// `<:` ⊆
    SubsetOf,
    /// `/<:` ⊈
    NotSubsetOf,
    /// `<<:` ⊂
    ProperSubsetOf,
    /// `/<<:` ⊄
    NotProperSubsetOf,
    /// `<`
    Less,
    /// `<=` ≤
    AtMost,
    /// `>`
    Greater,
    /// `>=` ≥
    AtLeast,
    // Arithmetic
    /// `+`
    Plus,
    /// `-` −
    Minus,
    /// `*` ∗
    Times,
    /// `/` ÷
    Divide,
    /// `mod`
    Modulo,
    /// `^`
    Power,
    /// `..` ‥
    UpTo,
    // Sets
    /// `|->` ↦
    MapsTo,
    /// `\/` ∪
    Union,
    /// `/\` ∩
    Intersection,
    /// `\` ∖
    Difference,
    /// `**` ×
    Product,
    /// `%` λ
    Lambda,
    /// `|` ∣
    Bar,
    /// `{`
    LeftBrace,
    /// `}`
    RightBrace,
    /// `{}` ∅
    EmptySet,
    /// `INT` ℤ
    Integers,
    /// `NAT` ℕ
    Naturals,
    /// `NAT1` ℕ1
    PositiveNaturals,
    /// `POW` ℙ
    PowerSet,
    /// `POW1` ℙ1
    NonemptyPowerSet,
    /// `UNION` ⋃
    QuantifiedUnion,
    /// `INTER` ⋂
    QuantifiedIntersection,
    /// `(`
    LeftParenthesis,
    /// `)`
    RightParenthesis,
    /// `[`
    LeftBracket,
    /// `]`
    RightBracket,
    /// `,`
    Comma,
    // Arrows
    /// `<->` ↔
    Relation,
    /// `<<->` U+E100
    TotalRelation,
    /// `<->>` U+E101
    SurjectiveRelation,
    /// `<<->>` U+E102
    TotalSurjectiveRelation,
    /// `+->` ⇸
    PartialFunction,
    /// `-->` →
    TotalFunction,
    /// `>+>` ⤔
    PartialInjection,
    /// `>->` ↣
    TotalInjection,
    /// `+->>` ⤀
    PartialSurjection,
    /// `-->>` ↠
    TotalSurjection,
    /// `>->>` ⤖
    Bijection,
    // Relation operators
    /// `;`
    ForwardComposition,
    /// `circ` ∘
    BackwardComposition,
    /// `<|` ◁
    DomainRestriction,
    /// `<<|` ⩤
    DomainSubtraction,
    /// `|>` ▷
    RangeRestriction,
    /// `|>>` ⩥
    RangeSubtraction,
    /// `<+` U+E103
    Override,
    /// `><` ⊗
    DirectProduct,
    /// `||` ∥
    ParallelProduct,
    /// `~` ∼
    Inverse,
    // Actions
    /// `:=` ≔
    Becomes,
    /// `::`, also `:∈`
    BecomesMember,
    /// `:|`, also `:∣`
    BecomesSuchThat,
    // Words of formulas
    /// `BOOL`
    Booleans,
    /// `TRUE`
    TrueValue,
    /// `FALSE`
    FalseValue,
    /// `card`
    Cardinality,
    /// `min`
    Minimum,
    /// `max`
    Maximum,
    /// `dom`
    Domain,
    /// `ran`
    Range,
    /// `union`
    GeneralizedUnion,
    /// `inter`
    GeneralizedIntersection,
    /// `bool`
    BoolOf,
    /// `finite`
    Finite,
    /// `partition`
    Partition,
    /// `id`
    Identity,
    /// `prj1`
    FirstProjection,
    /// `prj2`
    SecondProjection,
    // Words of contexts and machines
    /// `context`
    Context,
    /// `extends`
    Extends,
    /// `sets`
    Sets,
    /// `constants`
    Constants,
    /// `axioms`
    Axioms,
    /// `theorem`
    Theorem,
    /// `end`
    End,
    /// `machine`
    Machine,
    /// `refines`
    Refines,
    /// `sees`
    Sees,
    /// `variables`
    Variables,
    /// `invariants`
    Invariants,
    /// `variant`
    Variant,
    /// `events`
    Events,
    /// `event`
    Event,
    /// `any`
    Any,
    /// `where`
    Where,
    /// `when`
    When,
    /// `with`
    With,
    /// `begin`
    Begin,
    /// `then`
    Then,
    /// `ordinary`
    Ordinary,
    /// `convergent`
    Convergent,
    /// `anticipated`
    Anticipated,
}
