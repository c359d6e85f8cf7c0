ghost use Rattle.std.specs.Prelude.{◌≡◌, List, [], ◌∷◌};
ghost use Rattle.eb_signs.specs.steps.SignTables as tables;
ghost use Rattle.eb_signs.specs.Signs as spec;

use super::sign::Sign;

/// The sign of one ASCII character.
#[tactic(auto, unfolding(crate::specs::steps::SignTables::ascii_ones))]
fn ascii_sign(a: char) -> Option<Sign>
    ensures { result ≡ tables.sign_in (a ∷ []) tables.ascii_ones }
{
    match a {
        '&' => Some(Sign::And),
        '!' => Some(Sign::ForAll),
        '#' => Some(Sign::Exists),
        '.' => Some(Sign::Dot),
        '=' => Some(Sign::Equal),
        ':' => Some(Sign::MemberOf),
        '<' => Some(Sign::Less),
        '>' => Some(Sign::Greater),
        '+' => Some(Sign::Plus),
        '-' => Some(Sign::Minus),
        '*' => Some(Sign::Times),
        '/' => Some(Sign::Divide),
        '^' => Some(Sign::Power),
        '\\' => Some(Sign::Difference),
        '%' => Some(Sign::Lambda),
        '|' => Some(Sign::Bar),
        '{' => Some(Sign::LeftBrace),
        '}' => Some(Sign::RightBrace),
        '(' => Some(Sign::LeftParenthesis),
        ')' => Some(Sign::RightParenthesis),
        '[' => Some(Sign::LeftBracket),
        ']' => Some(Sign::RightBracket),
        ',' => Some(Sign::Comma),
        ';' => Some(Sign::ForwardComposition),
        '~' => Some(Sign::Inverse),
        _ => None,
    }
}

/// The connective, relation or arithmetic sign of one other character.
#[tactic(auto, unfolding(crate::specs::steps::SignTables::logic_ones))]
fn logic_symbol(a: char) -> Option<Sign>
    ensures { result ≡ tables.sign_in (a ∷ []) tables.logic_ones }
{
    match a {
        '∧' => Some(Sign::And),
        '∨' => Some(Sign::Or),
        '⇒' => Some(Sign::Implies),
        '⇔' => Some(Sign::Equivalent),
        '¬' => Some(Sign::Not),
        '∀' => Some(Sign::ForAll),
        '∃' => Some(Sign::Exists),
        '·' => Some(Sign::Dot),
        '⊤' => Some(Sign::Truth),
        '⊥' => Some(Sign::Falsity),
        '≠' => Some(Sign::Unequal),
        '∈' => Some(Sign::MemberOf),
        '∉' => Some(Sign::NotMemberOf),
        '⊆' => Some(Sign::SubsetOf),
        '⊈' => Some(Sign::NotSubsetOf),
        '⊂' => Some(Sign::ProperSubsetOf),
        '⊄' => Some(Sign::NotProperSubsetOf),
        '≤' => Some(Sign::AtMost),
        '≥' => Some(Sign::AtLeast),
        '−' => Some(Sign::Minus),
        '∗' => Some(Sign::Times),
        '÷' => Some(Sign::Divide),
        '‥' => Some(Sign::UpTo),
        _ => None,
    }
}

/// The sign of sets or actions of one other character.
#[tactic(auto, unfolding(crate::specs::steps::SignTables::set_ones))]
fn set_symbol(a: char) -> Option<Sign>
    ensures { result ≡ tables.sign_in (a ∷ []) tables.set_ones }
{
    match a {
        '↦' => Some(Sign::MapsTo),
        '∪' => Some(Sign::Union),
        '∩' => Some(Sign::Intersection),
        '∖' => Some(Sign::Difference),
        '×' => Some(Sign::Product),
        'λ' => Some(Sign::Lambda),
        '∣' => Some(Sign::Bar),
        '∅' => Some(Sign::EmptySet),
        'ℤ' => Some(Sign::Integers),
        'ℕ' => Some(Sign::Naturals),
        'ℙ' => Some(Sign::PowerSet),
        '⋃' => Some(Sign::QuantifiedUnion),
        '⋂' => Some(Sign::QuantifiedIntersection),
        '≔' => Some(Sign::Becomes),
        _ => None,
    }
}

/// The arrow or operator on relations of one other character.
#[tactic(auto, unfolding(crate::specs::steps::SignTables::relation_ones))]
fn relation_symbol(a: char) -> Option<Sign>
    ensures { result ≡ tables.sign_in (a ∷ []) tables.relation_ones }
{
    match a {
        '↔' => Some(Sign::Relation),
        '\u{E100}' => Some(Sign::TotalRelation),
        '\u{E101}' => Some(Sign::SurjectiveRelation),
        '\u{E102}' => Some(Sign::TotalSurjectiveRelation),
        '⇸' => Some(Sign::PartialFunction),
        '→' => Some(Sign::TotalFunction),
        '⤔' => Some(Sign::PartialInjection),
        '↣' => Some(Sign::TotalInjection),
        '⤀' => Some(Sign::PartialSurjection),
        '↠' => Some(Sign::TotalSurjection),
        '⤖' => Some(Sign::Bijection),
        '∘' => Some(Sign::BackwardComposition),
        '◁' => Some(Sign::DomainRestriction),
        '⩤' => Some(Sign::DomainSubtraction),
        '▷' => Some(Sign::RangeRestriction),
        '⩥' => Some(Sign::RangeSubtraction),
        '\u{E103}' => Some(Sign::Override),
        '⊗' => Some(Sign::DirectProduct),
        '∥' => Some(Sign::ParallelProduct),
        '∼' => Some(Sign::Inverse),
        _ => None,
    }
}

/// The sign of two characters.
#[tactic(auto, unfolding(crate::specs::steps::SignTables::twos))]
fn of_two(a: char, b: char) -> Option<Sign>
    ensures { result ≡ tables.sign_in (a ∷ b ∷ []) tables.twos }
{
    match (a, b) {
        ('=', '>') => Some(Sign::Implies),
        ('/', '=') => Some(Sign::Unequal),
        ('/', ':') => Some(Sign::NotMemberOf),
        ('<', ':') => Some(Sign::SubsetOf),
        ('<', '=') => Some(Sign::AtMost),
        ('>', '=') => Some(Sign::AtLeast),
        ('.', '.') => Some(Sign::UpTo),
        ('\\', '/') => Some(Sign::Union),
        ('/', '\\') => Some(Sign::Intersection),
        ('*', '*') => Some(Sign::Product),
        ('{', '}') => Some(Sign::EmptySet),
        ('ℕ', '1') => Some(Sign::PositiveNaturals),
        ('ℙ', '1') => Some(Sign::NonemptyPowerSet),
        ('<', '|') => Some(Sign::DomainRestriction),
        ('|', '>') => Some(Sign::RangeRestriction),
        ('<', '+') => Some(Sign::Override),
        ('>', '<') => Some(Sign::DirectProduct),
        ('|', '|') => Some(Sign::ParallelProduct),
        (':', '=') => Some(Sign::Becomes),
        (':', ':') => Some(Sign::BecomesMember),
        (':', '∈') => Some(Sign::BecomesMember),
        (':', '|') => Some(Sign::BecomesSuchThat),
        (':', '∣') => Some(Sign::BecomesSuchThat),
        _ => None,
    }
}

/// The sign of three characters.
#[tactic(auto, unfolding(crate::specs::steps::SignTables::threes))]
fn of_three(a: char, b: char, c: char) -> Option<Sign>
    ensures { result ≡ tables.sign_in (a ∷ b ∷ c ∷ []) tables.threes }
{
    match (a, b, c) {
        ('<', '=', '>') => Some(Sign::Equivalent),
        ('/', '<', ':') => Some(Sign::NotSubsetOf),
        ('<', '<', ':') => Some(Sign::ProperSubsetOf),
        ('|', '-', '>') => Some(Sign::MapsTo),
        ('<', '-', '>') => Some(Sign::Relation),
        ('+', '-', '>') => Some(Sign::PartialFunction),
        ('-', '-', '>') => Some(Sign::TotalFunction),
        ('>', '+', '>') => Some(Sign::PartialInjection),
        ('>', '-', '>') => Some(Sign::TotalInjection),
        ('<', '<', '|') => Some(Sign::DomainSubtraction),
        ('|', '>', '>') => Some(Sign::RangeSubtraction),
        _ => None,
    }
}

/// The sign of four characters.
#[tactic(auto, unfolding(crate::specs::steps::SignTables::fours))]
fn of_four(a: char, b: char, c: char, d: char) -> Option<Sign>
    ensures { result ≡ tables.sign_in (a ∷ b ∷ c ∷ d ∷ []) tables.fours }
{
    match (a, b, c, d) {
        ('/', '<', '<', ':') => Some(Sign::NotProperSubsetOf),
        ('<', '<', '-', '>') => Some(Sign::TotalRelation),
        ('<', '-', '>', '>') => Some(Sign::SurjectiveRelation),
        ('+', '-', '>', '>') => Some(Sign::PartialSurjection),
        ('-', '-', '>', '>') => Some(Sign::TotalSurjection),
        ('>', '-', '>', '>') => Some(Sign::Bijection),
        _ => None,
    }
}

/// The sign of one character.
#[tactic(auto, unfolding(crate::specs::steps::SignTables::one_signs), using(crate::proofs::TableLaws::in_four))]
fn of_one(a: char) -> Option<Sign>
    ensures { result ≡ tables.sign_in (a ∷ []) tables.one_signs }
{
    if let Some(sign) = ascii_sign(a) {
        return Some(sign);
    }
    if let Some(sign) = logic_symbol(a) {
        return Some(sign);
    }
    if let Some(sign) = set_symbol(a) {
        return Some(sign);
    }
    relation_symbol(a)
}

/// The sign of five characters.
#[tactic(auto, unfolding(crate::specs::steps::SignTables::fives))]
fn of_five(a: char, b: char, c: char, d: char, e: char) -> Option<Sign>
    ensures { result ≡ tables.sign_in (a ∷ b ∷ c ∷ d ∷ e ∷ []) tables.fives }
{
    match (a, b, c, d, e) {
        ('<', '<', '-', '>', '>') => Some(Sign::TotalSurjectiveRelation),
        _ => None,
    }
}

/// The sign of these characters, told apart by their number.
#[tactic(auto, unfolding(crate::specs::steps::SignTables::symbol_in))]
fn of_any(text: &[char]) -> Option<Sign>
    ensures { result ≡ tables.symbol_in text.now }
{
    match text {
        [a] => of_one(*a),
        [a, b] => of_two(*a, *b),
        [a, b, c] => of_three(*a, *b, *c),
        [a, b, c, d] => of_four(*a, *b, *c, *d),
        [a, b, c, d, e] => of_five(*a, *b, *c, *d, *e),
        _ => None,
    }
}

/// The sign that these characters spell, if they are no reserved word.
#[tactic(auto, using(crate::proofs::Tables::symbol_is))]
pub fn symbol(text: &[char]) -> Option<Sign>
    ensures { result ≡ spec.symbol text.now }
{
    of_any(text)
}
