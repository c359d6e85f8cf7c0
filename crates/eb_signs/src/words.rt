ghost use Rattle.std.specs.Prelude.{◌≡◌};
ghost use Rattle.eb_signs.specs.steps.SignTables as tables;
ghost use Rattle.eb_signs.specs.Signs as spec;

use super::sign::Sign;

/// The sign that is a word among the operators, constants and set names.
#[tactic(auto, unfolding(crate::specs::steps::SignTables::operator_words))]
fn operator_word(word: &str) -> Option<Sign>
    ensures { result ≡ tables.sign_in word.now tables.operator_words }
{
    match word {
        "or" => Some(Sign::Or),
        "not" => Some(Sign::Not),
        "true" => Some(Sign::Truth),
        "false" => Some(Sign::Falsity),
        "mod" => Some(Sign::Modulo),
        "INT" => Some(Sign::Integers),
        "NAT" => Some(Sign::Naturals),
        "NAT1" => Some(Sign::PositiveNaturals),
        "POW" => Some(Sign::PowerSet),
        "POW1" => Some(Sign::NonemptyPowerSet),
        "UNION" => Some(Sign::QuantifiedUnion),
        "INTER" => Some(Sign::QuantifiedIntersection),
        "circ" => Some(Sign::BackwardComposition),
        _ => None,
    }
}

/// The other signs of formulas that are words.
#[tactic(auto, unfolding(crate::specs::steps::SignTables::formula_words))]
fn formula_word(word: &str) -> Option<Sign>
    ensures { result ≡ tables.sign_in word.now tables.formula_words }
{
    match word {
        "BOOL" => Some(Sign::Booleans),
        "TRUE" => Some(Sign::TrueValue),
        "FALSE" => Some(Sign::FalseValue),
        "card" => Some(Sign::Cardinality),
        "min" => Some(Sign::Minimum),
        "max" => Some(Sign::Maximum),
        "dom" => Some(Sign::Domain),
        "ran" => Some(Sign::Range),
        "union" => Some(Sign::GeneralizedUnion),
        "inter" => Some(Sign::GeneralizedIntersection),
        "bool" => Some(Sign::BoolOf),
        "finite" => Some(Sign::Finite),
        "partition" => Some(Sign::Partition),
        "id" => Some(Sign::Identity),
        "prj1" => Some(Sign::FirstProjection),
        "prj2" => Some(Sign::SecondProjection),
        _ => None,
    }
}

/// The signs that are words of contexts and machines.
#[tactic(auto, unfolding(crate::specs::steps::SignTables::unit_words))]
fn unit_word(word: &str) -> Option<Sign>
    ensures { result ≡ tables.sign_in word.now tables.unit_words }
{
    match word {
        "context" => Some(Sign::Context),
        "extends" => Some(Sign::Extends),
        "sets" => Some(Sign::Sets),
        "constants" => Some(Sign::Constants),
        "axioms" => Some(Sign::Axioms),
        "theorem" => Some(Sign::Theorem),
        "end" => Some(Sign::End),
        "machine" => Some(Sign::Machine),
        "refines" => Some(Sign::Refines),
        "sees" => Some(Sign::Sees),
        "variables" => Some(Sign::Variables),
        "invariants" => Some(Sign::Invariants),
        "variant" => Some(Sign::Variant),
        _ => None,
    }
}

/// The signs that are words of events.
#[tactic(auto, unfolding(crate::specs::steps::SignTables::event_words))]
fn event_word(word: &str) -> Option<Sign>
    ensures { result ≡ tables.sign_in word.now tables.event_words }
{
    match word {
        "events" => Some(Sign::Events),
        "event" => Some(Sign::Event),
        "any" => Some(Sign::Any),
        "where" => Some(Sign::Where),
        "when" => Some(Sign::When),
        "with" => Some(Sign::With),
        "begin" => Some(Sign::Begin),
        "then" => Some(Sign::Then),
        "ordinary" => Some(Sign::Ordinary),
        "convergent" => Some(Sign::Convergent),
        "anticipated" => Some(Sign::Anticipated),
        _ => None,
    }
}

/// The sign that is this reserved word.
#[tactic(auto, unfolding(crate::specs::steps::SignTables::words), using(crate::proofs::TableLaws::in_four, crate::proofs::Tables::reserved_is))]
pub fn reserved(word: &str) -> Option<Sign>
    ensures { result ≡ spec.reserved word.now }
{
    if let Some(sign) = operator_word(word) {
        return Some(sign);
    }
    if let Some(sign) = formula_word(word) {
        return Some(sign);
    }
    if let Some(sign) = unit_word(word) {
        return Some(sign);
    }
    event_word(word)
}
