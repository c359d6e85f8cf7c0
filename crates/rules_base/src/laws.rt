//! What holds of the rules, for callers to cite.
ghost use Rattle.std.specs.Prelude.{◌≡◌, true, Some};
ghost use Rattle.eb_term.specs.declared.operators.Unary.{Unary};
ghost use Rattle.eb_term.specs.declared.operators.Binary.{Binary};
ghost use Rattle.eb_meaning.specs.Meaning.{Env, Meaning, by_unary, by_binary};
ghost use Rattle.eb_term.specs.declared.operators.Side.{Side};
ghost use Rattle.occ_domains.specs.declared.domain.Domain.{Domain};
ghost use Rattle.occ_domains.specs.Domains.{Outcome, has};
ghost use Rattle.rules_base.specs.declared.rule.UnaryRule.{UnaryRule as OneRule};
ghost use Rattle.rules_base.specs.declared.rule.BinaryRule.{BinaryRule as TwoRule};
ghost use Rattle.rules_base.specs.Outcomes.{of_one, of_two, of_sides, is_ranged};
ghost use Rattle.rules_base.specs.Rules as rules;
ghost use Rattle.rules_base.specs.Operators as spec;

use eb_value::order_is_total;
use occ_domains::bodies_have_their_values;
use rules_integers::rows_of_integers_are_sound;

/// The rows are sound, as the calls by operator say of their answers.
pub fn rules_are_sound()
    ensures up_one { (rule : OneRule) (d : Domain) (x z : Outcome) → has d x ≡ true → of_one rule x ≡ Some z → has (rules.up_one rule d) z ≡ true }
    ensures up_two { (rule : TwoRule) (a b : Domain) (x y z : Outcome) → is_ranged x ≡ true → is_ranged y ≡ true → has a x ≡ true → has b y ≡ true
        → of_two rule x y ≡ Some z → has (rules.up_two rule a b) z ≡ true }
    ensures down_one { (rule : OneRule) (w d : Domain) (x z : Outcome) → has d x ≡ true → of_one rule x ≡ Some z → has w z ≡ true
        → has (rules.down_one rule w d) x ≡ true }
    ensures down_two { (rule : TwoRule) (s : Side) (w a b : Domain) (x y z : Outcome) → is_ranged x ≡ true → is_ranged y ≡ true → has a x ≡ true → has b y ≡ true
        → of_sides rule s x y ≡ Some z → has w z ≡ true → has (rules.down_two rule s w a b) x ≡ true }
{
    bodies_have_their_values();
    order_is_total();
    rows_of_integers_are_sound();
}

/// What the rules say comes of a formula by what comes of its parts is what the meaning of its operator says.
pub fn rules_have_the_meaning()
    ensures unary { (o : Unary) (rule : OneRule) (a : Meaning) (env : Env) (x z : Outcome) → spec.unary_rule o ≡ Some rule
        → spec.Comes a env x → of_one rule x ≡ Some z → spec.Comes (by_unary o a) env z }
    ensures binary { (o : Binary) (rule : TwoRule) (a b : Meaning) (env : Env) (x y z : Outcome) → spec.binary_rule o ≡ Some rule
        → spec.Comes a env x → spec.Comes b env y → of_two rule x y ≡ Some z → spec.Comes (by_binary o a b) env z }
{}
