//! What holds of the rows, for callers to cite.
ghost use Rattle.std.specs.Prelude.{◌≡◌, ℤ, Bool, true, false, Some, None};
ghost use Rattle.eb_value.specs.declared.value.Value.{Value};
ghost use Rattle.eb_value.specs.Values.{layer};
ghost use Rattle.eb_value.specs.Typing.{in_range};
ghost use Rattle.eb_term.specs.declared.operators.Side.{Side};
ghost use Rattle.int_dom.specs.declared.interval.Interval.{Interval};
ghost use Rattle.int_dom.specs.Intervals.{Has};
ghost use Rattle.occ_domains.specs.declared.body.Body.TheOpen as body;
ghost use Rattle.occ_domains.specs.Bodies.{has_at};
ghost use Rattle.occ_domains.specs.Domains.{has, slot, is_normal};
ghost use Rattle.rules_integers.specs.declared.arithmetic.Arithmetic.{Arithmetic};
ghost use Rattle.rules_integers.specs.Sums as sums;
ghost use Rattle.rules_integers.specs.Arithmetic as spec;

/// What comes of integers of the range is had by Up, which has Undefined where a side may be that; and Down keeps what it comes of.
pub fn rows_of_integers_are_sound()
    ensures at_most { (s : Side) (truth : Bool) (other : Interval) (m n : ℤ) → in_range m ≡ true → Has other n → sums.at_most s m n ≡ truth → Has (sums.down_at_most s truth other) m }
    ensures up { (o : Arithmetic) (defined : Bool) (a b : Interval) (m n : ℤ) → in_range m ≡ true → in_range n ≡ true → Has a m → Has b n
        → has (spec.up_by o defined a b) (slot (spec.value_by o m n)) ≡ true }
    ensures undefined { (o : Arithmetic) (a b : Interval) → has (spec.up_by o false a b) (slot None) ≡ true }
    ensures down { (o : Arithmetic) (s : Side) (whole part other : Interval) (m n : ℤ) (v : Value) → in_range m ≡ true → in_range n ≡ true
        → spec.value_at o s m n ≡ Some v → has_at (body.Integers whole) v (layer v) ≡ true → Has part m → Has other n
        → Has (spec.down_by o s whole part other) m }
    ensures normal { (o : Arithmetic) (defined : Bool) (a b : Interval) → is_normal (spec.up_by o defined a b) ≡ true }
{}
