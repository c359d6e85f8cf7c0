ghost use Rattle.std.specs.Prelude.{◌≡◌, ◌↔◌, true, IfOk, IsTrue, Contains};
ghost use Rattle.eb_value.specs.Sets as spec;
ghost use Rattle.eb_value.specs.Comprehensions as set;
ghost use Rattle.eb_value.specs.Values.{is_ascending};

use crate::lists::Values;
use crate::merges::{Key, kept, merged};
use crate::order::compare;
use crate::value::Value;
use std::alloc::{AllocError, Global};

/// Whether an ascending list has the value, by binary search.
pub fn contains(s: &Values, v: &Value) -> bool
    requires { is_ascending s.now ≡ true }
    ensures is_member { IsTrue result ↔ Contains s.now v.now }
    ensures equals { result ≡ set.has s.now v.now }
{
    s.as_slice()
        .binary_search_by(|member| compare(member, v))
        .is_ok()
}

/// The set of the values in a list, which may have them in any order and more than once.
pub fn set_of(values: Vec<Value>) -> Values
    ensures is_set { spec.IsSetOf (Contains values.items) result }
    ensures equals { result ≡ set.set_of values.items }
{
    let mut values = values;
    values.sort_unstable_by(|v, w| compare(v, w));
    values.dedup_by(|v, w| compare(v, w).is_eq());
    Values::from_vec(values)
}

/// a ∪ b, in time linear in the lengths. The only error is want of memory.
pub fn union(alloc: Global, a: &Values, b: &Values) -> Result<Values, AllocError>
    requires first { is_ascending a.now ≡ true }
    requires second { is_ascending b.now ≡ true }
    ensures is_set { IfOk result (spec.IsSetOf (spec.InUnion a.now b.now)) }
    ensures equals { IfOk result (λ xs. xs ≡ set.union a.now b.now) }
{
    merged(alloc, a.as_slice(), b.as_slice())
}

/// a ∩ b, in time linear in the lengths. The only error is want of memory.
pub fn meet(alloc: Global, a: &Values, b: &Values) -> Result<Values, AllocError>
    requires first { is_ascending a.now ≡ true }
    requires second { is_ascending b.now ≡ true }
    ensures is_set { IfOk result (spec.IsSetOf (spec.InMeet a.now b.now)) }
    ensures equals { IfOk result (λ xs. xs ≡ set.meet a.now b.now) }
{
    kept(alloc, a.as_slice(), Key::Itself, b.as_slice(), true)
}

/// a ∖ b, in time linear in the lengths. The only error is want of memory.
pub fn minus(alloc: Global, a: &Values, b: &Values) -> Result<Values, AllocError>
    requires first { is_ascending a.now ≡ true }
    requires second { is_ascending b.now ≡ true }
    ensures is_set { IfOk result (spec.IsSetOf (spec.InMinus a.now b.now)) }
    ensures equals { IfOk result (λ xs. xs ≡ set.minus a.now b.now) }
{
    kept(alloc, a.as_slice(), Key::Itself, b.as_slice(), false)
}
