ghost use Rattle.std.specs.Prelude.{◌≡◌, ◌↔◌, IsTrue};
ghost use Rattle.domain_changes.specs.steps.SameDomains as spec;

use eb_operations::same as same_value;
use eb_value::{Value, order_is_total};
use int_dom::Interval;
use occ_domains::{Body, Domain, Truths};

/// Whether two domains are equal: of one kind, with the same truths, or with the same body and Undefined in both or in neither.
/// It takes no memory, and time linear in the lists of the body.
pub fn same(a: &Domain, b: &Domain) -> bool
    ensures { IsTrue result ↔ a.now ≡ b.now }
{
    order_is_total();
    same_domains(a, b)
}

fn same_domains(a: &Domain, b: &Domain) -> bool
    ensures { result ≡ spec.same a.now b.now }
{
    match (a, b) {
        (Domain::Truths(s), Domain::Truths(t)) => same_truths(*s, *t),
        (Domain::Values(c, u), Domain::Values(d, w)) => *u == *w && same_bodies(c, d),
        _ => false,
    }
}

fn same_truths(s: Truths, t: Truths) -> bool
    ensures { result ≡ spec.same_truths s t }
{
    s.can_be_true == t.can_be_true
        && s.can_be_false == t.can_be_false
        && s.can_be_undefined == t.can_be_undefined
}

fn same_bodies(a: &Body, b: &Body) -> bool
    ensures { result ≡ spec.same_bodies a.now b.now }
{
    match (a, b) {
        (Body::Empty, Body::Empty) | (Body::AllSets, Body::AllSets) => true,
        (Body::Integers(c), Body::Integers(d)) => same_intervals(*c, *d),
        (Body::Members(xs), Body::Members(ys)) => same_lists(xs.as_slice(), ys.as_slice()),
        (Body::Pairs(c, d), Body::Pairs(e, f)) => {
            same_bodies(c.get(), e.get()) && same_bodies(d.get(), f.get())
        }
        _ => false,
    }
}

fn same_intervals(c: Interval, d: Interval) -> bool
    ensures { result ≡ spec.same_intervals c d }
{
    c.lo == d.lo && c.hi == d.hi
}

fn same_lists(xs: &[Value], ys: &[Value]) -> bool
    ensures { result ≡ spec.same_lists xs.now ys.now }
{
    for (i, x) in xs.iter().enumerate() {
        let Some(y) = ys.get(i) else {
            return false;
        };
        if !same_value(x, y) {
            return false;
        }
    }
    xs.len() == ys.len()
}
