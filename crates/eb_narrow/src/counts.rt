//! How many nodes narrow form has, without making it.
ghost use Rattle.std.specs.Prelude.{◌≡◌, ◌-◌, ◌^◌, min, ◌∷◌, [], length};
ghost use Rattle.eb_term.specs.Nodes.{subterms};
ghost use Rattle.eb_narrow.specs.Narrow as spec;
ghost use Rattle.eb_narrow.specs.steps.Counting as step;

use crate::kinds::is_whole;
use eb_syntax::{Call, Operator, Prefix};
use eb_term::{Binary, Binder, Head, Infinite, Many, Side, Term, Unary};
use operator_kinds::{is_arrow, is_function, is_injection, is_product};

/// The nodes of a form that is asked of a term with so many nodes: the base, and so many times the term's.
#[derive(Clone, Copy)]
struct Linear {
    base: u64,
    times: u64,
}

/// The nodes that stand in a term's narrow form, each number as far as a `u64` goes.
#[derive(Clone, Copy)]
struct Counts {
    /// The nodes of the term itself.
    term: u64,
    /// Whether it is a set that is no value.
    is_form: bool,
    /// The nodes by which it is said that each part that is a value is defined.
    given: u64,
    /// Those by which it is said that it has a value, that it has each member of one, and that one is all of it.
    has: Linear,
    has_members: Linear,
    is_all: Linear,
}

/// What stands before a set of a partition.
#[derive(Clone, Copy)]
enum Parts {
    Nothing,
    /// The nodes of the whole.
    Whole(u64),
    /// Those of the union of the sets before, and those of the whole form that has these sets.
    Sets(u64, u64),
}

impl Parts {
    /// With a set of so many nodes more.
    fn and(self, nodes: u64) -> Parts
        ensures { result ≡ step.with_part step.capped self nodes }
    {
        match self {
            Parts::Nothing => Parts::Whole(nodes),
            Parts::Whole(whole) => Parts::Sets(nodes, total(&[1, whole, nodes])),
            Parts::Sets(union, all) => {
                let all = total(&[5, all, union, nodes, nodes]);
                Parts::Sets(total(&[1, union, nodes]), all)
            }
        }
    }

    /// The nodes of the form where no set follows.
    fn nodes(self) -> u64
        ensures { result ≡ step.all_parts step.capped self }
    {
        match self {
            Parts::Nothing => 1,
            Parts::Whole(whole) => total(&[2, whole]),
            Parts::Sets(_, all) => all,
        }
    }
}

/// How many nodes the term's narrow form has, `u64::MAX` where it has more. It takes no memory, and time that grows with the
/// term alone and not with the copies that narrow form makes. The term is one that stands under no binder.
pub fn narrowed_nodes(term: &Term) -> u64
    ensures { result ≡ min (length (subterms (spec.narrow term.now))) (2 ^ 64 - 1) }
{
    counts_of(term).term
}

#[cycle(counting)]
fn counts_of(term: &Term) -> Counts
    ensures { result ≡ step.counted step.capped term.now }
{
    match &term.head {
        Head::Truth(_) | Head::Literal(_, _) | Head::Reference(_, _) | Head::Variable(_, _, _) => {
            expression(1)
        }
        Head::Infinite(set) => infinite_set(*set),
        Head::Identity(_) => expression(5),
        Head::Projection(_, _, _) => expression(8),
        Head::Unary(operator, part) => by_unary(*operator, counts_of(part.get())),
        Head::Binary(operator, left, right) => {
            let left = counts_of(left.get());
            let right = counts_of(right.get());
            by_binary(*operator, left, right)
        }
        Head::Many(many, parts) => match many {
            Many::Extension => expression(total(&[1, all_nodes(parts.as_slice())])),
            Many::Partition => expression(partition(parts.as_slice())),
        },
        Head::Over(binder, range, body) => {
            let range = counts_of(range.get());
            let body = counts_of(body.get());
            expression(by_range(*binder, range.term, body.term))
        }
        Head::All(binder, _, body) => {
            let body = counts_of(body.get());
            expression(by_range(*binder, 0, body.term))
        }
    }
}

/// The nodes of all of the terms.
#[cycle(counting)]
fn all_nodes(terms: &[Term]) -> u64
    ensures { result ≡ step.capped (step.each_term step.capped terms.now) }
{
    let mut all: u64 = 0;
    for term in terms {
        all = all.saturating_add(counts_of(term).term);
    }
    all
}

/// `partition(s, s1, ..)`
#[cycle(counting)]
fn partition(terms: &[Term]) -> u64
    ensures { result ≡ step.partition step.capped (step.each_term step.capped terms.now) }
{
    let mut parts = Parts::Nothing;
    for term in terms {
        parts = parts.and(counts_of(term).term);
    }
    parts.nodes()
}

// ---- by the counts of the parts

/// The sum, as far as a `u64` goes.
fn total(numbers: &[u64]) -> u64
    ensures { result ≡ step.capped numbers.now }
{
    let mut total: u64 = 0;
    for number in numbers {
        total = total.saturating_add(*number);
    }
    total
}

fn nodes_at(linear: Linear, nodes: u64) -> u64
    ensures { result ≡ step.at step.capped linear nodes }
{
    linear
        .base
        .saturating_add(linear.times.saturating_mul(nodes))
}

/// An operation of a term and an expression of so many nodes.
fn beside(nodes: u64) -> Linear
    ensures { result ≡ step.beside step.capped nodes }
{
    Linear {
        base: total(&[1, nodes]),
        times: 1,
    }
}

fn expression(term: u64) -> Counts
    ensures { result ≡ step.expression step.capped term }
{
    Counts {
        term,
        is_form: false,
        given: total(&[2, term, term]),
        has: beside(term),
        has_members: beside(term),
        is_all: beside(term),
    }
}

fn form(given: u64, has: Linear) -> Counts
    ensures { result ≡ step.form step.capped given has }
{
    let each = total(&[3, given, has.base, has.times]);
    let never = total(&[2, given]);
    Counts {
        term: 2,
        is_form: true,
        given,
        has,
        has_members: Linear {
            base: each,
            times: 1,
        },
        is_all: Linear {
            base: never,
            times: 2,
        },
    }
}

fn infinite_set(set: Infinite) -> Counts
    ensures { result ≡ step.infinite_set step.capped set }
{
    match set {
        Infinite::Integers => Counts {
            term: 2,
            is_form: true,
            given: 0,
            has: Linear { base: 1, times: 2 },
            has_members: Linear { base: 1, times: 2 },
            is_all: Linear { base: 2, times: 2 },
        },
        Infinite::Naturals | Infinite::PositiveNaturals => form(0, Linear { base: 2, times: 1 }),
    }
}

fn by_unary(operator: Unary, a: Counts) -> Counts
    ensures { result ≡ step.by_unary step.capped operator a }
{
    match operator {
        Unary::Prefix(Prefix::Minus) => expression(total(&[2, a.term])),
        Unary::Call(call) => by_call(call, a),
        Unary::Prefix(Prefix::Not)
        | Unary::Inverse
        | Unary::Defined
        | Unary::Functional
        | Unary::Part(_) => expression(total(&[1, a.term])),
    }
}

fn by_call(call: Call, a: Counts) -> Counts
    ensures { result ≡ step.by_call step.capped call a }
{
    match call {
        Call::PowerSet => form(a.given, a.has_members),
        Call::NonemptyPowerSet => nonempty_power_set(a),
        Call::Finite => expression(total(&[1, a.term, a.term])),
        Call::GeneralizedUnion => expression(total(&[2, a.term])),
        Call::Cardinality
        | Call::Minimum
        | Call::Maximum
        | Call::Domain
        | Call::Range
        | Call::GeneralizedIntersection
        | Call::BoolOf => expression(total(&[1, a.term])),
    }
}

fn nonempty_power_set(f: Counts) -> Counts
    ensures { result ≡ step.nonempty_power_set step.capped f }
{
    let base = total(&[4, f.has_members.base]);
    let times = total(&[1, f.has_members.times]);
    form(f.given, Linear { base, times })
}

fn by_binary(operator: Binary, a: Counts, b: Counts) -> Counts
    ensures { result ≡ step.by_binary step.capped operator a b }
{
    match operator {
        Binary::Operator(operator) => by_operator(operator, a, b),
        Binary::Both | Binary::If => expression(total(&[1, a.term, b.term])),
    }
}

fn by_operator(operator: Operator, a: Counts, b: Counts) -> Counts
    ensures { result ≡ step.by_operator step.capped operator a b }
{
    if is_arrow(operator) {
        arrow_form(operator, a, b)
    } else if is_product(operator) && (a.is_form || b.is_form) {
        product_form(a, b)
    } else {
        by_relation(operator, a, b)
    }
}

fn by_relation(operator: Operator, a: Counts, b: Counts) -> Counts
    ensures { result ≡ step.by_relation step.capped operator a b }
{
    match operator {
        Operator::UpTo => interval(a, b),
        _ => expression(relation(operator, a, b)),
    }
}

fn relation(operator: Operator, a: Counts, b: Counts) -> u64
    ensures { result ≡ step.relation step.capped operator a b }
{
    match operator {
        Operator::Unequal | Operator::Less | Operator::Greater => total(&[2, a.term, b.term]),
        Operator::MemberOf => nodes_at(b.has, a.term),
        Operator::NotMemberOf => total(&[1, nodes_at(b.has, a.term)]),
        Operator::SubsetOf => nodes_at(b.has_members, a.term),
        Operator::NotSubsetOf => total(&[1, nodes_at(b.has_members, a.term)]),
        Operator::ProperSubsetOf => proper_subset(a, b),
        Operator::NotProperSubsetOf => total(&[1, proper_subset(a, b)]),
        _ => total(&[1, a.term, b.term]),
    }
}

/// `e <<: F`
fn proper_subset(e: Counts, f: Counts) -> u64
    ensures { result ≡ step.proper_subset step.capped e f }
{
    if f.is_form {
        nodes_at(f.has_members, e.term)
    } else {
        total(&[4, e.term, e.term, f.term, f.term])
    }
}

fn interval(a: Counts, b: Counts) -> Counts
    ensures { result ≡ step.interval step.capped a b }
{
    let ends = total(&[3, a.term, b.term]);
    let interval = expression(total(&[1, a.term, b.term]));
    Counts {
        has: Linear {
            base: ends,
            times: 2,
        },
        ..interval
    }
}

fn product_form(f: Counts, g: Counts) -> Counts
    ensures { result ≡ step.product_form step.capped f g }
{
    let base = total(&[1, f.has.base, f.has.times, g.has.base, g.has.times]);
    let times = total(&[f.has.times, g.has.times]);
    form(total(&[f.given, g.given]), Linear { base, times })
}

fn arrow_form(arrow: Operator, f: Counts, g: Counts) -> Counts
    ensures { result ≡ step.arrow_form step.capped arrow f g }
{
    let from = covers(is_whole(Side::First, arrow), f);
    let to = covers(is_whole(Side::Second, arrow), g);
    form(total(&[f.given, g.given]), arrow_has(arrow, from, to))
}

/// What an arrow asks of one side: that it is all, or that it has each member.
fn covers(is_whole: bool, side: Counts) -> Linear
    ensures { result ≡ step.covers is_whole side }
{
    if is_whole {
        side.is_all
    } else {
        side.has_members
    }
}

fn arrow_has(arrow: Operator, from: Linear, to: Linear) -> Linear
    ensures { result ≡ step.arrow_has step.capped arrow from to }
{
    let is_function = is_function(arrow);
    let is_injection = is_injection(arrow);
    let function_nodes = if_asked(is_function, 2);
    let injection_nodes = if_asked(is_injection, 3);
    let base = total(&[
        1,
        from.base,
        from.times,
        to.base,
        to.times,
        function_nodes,
        injection_nodes,
    ]);
    let times = total(&[
        from.times,
        to.times,
        if_asked(is_function, 1),
        if_asked(is_injection, 1),
    ]);
    Linear { base, times }
}

fn if_asked(is_asked: bool, nodes: u64) -> u64
    ensures { result ≡ step.if_asked is_asked nodes }
{
    if is_asked { nodes } else { 0 }
}

/// A binder whose range has so many nodes.
fn by_range(binder: Binder, range: u64, body: u64) -> u64
    ensures { result ≡ step.by_range step.capped binder range body }
{
    match binder {
        Binder::ForAll => total(&[3, range, body]),
        Binder::Exists | Binder::Collect => total(&[1, range, body]),
    }
}
