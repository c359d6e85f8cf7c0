//! Evaluates the formula that each word names, and prints its value or its truth; or brings it into narrow form, and prints how
//! many nodes that has. The script under bench/ times it.
//!
//! A formula is made on a stack: what is written first lies below, and an operator takes its parts from the top.
#![tactic(auto)]

ghost use Rattle.eb_value.specs.Canonical.{AreCanonical};
ghost use Rattle.eb_meaning.specs.Slots.{AreCanonicalSlots};

use eb_meaning::{Env, Slots, Truth3, eval, truth};
use eb_narrow::{narrow, narrowed_nodes};
use eb_syntax::{Call, Operator};
use eb_term::{Binary, Binder, Head, Infinite, Many, Path, SharedType, Term, Terms, Unary};
use eb_value::{EbType, Form, Scope, Sizes, Value, Values};
use sqlite_items::Items;
use std::alloc::{AllocError, Global};
use std::{env, io};

fn number(alloc: Global, n: i64, stack: &mut Terms) -> Result<(), AllocError> {
    stack.push(Term::integer(alloc, n)?)
}

/// The value of the binder with this number, an integer.
fn variable(alloc: Global, binder: u32, stack: &mut Terms) -> Result<(), AllocError> {
    let ty = SharedType::new(alloc, EbType::integer())?;
    stack.push(Term {
        head: Head::Variable(binder, Path::new(alloc), ty),
    })
}

fn top(stack: &mut Terms) -> Term {
    match stack.pop() {
        Some(term) => term,
        None => Term::truth(false),
    }
}

fn binary(alloc: Global, operator: Binary, stack: &mut Terms) -> Result<(), AllocError> {
    let right = top(stack);
    let left = top(stack);
    let whole = Term::binary(alloc, operator, left, right)?;
    stack.push(whole)
}

fn operation(alloc: Global, operator: Operator, stack: &mut Terms) -> Result<(), AllocError> {
    binary(alloc, Binary::Operator(operator), stack)
}

fn over(alloc: Global, binder: Binder, stack: &mut Terms) -> Result<(), AllocError> {
    let body = top(stack);
    let range = top(stack);
    let whole = Term::over(alloc, binder, range, body)?;
    stack.push(whole)
}

/// `{E}`
fn single(alloc: Global, stack: &mut Terms) -> Result<(), AllocError> {
    let member = top(stack);
    let mut members = Items::new(alloc);
    members.push(member)?;
    stack.push(Term::many(Many::Extension, members))
}

fn cardinality(alloc: Global, stack: &mut Terms) -> Result<(), AllocError> {
    let set = top(stack);
    let whole = Term::unary(alloc, Unary::Call(Call::Cardinality), set)?;
    stack.push(whole)
}

/// `1..n`
fn up_to(alloc: Global, n: i64, stack: &mut Terms) -> Result<(), AllocError> {
    number(alloc, 1, stack)?;
    number(alloc, n, stack)?;
    operation(alloc, Operator::UpTo, stack)
}

/// `1 <= x & x <= n`, which is what `x : 1..n` means
fn within(alloc: Global, binder: u32, n: i64, stack: &mut Terms) -> Result<(), AllocError> {
    number(alloc, 1, stack)?;
    variable(alloc, binder, stack)?;
    operation(alloc, Operator::AtMost, stack)?;
    variable(alloc, binder, stack)?;
    number(alloc, n, stack)?;
    operation(alloc, Operator::AtMost, stack)?;
    operation(alloc, Operator::And, stack)
}

/// `!x,y . x : 1..64 & y : 1..64 => x * y <= 4096`
fn products(alloc: Global, stack: &mut Terms) -> Result<(), AllocError> {
    up_to(alloc, 64, stack)?;
    up_to(alloc, 64, stack)?;
    within(alloc, 0, 64, stack)?;
    within(alloc, 1, 64, stack)?;
    operation(alloc, Operator::And, stack)?;
    variable(alloc, 0, stack)?;
    variable(alloc, 1, stack)?;
    operation(alloc, Operator::Times, stack)?;
    number(alloc, 4096, stack)?;
    operation(alloc, Operator::AtMost, stack)?;
    operation(alloc, Operator::Implies, stack)?;
    over(alloc, Binder::ForAll, stack)?;
    over(alloc, Binder::ForAll, stack)
}

/// `card({x . x : 1..4096 & x mod 2 = 0 | x * x})`
fn squares(alloc: Global, stack: &mut Terms) -> Result<(), AllocError> {
    up_to(alloc, 4096, stack)?;
    within(alloc, 0, 4096, stack)?;
    variable(alloc, 0, stack)?;
    number(alloc, 2, stack)?;
    operation(alloc, Operator::Modulo, stack)?;
    number(alloc, 0, stack)?;
    operation(alloc, Operator::Equal, stack)?;
    operation(alloc, Operator::And, stack)?;
    variable(alloc, 0, stack)?;
    variable(alloc, 0, stack)?;
    operation(alloc, Operator::Times, stack)?;
    single(alloc, stack)?;
    binary(alloc, Binary::If, stack)?;
    over(alloc, Binder::Collect, stack)?;
    cardinality(alloc, stack)
}

/// The integer of a value, -1 of another one, and -2 where there is none.
fn number_of(value: &Option<Value>) -> i64 {
    match value {
        Some(value) => match &value.form {
            Form::Int(n) => *n,
            _ => -1,
        },
        None => -2,
    }
}

/// Whether the predicate is True.
fn holds(alloc: Global, term: &Term, scope: &Scope, env: &Env) -> Result<i64, AllocError>
    requires refs { AreCanonicalSlots env.now.refs }
    requires bound { AreCanonical env.now.bound }
{
    Ok(i64::from(truth(alloc, term, scope, env)? == Truth3::True))
}

fn value(alloc: Global, term: &Term, scope: &Scope, env: &Env) -> Result<i64, AllocError>
    requires refs { AreCanonicalSlots env.now.refs }
    requires bound { AreCanonical env.now.bound }
{
    let value = eval(alloc, term, scope, env)?;
    Ok(number_of(&value))
}

/// The number that the formula on the top gives, outside all binders.
fn result(alloc: Global, term: &Term, is_predicate: bool) -> Result<i64, AllocError> {
    let scope = Scope {
        lo: 0,
        hi: 0,
        sizes: Sizes::new(alloc),
        depth: 3,
    };
    let refs = Slots::new(alloc);
    let bound = Values::new(alloc);
    let outermost = Env { refs, bound };
    if is_predicate {
        holds(alloc, term, &scope, &outermost)
    } else {
        value(alloc, term, &scope, &outermost)
    }
}

/// `1 + 2`
fn sum(alloc: Global) -> Result<Term, AllocError> {
    let one = Term::integer(alloc, 1)?;
    let two = Term::integer(alloc, 2)?;
    Term::binary(alloc, Binary::Operator(Operator::Plus), one, two)
}

/// `{1 + 2, 1 + 2, ..} <: NAT`, with so many members
fn naturals(alloc: Global, count: u32) -> Result<Term, AllocError> {
    let mut members = Terms::new(alloc);
    for _ in 0..count {
        members.push(sum(alloc)?)?;
    }
    let set = Term::many(Many::Extension, members);
    let naturals = Term {
        head: Head::Infinite(Infinite::Naturals),
    };
    let operator = Binary::Operator(Operator::SubsetOf);
    Term::binary(alloc, operator, set, naturals)
}

/// How many nodes such a formula has in narrow form, which is made besides.
fn narrowed(alloc: Global, count: u32) -> Result<i64, AllocError> {
    let term = naturals(alloc, count)?;
    let _narrow = narrow(alloc, &term)?;
    Ok(i64::try_from(narrowed_nodes(&term)).unwrap_or(-1))
}

fn answer(alloc: Global, word: &str) -> Result<i64, AllocError> {
    match word {
        "narrow" => narrowed(alloc, 3_333),
        "narrow_wide" => narrowed(alloc, 333_333),
        _ => evaluated(alloc, word),
    }
}

fn evaluated(alloc: Global, word: &str) -> Result<i64, AllocError> {
    let mut stack = Terms::new(alloc);
    let is_predicate = word == "products";
    if is_predicate {
        products(alloc, &mut stack)?;
    } else {
        squares(alloc, &mut stack)?;
    }
    let term = top(&mut stack);
    result(alloc, &term, is_predicate)
}

fn main(rt: HostRuntime) -> io::Result<()> {
    let alloc = rt.alloc();
    let words = env::args(&rt)?;
    for word in words.skip(1) {
        let number = answer(alloc, word.as_str())?;
        println!(rt; "{} {}", word.as_str(), number)?;
    }
    Ok(())
}
