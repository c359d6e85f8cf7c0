ghost use Rattle.std.specs.Prelude.{IfOk};
ghost use Rattle.eb_meaning.specs.Slots.{AreCanonicalSlots};

use eb_meaning::{Env, Slots, Truth3, slots_of, truth};
use eb_syntax::{Operator, Prefix};
use eb_term::{Binary, Term, Unary};
use eb_value::{Row, Scope, Sizes, Value, Values};
use std::alloc::{AllocError, Global};
use std::test::Fail;

/// One value.
fn given(alloc: Global, scope: &Scope) -> Result<Slots, AllocError>
    ensures { IfOk result AreCanonicalSlots }
{
    let mut values = Values::new(alloc);
    values.push(Value::integer(2))?;
    slots_of(alloc, scope, &[], values.as_slice())
}

/// The truth of a predicate, where there is one value.
fn truth_of(alloc: Global, term: &Term) -> Result<Truth3, AllocError> {
    let scope = Scope {
        lo: 0,
        hi: 3,
        sizes: Sizes::new(alloc),
        depth: 3,
    };
    let refs = given(alloc, &scope)?;
    let bound = Row::new(alloc);
    let env = Env { refs, bound };
    truth(alloc, term, &scope, &env)
}

/// That a second value is at most 0.
fn missing(alloc: Global) -> Result<Term, AllocError> {
    let second = Term::integer_at(alloc, 1)?;
    let zero = Term::integer(alloc, 0)?;
    Term::binary(alloc, Binary::Operator(Operator::AtMost), second, zero)
}

fn plain(alloc: Global) -> Result<Truth3, AllocError> {
    let term = missing(alloc)?;
    truth_of(alloc, &term)
}

fn negated(alloc: Global) -> Result<Truth3, AllocError> {
    let term = Term::unary(alloc, Unary::Prefix(Prefix::Not), missing(alloc)?)?;
    truth_of(alloc, &term)
}

/// What isn't there is Undefined, and so is its negation.
#[test]
fn a_missing_value_is_undefined(rt: HostRuntime) -> Result<(), Fail> {
    let alloc = rt.alloc();
    assert_eq!(rt; plain(alloc)?, Truth3::Undefined);
    assert_eq!(rt; negated(alloc)?, Truth3::Undefined);
    Ok(())
}
