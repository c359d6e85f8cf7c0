ghost use Rattle.std.specs.Prelude.{◌≡◌, ◌++◌, ◌∷◌, [], IfOk, OnOk, option_map};
ghost use Rattle.eb_value.specs.Values as spec;
ghost use Rattle.eb_value.specs.Comprehensions.{maplet_in, members};

use crate::lists::Values;
use sqlite_items::{Boxed, Items};
use std::alloc::{AllocError, Global};

/// No integer is larger, and none is below its negation.
pub const LIMIT: i64 = 1 << 62;

/// A value of Event-B.
#[cycle(value)]
#[derive(Drop)]
pub struct Value {
    pub form: Form,
}

/// How a value is made.
#[cycle(value)]
#[derive(Drop)]
pub enum Form {
    Int(i64),
    Bool(bool),
    /// A carrier set's place, and a number from 1 to the set's size.
    Atom(u32, u32),
    Pair(Boxed<Value>, Boxed<Value>),
    /// The members, ascending and distinct.
    Set(Items<Value>),
}

impl Value {
    /// The value of an integer.
    pub fn integer(n: i64) -> Value
        ensures { result ≡ spec.int n }
    {
        Value { form: Form::Int(n) }
    }

    /// FALSE or TRUE.
    pub fn truth(truth: bool) -> Value
        ensures { result ≡ spec.truth truth }
    {
        Value {
            form: Form::Bool(truth),
        }
    }

    /// The atom with a number of the carrier set at a place.
    pub fn atom(place: u32, number: u32) -> Value
        ensures { result ≡ spec.atom place number }
    {
        Value {
            form: Form::Atom(place, number),
        }
    }

    /// The pair of two values. The only error is want of memory.
    pub fn pair(alloc: Global, first: Value, second: Value) -> Result<Value, AllocError>
        ensures { IfOk result (λ v. v ≡ spec.pair first second) }
    {
        let first = Boxed::new(alloc, first)?;
        let second = Boxed::new(alloc, second)?;
        Ok(Value {
            form: Form::Pair(first, second),
        })
    }

    /// The set with these members, which are to be ascending and distinct.
    pub fn set(members: Values) -> Value
        ensures { result ≡ spec.set members }
    {
        Value {
            form: Form::Set(members),
        }
    }

    /// An equal value. The only error is want of memory.
    #[cycle(copying)]
    pub fn copied(&self, alloc: Global) -> Result<Value, AllocError>
        ensures { IfOk result (λ copy. copy ≡ self.now) }
    {
        match &self.form {
            Form::Int(n) => Ok(Value::integer(*n)),
            Form::Bool(truth) => Ok(Value::truth(*truth)),
            Form::Atom(carrier, number) => Ok(Value::atom(*carrier, *number)),
            Form::Pair(first, second) => {
                let first = first.get().copied(alloc)?;
                let second = second.get().copied(alloc)?;
                Value::pair(alloc, first, second)
            }
            Form::Set(members) => {
                let members = values_copied(alloc, members.as_slice())?;
                Ok(Value::set(members))
            }
        }
    }
}

/// Equal values in the same order. The only error is want of memory.
#[cycle(copying)]
pub fn values_copied(alloc: Global, values: &[Value]) -> Result<Values, AllocError>
    ensures { IfOk result (λ copy. copy ≡ values.now) }
{
    let mut copy = Items::new(alloc);
    for value in values {
        copy.push(value.copied(alloc)?)?;
    }
    Ok(copy)
}

/// Adds an equal value at the end.
pub(crate) fn push_copy(alloc: Global, all: &mut Values, value: &Value) -> Result<(), AllocError>
    ensures { OnOk result (all.new ≡ all.old ++ value.now ∷ []) }
{
    all.push(value.copied(alloc)?)
}

/// The two values of a pair, and none of another value.
pub fn parts(value: &Value) -> Option<(&Value, &Value)>
    ensures { option_map (λ p. record { first = p.0.now; second = p.1.now }) result
        ≡ maplet_in (spec.layer value.now) }
{
    match &value.form {
        Form::Pair(first, second) => Some((first.get(), second.get())),
        _ => None,
    }
}

/// The members of a set, and none of another value.
pub(crate) fn members_of(value: &Value) -> &[Value]
    ensures { result.now ≡ members value.now }
{
    match &value.form {
        Form::Set(members) => members.as_slice(),
        _ => &[],
    }
}
