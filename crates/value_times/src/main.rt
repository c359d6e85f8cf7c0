//! Makes large sets and relations, applies the operator that the first word names, and prints
//! how many members the result has. The script under bench/ times it.
#![tactic(auto)]

use eb_value::{
    EbType, Scope, Sizes, Value, Values, compose, count, cross, integers, is_ascending, union,
    union_all, values,
};
use std::alloc::{AllocError, Global};
use std::{env, io};

/// The pairs of each number and the next one, from a number on.
fn successors(alloc: Global, from: u32, many: u32) -> Result<Values, AllocError> {
    let mut pairs = Values::new(alloc);
    for k in 0..many {
        let first = i64::from(from) + i64::from(k);
        let second = Value::integer(first + 1);
        pairs.push(Value::pair(alloc, Value::integer(first), second)?)?;
    }
    Ok(pairs)
}

/// The pairs of all numbers below a bound.
fn all_pairs(alloc: Global, bound: u32) -> Result<Values, AllocError> {
    let mut numbers = Values::new(alloc);
    for number in 0..bound {
        numbers.push(Value::integer(i64::from(number)))?;
    }
    if !is_ascending(numbers.as_slice()) {
        return Ok(numbers);
    }
    cross(alloc, &numbers, &numbers)
}

/// The sets of the atoms of a carrier set with sixteen.
fn all_sets(alloc: Global) -> Result<Values, AllocError> {
    let mut sizes = Sizes::new(alloc);
    sizes.push(16)?;
    let scope = Scope {
        lo: 0,
        hi: 0,
        sizes,
        depth: 0,
    };
    let sets = EbType::power(alloc, EbType::carrier(0))?;
    if count(&sets, &scope) <= 65536 {
        values(alloc, &sets, &scope)
    } else {
        Ok(Values::new(alloc))
    }
}

/// The relations that an operator is applied to.
fn relations(alloc: Global, operator: &str) -> Result<(Values, Values), AllocError> {
    if operator == "dense" {
        let left = all_pairs(alloc, 128)?;
        Ok((left, all_pairs(alloc, 128)?))
    } else {
        let left = successors(alloc, 0, 4000)?;
        Ok((left, successors(alloc, 2000, 4000)?))
    }
}

/// The sets of a family: each number below a thousand with those up to its double.
fn family(alloc: Global) -> Result<Values, AllocError> {
    let mut sets = Values::new(alloc);
    for number in 0..1000_u32 {
        let from = i64::from(number);
        sets.push(Value::set(integers(alloc, from, from + from)?))?;
    }
    Ok(sets)
}

fn result_of(alloc: Global, operator: &str) -> Result<Values, AllocError> {
    if operator == "values" {
        return all_sets(alloc);
    }
    if operator == "family" {
        return union_all(alloc, family(alloc)?.as_slice());
    }
    let (left, right) = relations(alloc, operator)?;
    if !is_ascending(left.as_slice()) || !is_ascending(right.as_slice()) {
        return Ok(Values::new(alloc));
    }
    if operator == "union" {
        union(alloc, &left, &right)
    } else {
        compose(alloc, &left, &right)
    }
}

fn main(rt: HostRuntime) -> io::Result<()> {
    let alloc = rt.alloc();
    let words = env::args(&rt)?;
    for operator in words.skip(1) {
        let result = result_of(alloc, operator.as_str())?;
        println!(rt; "{} {}", operator.as_str(), result.len())?;
    }
    Ok(())
}
