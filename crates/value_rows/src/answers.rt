//! What the library answers to a row, written as text. Each call tells whether the row is one: it is none
//! where an operator isn't known or has no such arguments, and then nothing is written.
ghost use Rattle.std.specs.Prelude.{◌≡◌, true};
ghost use Rattle.std.specs.List.{list_all};
ghost use Rattle.eb_value.specs.Comprehensions.{members};
ghost use Rattle.eb_value.specs.Values.{is_ascending as rises};

use crate::setting::{text_of, values_of};
use eb_value::{
    EbType, Form, Scope, Value, Values, apply, compare, compose, contains, count, cross, direct,
    dom_drop, dom_keep, domain, has_type, image, integers, inverse, is_ascending, is_functional,
    meet, meet_all, minus, overlay, parallel, parts, ran_drop, ran_keep, range, same_type, set_of,
    union, union_all, values,
};
use sqlite_items::Boxed;
use std::alloc::{AllocError, Global};
use std::cmp::Ordering;
use std::str;

pub(crate) type Answer = Result<bool, AllocError>;

/// A text as an answer.
pub(crate) fn word(text: &str, out: &mut String) -> Answer {
    out.push_str(text)?;
    Ok(true)
}

fn truth(truth: bool, out: &mut String) -> Answer {
    word(if truth { "true" } else { "false" }, out)
}

fn number(n: u64, out: &mut String) -> Answer {
    write!(out, "{}", n)?;
    Ok(true)
}

/// A value as an answer.
fn shown(alloc: Global, value: &Value, out: &mut String) -> Answer {
    let text = text_of(alloc, value)?;
    word(str::from_utf8(text.as_slice()).unwrap_or("no UTF-8"), out)
}

/// The set with these members as an answer.
fn listed(alloc: Global, members: Result<Values, AllocError>, out: &mut String) -> Answer {
    let set = Value::set(members?);
    shown(alloc, &set, out)
}

/// What an operator answers at types.
pub(crate) fn of_types(
    alloc: Global,
    scope: &Scope,
    operator: &str,
    (first, second): (&EbType, &EbType),
    out: &mut String,
) -> Answer {
    match operator {
        "same_type" => truth(same_type(first, second), out),
        "count" => number(count(first, scope), out),
        "values" => listed(alloc, values(alloc, first, scope), out),
        "again" => listed_again(alloc, scope, first, out),
        _ => of_values(alloc, operator, &[], out),
    }
}

/// How many members the set of all values of a type has, as its text is read again; `none` where that is
/// the text of no set.
fn listed_again(alloc: Global, scope: &Scope, ty: &EbType, out: &mut String) -> Answer {
    let mut text = String::new(alloc);
    listed(alloc, values(alloc, ty, scope), &mut text)?;
    set_counted(alloc, scope, ty, text.as_str(), out)
}

fn set_counted(alloc: Global, scope: &Scope, ty: &EbType, text: &str, out: &mut String) -> Answer {
    let sets = EbType::power(alloc, ty.copied(alloc)?)?;
    members_counted(alloc, scope, &sets, text, out)
}

fn members_counted(
    alloc: Global,
    scope: &Scope,
    sets: &EbType,
    text: &str,
    out: &mut String,
) -> Answer {
    let values = values_of(alloc, scope, (sets, sets), &[text])?;
    if let [value] = values.as_slice() {
        if let Form::Set(members) = &value.form {
            return number(members.len() as u64, out);
        }
    }
    word("none", out)
}

/// What an operator answers to values that are read, `has_type` at the other type of the row.
pub(crate) fn of_read(
    alloc: Global,
    scope: &Scope,
    operator: &str,
    other: &EbType,
    values: &[Value],
    out: &mut String,
) -> Answer {
    match values {
        [value] if operator == "reads" => shown(alloc, value, out),
        [value] if operator == "has_type" => truth(has_type(value, other, scope), out),
        _ => of_values(alloc, operator, values, out),
    }
}

/// What an operator answers to values.
fn of_values(alloc: Global, operator: &str, values: &[Value], out: &mut String) -> Answer {
    match operator {
        "set_of" => collected(alloc, values, out),
        "union_all" => listed(alloc, union_all(alloc, values), out),
        "meet_all" => met(alloc, values, out),
        _ => match values {
            [value] => of_one(alloc, operator, value, out),
            [first, second] => of_two(alloc, operator, first, second, out),
            _ => Ok(false),
        },
    }
}

fn collected(alloc: Global, values: &[Value], out: &mut String) -> Answer {
    let mut all = Vec::new(alloc);
    for value in values {
        all.push(value.copied(alloc)?)?;
    }
    listed(alloc, Ok(set_of(all)), out)
}

fn met(alloc: Global, sets: &[Value], out: &mut String) -> Answer {
    if !are_ascending(sets) {
        return Ok(false);
    }
    match meet_all(alloc, sets)? {
        Some(members) => listed(alloc, Ok(members), out),
        None => word("none", out),
    }
}

/// Whether the members of each set are ascending.
fn are_ascending(sets: &[Value]) -> bool
    ensures { result ≡ list_all (λ v. rises (members v)) sets.now }
{
    for each in sets {
        if !has_ascending_members(each) {
            return false;
        }
    }
    true
}

fn has_ascending_members(value: &Value) -> bool
    ensures { result ≡ rises (members value.now) }
{
    match &value.form {
        Form::Set(members) => is_ascending(members.as_slice()),
        _ => true,
    }
}

/// What an operator of one argument answers.
fn of_one(alloc: Global, operator: &str, value: &Value, out: &mut String) -> Answer {
    match &value.form {
        _ if operator == "parts" => shown_parts(alloc, value, out),
        Form::Set(relation) => of_relation(alloc, operator, relation, out),
        _ => Ok(false),
    }
}

/// What an operator on a set answers.
fn of_relation(alloc: Global, operator: &str, relation: &Values, out: &mut String) -> Answer {
    match operator {
        "inverse" => listed(alloc, inverse(alloc, relation), out),
        "domain" => listed(alloc, domain(alloc, relation), out),
        "range" => listed(alloc, range(alloc, relation), out),
        "is_functional" if is_ascending(relation.as_slice()) => {
            truth(is_functional(relation.as_slice()), out)
        }
        _ => Ok(false),
    }
}

/// The two values of a pair, with `and` between them.
fn shown_parts(alloc: Global, value: &Value, out: &mut String) -> Answer {
    let Some((first, second)) = parts(value) else {
        return word("none", out);
    };
    shown(alloc, first, out)?;
    out.push_str(" and ")?;
    shown(alloc, second, out)
}

/// What an operator of two arguments answers.
fn of_two(
    alloc: Global,
    operator: &str,
    first: &Value,
    second: &Value,
    out: &mut String,
) -> Answer {
    match operator {
        "compare" => word(order_word(compare(first, second)), out),
        "pair" => paired(alloc, first, second, out),
        "integers" => between(alloc, first, second, out),
        _ => of_set(alloc, operator, first, second, out),
    }
}

fn paired(alloc: Global, first: &Value, second: &Value, out: &mut String) -> Answer {
    let first = Boxed::new(alloc, first.copied(alloc)?)?;
    let second = second.copied(alloc)?;
    let pair = Value::pair(alloc, first.into_inner(), second)?;
    shown(alloc, &pair, out)
}

fn between(alloc: Global, first: &Value, second: &Value, out: &mut String) -> Answer {
    match (&first.form, &second.form) {
        (Form::Int(from), Form::Int(to)) => listed(alloc, integers(alloc, *from, *to), out),
        _ => Ok(false),
    }
}

fn order_word(order: Ordering) -> &'static str {
    match order {
        Ordering::Less => "less",
        Ordering::Equal => "equal",
        Ordering::Greater => "greater",
    }
}

/// What an operator on a set and any value answers.
fn of_set(
    alloc: Global,
    operator: &str,
    first: &Value,
    second: &Value,
    out: &mut String,
) -> Answer {
    match &first.form {
        Form::Set(s) if is_ascending(s.as_slice()) => {
            of_ascending(alloc, operator, s, second, out)
        }
        _ => Ok(false),
    }
}

fn of_ascending(
    alloc: Global,
    operator: &str,
    s: &Values,
    value: &Value,
    out: &mut String,
) -> Answer
    requires { rises s.now ≡ true }
{
    match &value.form {
        _ if operator == "contains" => truth(contains(s, value), out),
        _ if operator == "apply" => applied(alloc, s, value, out),
        Form::Set(t) if is_ascending(t.as_slice()) => of_sets(alloc, operator, s, t, out),
        _ => Ok(false),
    }
}

fn applied(alloc: Global, s: &Values, value: &Value, out: &mut String) -> Answer
    requires { rises s.now ≡ true }
{
    match apply(s, value) {
        Some(image) => shown(alloc, image, out),
        None => word("none", out),
    }
}

/// What an operator on two sets answers.
fn of_sets(alloc: Global, operator: &str, a: &Values, b: &Values, out: &mut String) -> Answer
    requires first { rises a.now ≡ true }
    requires second { rises b.now ≡ true }
{
    let members = match operator {
        "union" => union(alloc, a, b),
        "meet" => meet(alloc, a, b),
        "minus" => minus(alloc, a, b),
        "cross" => cross(alloc, a, b),
        "dom_keep" => dom_keep(alloc, a, b),
        "dom_drop" => dom_drop(alloc, a, b),
        "ran_keep" => ran_keep(alloc, a, b),
        "ran_drop" => ran_drop(alloc, a, b),
        "overlay" => overlay(alloc, a, b),
        "image" => image(alloc, a, b),
        "compose" => compose(alloc, a, b),
        "direct" => direct(alloc, a, b),
        "parallel" => parallel(alloc, a, b),
        _ => return Ok(false),
    };
    listed(alloc, members, out)
}
