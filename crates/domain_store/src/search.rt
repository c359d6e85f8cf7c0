//! The search for values among those of a row of keys.
ghost use Rattle.std.specs.Prelude.{◌≡◌, ◌<◌, IfOk, IfErr, length, get_or, []};
ghost use Rattle.eb_value.specs.Values.{compare_all};
ghost use Rattle.domain_store.specs.steps.Rows as rows;

use crate::slots::Key;
use eb_value::{Value, compare, order_is_total};
use std::cmp::Ordering;

/// Value by value, a proper prefix first.
fn order_of(a: &[Value], b: &[Value]) -> Ordering
    ensures { result ≡ compare_all a.now b.now }
{
    for (i, v) in a.iter().enumerate() {
        let Some(w) = b.get(i) else {
            return Ordering::Greater;
        };
        let order = compare(v, w);
        if order != Ordering::Equal {
            return order;
        }
    }
    if a.len() < b.len() {
        Ordering::Less
    } else {
        Ordering::Equal
    }
}

/// How the values of the key at a place of the row stand to these.
fn order_at(keys: &[Key], row: &[u64], place: usize, bound: &[Value]) -> Ordering
    requires within { rows.AreWithin (length keys.now) row.now }
    requires place { place < length row.now }
    ensures { result ≡ compare_all (get_or (rows.bounds_of keys.now row.now) place []) bound.now }
{
    let key = &keys[row[place] as usize];
    order_of(key.bound.as_slice(), bound)
}

/// The key of the row with these values, or else the place in the row where it would stand.
pub(crate) fn search(keys: &[Key], row: &[u64], bound: &[Value]) -> Result<u64, usize>
    requires within { rows.AreWithin (length keys.now) row.now }
    requires ascending { rows.Ascending (rows.bounds_of keys.now row.now) }
    ensures found { IfOk result (rows.IsFound keys.now row.now bound.now) }
    ensures place { IfErr result (rows.IsPlace (rows.bounds_of keys.now row.now) bound.now) }
{
    order_is_total();
    let mut low = 0;
    let mut high = row.len();
    while low < high {
        let middle = low + (high - low) / 2;
        match order_at(keys, row, middle, bound) {
            Ordering::Equal => return Ok(row[middle]),
            Ordering::Less => low = middle + 1,
            Ordering::Greater => high = middle,
        }
    }
    Err(low)
}
