//! The arithmetic of Event-B (Métayer and Voisin, 2009), on the integers of a range.
ghost use Rattle.std.specs.Prelude.{◌≡◌, ◌+ℤ◌, ◌-ℤ◌, ◌*ℤ◌, ◌≤ℤ◌, option_map, pos, unsigned_abs};
ghost use Rattle.eb_value.specs.Values.{int};
ghost use Rattle.std.specs.Int.{int_pow};
ghost use Rattle.eb_operations.specs.Arithmetic as spec;

use eb_value::LIMIT;

/// The integer as a value, where it is within the range.
fn defined_int(n: i64) -> Option<i64>
    ensures { option_map int result ≡ spec.defined_int n }
{
    if -LIMIT <= n && n <= LIMIT {
        Some(n)
    } else {
        None
    }
}

/// `m + n`, where that is within -2 ^ 62 .. 2 ^ 62, and None exactly otherwise.
pub fn sum(m: i64, n: i64) -> Option<i64>
    ensures { option_map int result ≡ spec.defined_int (m +ℤ n) }
{
    match m.checked_add(n) {
        Some(sum) => defined_int(sum),
        None => None,
    }
}

/// `m - n`, where that is within -2 ^ 62 .. 2 ^ 62, and None exactly otherwise.
pub fn difference(m: i64, n: i64) -> Option<i64>
    ensures { option_map int result ≡ spec.defined_int (m -ℤ n) }
{
    match m.checked_sub(n) {
        Some(difference) => defined_int(difference),
        None => None,
    }
}

/// `m * n`, where that is within -2 ^ 62 .. 2 ^ 62, and None exactly otherwise.
pub fn product(m: i64, n: i64) -> Option<i64>
    ensures { option_map int result ≡ spec.defined_int (m *ℤ n) }
{
    match m.checked_mul(n) {
        Some(product) => defined_int(product),
        None => None,
    }
}

/// `m / n`, truncated towards zero. None exactly where `n` is 0 or the quotient is outside -2 ^ 62 .. 2 ^ 62.
pub fn quotient(m: i64, n: i64) -> Option<i64>
    ensures { option_map int result ≡ spec.quotient m n }
{
    if n == 0 {
        return None;
    }
    match m.checked_div(n) {
        Some(quotient) => defined_int(quotient),
        None => None,
    }
}

/// `m mod n`. None exactly unless `0 <= m` and `0 < n`.
pub fn remainder(m: i64, n: i64) -> Option<i64>
    ensures { option_map int result ≡ spec.remainder m n }
{
    if 0 <= m && 0 < n { Some(m % n) } else { None }
}

/// `m ^ n`. None exactly unless `0 <= m`, `0 <= n` and the power is at most 2 ^ 62.
pub fn power(m: i64, n: i64) -> Option<i64>
    ensures { option_map int result ≡ spec.power m n }
{
    if m < 0 || n < 0 {
        return None;
    }
    if n >= 63 {
        return high_power(m, n);
    }
    match m.checked_pow(n as u32) {
        Some(power) => defined_int(power),
        None => None,
    }
}

/// The power of an exponent from 63 on: outside the range, unless the base is below 2.
fn high_power(m: i64, n: i64) -> Option<i64>
    requires base { pos 0 ≤ℤ m }
    requires exponent { pos 63 ≤ℤ n }
    ensures { option_map int result ≡ spec.defined_int (int_pow m (unsigned_abs n)) }
{
    if m <= 1 { defined_int(m) } else { None }
}

/// How many there are, where that is within the range.
pub(crate) fn defined_size(n: usize) -> Option<i64>
    ensures { option_map int result ≡ spec.defined_int (pos n) }
{
    if n <= LIMIT as usize {
        Some(n as i64)
    } else {
        None
    }
}
