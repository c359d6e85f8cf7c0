ghost use Rattle.std.specs.Prelude.{◌≡◌, ◌==◌, slice_index};
ghost use Rattle.cbc_words.specs.Actions as spec;

/// The largest budget, and the largest number of a model that is made.
const MOST: u32 = 1_000_000;

fn has_plus(text: &str) -> bool
    ensures { result ≡ (slice_index text.now 0 == 43) }
{
    match text.as_bytes() {
        [b'+', ..] => true,
        _ => false,
    }
}

/// The number that one or more ASCII digits write, where it is 1,000,000 at most.
pub(crate) fn small_number(text: &str) -> Option<u32>
    ensures { result ≡ spec.small_number text.now }
{
    // `parse` takes a `+` in front as well.
    if has_plus(text) {
        return None;
    }
    match text.parse::<u32>() {
        Ok(number) => (number <= MOST).then_some(number),
        Err(_) => None,
    }
}
