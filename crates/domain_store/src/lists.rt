//! What stands at a place of a list.
ghost use Rattle.std.specs.Prelude.{◌≡◌, Some, None, MatchOption, slice_get};

/// What stands at a place of the list, if it is that long.
pub(crate) fn item<T>(items: &[T], k: u64) -> Option<&T>
    ensures { MatchOption result (slice_get items.now k ≡ None) (λ x. slice_get items.now k ≡ Some x.now) }
{
    items.get(k as usize)
}
