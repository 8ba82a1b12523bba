//! Parts of lists of rows.

ghost use Rattle.std.specs.Prelude.{◌≡◌, ◌≤◌, length, take, drop};

/// The first so many of some items, or all of them.
#[tactic(auto, using(std::proofs::lemmas::List::take_min))]
pub(crate) fn front<T>(items: &[T], count: usize) -> &[T]
    ensures items { result.now ≡ take count items.now }
    ensures few { length result.now ≤ length items.now }
{
    &items[..items.len().min(count)]
}

/// The items behind the first so many.
#[tactic(auto, using(std::proofs::lemmas::List::drop_min))]
pub(crate) fn behind<T>(items: &[T], count: usize) -> &[T]
    ensures { result.now ≡ drop count items.now }
{
    &items[items.len().min(count)..]
}
