//! What a turn of one hart changes of the others.

ghost use Rattle.std.specs.Prelude.{◌≡◌, ℕ, OnOk, option_map};
ghost use Rattle.std.specs.List.{list_all};
ghost use Rattle.mv_harts_one.specs.Seats.{store_as};
ghost use Rattle.mv_harts_turns.specs.Pairs.{Pairs};
ghost use Rattle.mv_harts_turns.specs.Groups.{Shared, IsFreed, is_seat_away};

use mv_harts_one::{Mode, Seat, Store};
use std::alloc::AllocError;

/// The store of hart `from` in the memories of the harts beside hart 0, but in its own.
pub(crate) fn share(
    others: &mut Vec<Seat>,
    from: usize,
    store: Option<Store>,
) -> Result<(), AllocError>
    ensures { OnOk result (Shared (option_map store_as store) from others.old.items others.new.items) }
{
    let Some(_) = store else {
        return Ok(());
    };
    for place in 0..others.len() {
        if place + 1 == from {
            continue;
        }
        others[place].take_store(store)?;
    }
    Ok(())
}

// A parked hart is freed.
fn free_one(seat: &mut Seat)
    ensures { IsFreed seat.old seat.new }
{
    if seat.mode == Mode::Parked {
        seat.mode = Mode::Freed;
    }
}

/// A commit was made: the parked harts are freed to adopt it.
pub(crate) fn free(others: &mut Vec<Seat>)
    ensures { Pairs (λ n. IsFreed) others.old.items others.new.items }
{
    for place in 0..others.len() {
        free_one(&mut others[place]);
    }
}

// Whether a hart has ended or is parked.
fn is_away(seat: &Seat) -> bool
    ensures { result ≡ is_seat_away seat.now }
{
    seat.stop.is_some() || seat.mode == Mode::Parked
}

/// Whether each of them has ended or is parked.
pub(crate) fn all_away(others: &[Seat]) -> bool
    ensures { result ≡ list_all is_seat_away others.now }
{
    others.iter().all(is_away)
}
