//! The row of an entry.

ghost use Rattle.std.specs.Prelude.{◌≡◌, MatchOption, option_map};
ghost use Rattle.stripe_cache.specs.Rows.{if_delayed, is_meant};
ghost use Rattle.stripe_cache.specs.View.{cached_of};

use crate::cached::{Cached, Delayed, Kept};
use crate::key::{Held, Key};

/// The row of this key.
pub fn cached(key: Key, held: Held) -> Cached
    ensures { result ≡ cached_of (key, held) }
{
    let changed = held.changed();
    Cached {
        side: key.side(),
        row: key.row,
        body: held.into_body(),
        changed,
    }
}

/// The answer where a row is here and this entry has left for it.
pub fn without_entry(gone: Option<(Key, Held)>) -> Kept
    ensures { MatchOption (if_delayed (option_map cached_of gone)) (result ≡ Kept.Here) (λ row. result ≡ Kept.Evicted row) }
{
    match gone {
        Some((key, held)) => {
            let row = cached(key, held);
            if row.changed != 0 {
                Kept::Evicted(row)
            } else {
                Kept::Here
            }
        }
        None => Kept::Here,
    }
}

/// Whether the entry is one of the delayed rows that are meant.
pub fn is_meant(key: Key, held: &Held, which: Delayed) -> bool
    ensures { result ≡ is_meant which (cached_of (key, held.now)) }
{
    let is_delayed = held.changed() != 0;
    match which {
        Delayed::Anywhere => is_delayed,
        Delayed::Within(side, rows) => {
            is_delayed && key.is_on(side) && rows.lo <= key.row && key.row < rows.hi
        }
    }
}
