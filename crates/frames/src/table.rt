// A table of at most N entries, in the order in which they came, that lie in the value itself.
// Not the library's `ArrayVec`: that one asks its entries for a default, and writes it over each entry that goes; `truncate` cuts this one in one step, however many go.
ghost use Rattle.std.specs.Prelude.{◌≡◌, ◌≤◌, List, length, take};

use std::marker::Model;

#[derive(Drop)]
pub struct Table<R, const N: usize> {
    pub(crate) items: [R; N],
    // How many entries there are; the items behind them mean nothing.
    pub(crate) len: usize,
}

impl<R, const N: usize> Model for Table<R, N> {
    ghost Value = { List R };

    ghost view = { λ t. take t.len t.items };

    ghost invariant = { λ t. (t.len ≤ N) × (length t.items ≡ N) };
}
