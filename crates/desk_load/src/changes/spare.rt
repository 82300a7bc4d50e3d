//! Memory that is kept for a list, so that a row goes back into it without any.
ghost use Rattle.std.specs.Prelude.{◌≡◌, ◌<◌, ◌≤◌, length, IfOk};
ghost use Rattle.std.specs.List.{insert};

use desk_base::NoMemory;
use std::alloc::Global;
use std::marker::Model;
use std::mem;

/// An empty list that takes up so many rows without memory.
#[derive(Drop)]
pub(crate) struct Spare<T: Drop> {
    rows: Vec<T>,
    count: usize,
}

impl<T: Drop> Model for Spare<T> {
    ghost use Rattle.std.specs.Prelude.{◌≡◌, ◌≤◌, ℕ, [], vec_len, vec_capacity};

    ghost Value = { ℕ };

    ghost view = { λ s. s.count };

    ghost invariant = { λ s. (s.rows.items ≡ []) × (vec_len s.rows ≡ 0) × (s.count ≤ vec_capacity s.rows) };
}

impl<T: Drop> Spare<T> {
    /// Takes the memory for so many rows.
    pub(crate) fn of(alloc: Global, count: usize) -> Result<Spare<T>, NoMemory>
        ensures { IfOk result (λ s. s ≡ count) }
    {
        let rows = Vec::with_capacity(alloc, count)?;
        Ok(Spare { rows, count })
    }

    /// For how many rows it is.
    pub(crate) fn count(&self) -> usize
        ensures { result ≡ self.now }
    {
        self.count
    }

    /// Moves rows into this memory, and puts one more at a place among them. It takes no memory.
    pub(crate) fn insert(self, rows: &mut Vec<T>, at: usize, row: T)
        requires inside { at ≤ length rows.old.items }
        requires room { length rows.old.items < self }
        ensures { rows.new.items ≡ insert rows.old.items at row }
    {
        let Spare {
            rows: mut all,
            count: _,
        } = self;
        all.append(rows).unwrap();
        all.insert(at, row).unwrap();
        let _emptied = mem::replace(rows, all);
    }
}
