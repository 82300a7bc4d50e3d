//! Rows that rise by their owner and then by a rank of theirs, as those of each table do: what belongs to one owner is found by
//! halving, and no other row is looked at.
ghost use Rattle.std.specs.Prelude.{◌≡◌, ◌==◌, ◌&&◌, ◌<◌, ◌≤◌, filter, find};
ghost use Rattle.std.specs.Option.{option_copied};
ghost use Rattle.desk_base.specs.rows.Ranges.{Rise, owns, ranks, holds, nearer, AreStill};

/// A row that belongs to an owner, and has a rank among its rows.
pub trait Placed {
    ghost use Rattle.std.specs.Prelude.{ℕ};

    ghost owner: { Self → ℕ };

    ghost rank: { Self → ℕ };

    /// The number of the owner.
    fn owner_number(&self) -> u32
        ensures { result ≡ owner self.now };

    /// The rank.
    fn rank_number(&self) -> u32
        ensures { result ≡ rank self.now };
}

/// A row that speaks of a time.
pub trait Timed {
    ghost use Rattle.std.specs.Prelude.{ℕ};

    ghost from: { Self → ℕ };

    ghost to: { Self → ℕ };

    /// When it begins.
    fn from_number(&self) -> u32
        ensures { result ≡ from self.now };

    /// When it ends; this minute is not in it.
    fn to_number(&self) -> u32
        ensures { result ≡ to self.now };
}

/// The rows of one owner.
pub fn rows_of<T: Placed>(rows: &[T], owner: u32) -> &[T]
    requires { Rise T.owner T.rank rows.now }
    ensures { result.now ≡ filter (owns T.owner owner) rows.now }
{
    let first = rows.partition_point(|row| row.owner_number() < owner);
    let rest = &rows[first..];
    let count = rest.partition_point(|row| row.owner_number() == owner);
    &rest[..count]
}

/// The rows of one owner that have the rank.
pub fn rows_at<T: Placed>(rows: &[T], owner: u32, rank: u32) -> &[T]
    requires { Rise T.owner T.rank rows.now }
    ensures { result.now ≡ filter (ranks T.owner T.rank owner rank) rows.now }
{
    let first = rows.partition_point(|row| {
        row.owner_number() < owner || row.owner_number() == owner && row.rank_number() < rank
    });
    let rest = &rows[first..];
    let count = rest.partition_point(|row| {
        row.owner_number() == owner && row.rank_number() == rank
    });
    &rest[..count]
}

/// The first row of an owner.
pub fn row_of<T: Placed>(rows: &[T], owner: u32) -> Option<&T>
    requires { Rise T.owner T.rank rows.now }
    ensures { option_copied result ≡ find (owns T.owner owner) rows.now }
{
    rows_of(rows, owner).first()
}

/// The first of the rows that holds the minute.
pub fn covering<T: Timed>(rows: &[T], minute: u32) -> Option<&T>
    ensures { option_copied result ≡ find (holds T.from T.to minute) rows.now }
{
    rows.iter().find(|row| row.from_number() <= minute && minute < row.to_number())
}

/// Another minute where it lies after this one and before `near`, and else `near`.
pub fn nearer(minute: u32, near: u32, other: u32) -> u32
    ensures { result ≡ nearer minute near other }
{
    if minute < other && other < near {
        other
    } else {
        near
    }
}

/// The first minute after this one at which one of the rows begins or ends, where it comes before `near`, and else `near`: each
/// row that holds the minute holds those before it, and no other does.
pub fn next_bound<T: Timed>(rows: &[T], minute: u32, near: u32) -> u32
    ensures later { minute < near → minute < result }
    ensures below { result ≤ near }
    ensures still { AreStill T.from T.to minute result rows.now }
{
    let mut next = near;
    for row in rows {
        next = nearer(
            minute,
            nearer(minute, next, row.from_number()),
            row.to_number(),
        );
    }
    next
}
