//! The grid of a group's starts.
ghost use Rattle.std.specs.Prelude.{◌≡◌, ◌≤◌, ◌↔◌, IsTrue};
ghost use Rattle.desk_base.specs.search.Listing.{IsOnGrid};
ghost use Rattle.desk_feasible.specs.Grid.{is_on_grid};

use desk_base::GroupRow;

/// Whether the start is the group's plus whole steps, below its end.
pub fn is_on_grid(group: &GroupRow, start: u32) -> bool
    requires { 1 ≤ group.now.step }
    ensures { IsTrue result ↔ IsOnGrid group.now start }
{
    passes_grid(group, start)
}

fn passes_grid(group: &GroupRow, start: u32) -> bool
    requires { 1 ≤ group.now.step }
    ensures { result ≡ is_on_grid group.now start }
{
    group.from.get() <= start
        && start < group.to.get()
        && (start - group.from.get()) % u32::from(group.step) == 0
}
