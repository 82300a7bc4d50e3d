//! What a free booking means for all bookings together.
ghost use Rattle.std.specs.Prelude.{◌≤◌, ◌++◌, ◌∷◌, []};
ghost use Rattle.desk_base.specs.declared.search.results.Ask.{Ask};
ghost use Rattle.desk_base.specs.rules.Limits.{first_minute, end_of_minutes};
ghost use Rattle.desk_base.specs.meaning.Load.{Fits};
ghost use Rattle.desk_load.specs.Views.{ViewParts, standing, IsFree};

/// Where what stands in a view fits, it fits with a booking more that is free.
#[tactic(auto, using(crate::proofs::Whole::free_fits))]
pub fn free_bookings_fit()
    ensures { (v : ViewParts) (a : Ask) → Fits v.tables (standing v) → IsFree v a → Fits v.tables (standing v ++ a ∷ []) }
{}

/// And only so: where all fit together, the booking is free.
#[tactic(auto, using(crate::proofs::Whole::fits_free))]
pub fn fitting_bookings_are_free()
    ensures { (v : ViewParts) (a : Ask) → first_minute ≤ a.window.from → a.window.to ≤ end_of_minutes → Fits v.tables (standing v ++ a ∷ []) → IsFree v a }
{}
