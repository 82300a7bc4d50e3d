//! Laws of local times: each is the contract of a function that does nothing.
ghost use Rattle.std.specs.Prelude.{◌≡◌, ℕ, ℤ, List};
ghost use Rattle.desk_base.specs.meaning.Time.{local_time};
ghost use Rattle.desk_time.specs.Clocks.{local_time as shown_time};

/// What clocks show, as `desk_time` says it and as `desk_base` says it, is one.
pub fn local_times_agree()
    ensures { (shifts : List (ℕ × ℤ)) (m : ℕ) → ((shown_time shifts m).day ≡ (local_time shifts m).day) × ((shown_time shifts m).minute ≡ (local_time shifts m).minute) }
{}
