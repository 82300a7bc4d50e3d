//! Why a schedule is not loaded.
ghost use Rattle.std.specs.Prelude.{◌≡◌};
ghost use Rattle.desk_keeper.specs.declared.errors.LoadError.TheVariants.{NoMemory as Wanting};

use desk_base::NoMemory;

/// Why a keeper gives no tables.
#[derive(Clone, Copy, Debug, PartialEq, Eq)]
pub enum LoadError {
    /// The keeper failed, and its count of faults says so.
    Failed,
    /// Memory was not found. It is no fault of the keeper, and the call may be made again.
    NoMemory,
}

impl From<NoMemory> for LoadError {
    ghost from_gives = { λ _ e. e ≡ Wanting };

    fn from(_error: NoMemory) -> LoadError {
        LoadError::NoMemory
    }
}
