//! What is made of the answers of a reader and a writer of std.
ghost use Rattle.std.specs.Prelude.{◌≡◌, ◌<◌, ◌↔◌, ◌⊎◌, Ok, IsErr, IfOk, OnOk, OnErr};
ghost use Rattle.desk_io.specs.Counts.{counted};

use crate::errors::Failed;

/// The answer of a call, and the count of faults behind it: an error is a fault, and nothing else is one. That a reader
/// has come to the end of its input is `Ok(0)`, and no fault.
pub fn settled<T, E: Drop>(answer: Result<T, E>, faults: u64) -> (Result<T, Failed>, u64)
    ensures value { IfOk result.0 (λ value. answer ≡ Ok value) }
    ensures failed { IsErr result.0 ↔ IsErr answer }
    ensures stays { OnOk answer (result.1 ≡ faults) }
    ensures counts { OnErr answer (result.1 ≡ counted faults) }
{
    match answer {
        Ok(value) => (Ok(value), faults),
        Err(_) => (Err(Failed), faults.saturating_add(1)),
    }
}

/// How many bytes a writer took of a piece that is not empty. It fails with an error, and where it takes nothing.
pub fn some_taken<E: Drop>(answer: Result<usize, E>) -> Result<usize, Failed>
    ensures value { IfOk result (λ n. (answer ≡ Ok n) × (0 < n)) }
    ensures failed { IsErr result ↔ (IsErr answer ⊎ (answer ≡ Ok 0)) }
{
    match answer {
        Ok(0) => Err(Failed),
        Ok(n) => Ok(n),
        Err(_) => Err(Failed),
    }
}
