//! Callers: the numbers of their changes, and the receipt of the last. The row of a caller is found by halving.
ghost use Rattle.std.specs.Prelude.{◌≡◌, ◌==◌, ◌&&◌, filter, find};
ghost use Rattle.std.specs.Option.{option_copied};
ghost use Rattle.desk_base.specs.asked.Callers.{last_number};
ghost use Rattle.desk_base.specs.asked.Steps.{kept_receipt};
ghost use Rattle.desk_base.specs.asked.Refusing.{refused_number};
ghost use Rattle.desk_base.specs.rows.Lookups.{KeysRise};
ghost use Rattle.desk_base.specs.rules.Sound.{IsSound};

use desk_base::{Call, CallerId, CallerRow, Receipt, Refusal, Tables, rows_of};

/// The number of the caller's last change, or 0 before its first.
#[tactic(auto, using(crate::proofs::Ready::rise))]
pub fn last_number(tables: &Tables, caller: CallerId) -> u32
    requires { IsSound tables.now }
    ensures { result ≡ last_number tables.now caller }
{
    match tables.caller(caller) {
        Some(row) => row.last.get(),
        None => 0,
    }
}

/// The rows of a caller, of which there is at most one.
#[tactic(auto, using(desk_base::proofs::tables::Rising::callers_rise, crate::proofs::Ready::rise))]
fn own_rows(tables: &Tables, caller: CallerId) -> &[CallerRow]
    requires { IsSound tables.now }
    ensures { result.now ≡ filter (λ x. x.caller == caller) tables.now.callers }
{
    rows_of(tables.callers.as_slice(), caller.get())
}

/// The first of the rows of this number.
fn numbered<'a>(rows: &'a [CallerRow], number: u32) -> Option<&'a CallerRow>
    ensures { option_copied result ≡ find (λ x. x.last == number) rows.now }
{
    rows.iter().find(|x| x.last.get() == number)
}

/// The row of the caller, where its last change has the number of this one.
#[tactic(auto, using(crate::proofs::Finding::find_filter))]
fn repeated<'a>(tables: &'a Tables, call: &Call) -> Option<&'a CallerRow>
    requires { IsSound tables.now }
    ensures { option_copied result ≡ find (λ x. (x.caller == call.now.caller) && (x.last == call.now.number)) tables.now.callers }
{
    let own = own_rows(tables, call.caller);
    numbered(own, call.number.get())
}

/// What the caller's last change gave, where it has the number of this one.
pub fn kept_receipt(tables: &Tables, call: &Call) -> Option<Receipt>
    requires { IsSound tables.now }
    ensures { result ≡ kept_receipt tables.now call.now }
{
    match repeated(tables, call) {
        Some(row) => Some(row.receipt),
        None => None,
    }
}

/// Why a number is not the one after the last.
pub(crate) fn refused_number(last: u32, number: u32) -> Option<Refusal>
    ensures { result ≡ refused_number last number }
{
    if number < last {
        Some(Refusal::OldNumber(last))
    } else if u64::from(last) + 1 < u64::from(number) {
        Some(Refusal::SkippedNumber(last))
    } else {
        None
    }
}
