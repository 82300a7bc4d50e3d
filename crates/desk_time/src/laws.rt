//! Laws of the texts and of the weekdays: each is the contract of a function that does nothing.
ghost use Rattle.std.specs.Prelude.{◌≡◌, ℕ, List, pos};
ghost use Rattle.jiff_core.specs.Calendar.{weekday_number};
ghost use Rattle.desk_time.specs.Limits.{IsDay, IsMoment};
ghost use Rattle.desk_time.specs.Dates.{IsDateText, date_text, weekday_of};
ghost use Rattle.desk_time.specs.Moments.{IsMomentText, moment_text};

/// Each day has one text, which is read as it.
pub fn days_have_one_text()
    ensures reads { (day : ℕ) → IsDay day → IsDateText (date_text day) day }
    ensures only { (text : List ℕ) (day : ℕ) → IsDateText text day → text ≡ date_text day }
{}

/// A text is the date of one day.
pub fn dates_have_one_day()
    ensures { (text : List ℕ) (a b : ℕ) → IsDateText text a → IsDateText text b → a ≡ b }
{}

/// Each minute of the horizon, and its end, has one text, which is read as it.
pub fn minutes_have_one_text()
    ensures reads { (minute : ℕ) → IsMoment minute → IsMomentText (moment_text minute) minute }
    ensures only { (text : List ℕ) (minute : ℕ) → IsMomentText text minute → text ≡ moment_text minute }
{}

/// A text is one moment.
pub fn moments_have_one_minute()
    ensures { (text : List ℕ) (a b : ℕ) → IsMomentText text a → IsMomentText text b → a ≡ b }
{}

/// The weekday of a day is the calendar's.
pub fn weekdays_are_of_the_calendar()
    ensures { (day : ℕ) → weekday_number (pos day) ≡ weekday_of day }
{}
