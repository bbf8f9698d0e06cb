//! Laws of the definitions that the readers and writers of dates and stamps stand on.
ghost use Rattle.std.specs.Prelude.{◌≡◌, ℕ, pos};
ghost use Rattle.jiff_core.specs.Calendar.{days_from_civil};
ghost use Rattle.rep_fields.specs.Decoding.{TellsApart};
ghost use Rattle.rep_fields.specs.Calendar.{IsDay, day_text, date_of};
ghost use Rattle.rep_fields.specs.Moment.{IsMinuteOfDay, hours_text, IsOffset, offset_text, IsMoment, moment_text};

/// Different days, times of day, offsets and stamps have different texts: a text tells its value.
pub fn texts_tell_values_apart()
    ensures days { TellsApart IsDay day_text }
    ensures times_of_day { TellsApart IsMinuteOfDay hours_text }
    ensures offsets { TellsApart IsOffset offset_text }
    ensures stamps { TellsApart IsMoment moment_text }
{}

/// The date so many steps after 1970-01-01 has that day number in the calendar of `jiff_core`, which counts years and
/// months and knows nothing of steps.
pub fn steps_count_days()
    ensures { (days : ℕ) → let date = date_of days in
        days_from_civil (pos date.year) date.month date.day ≡ pos days }
{}
