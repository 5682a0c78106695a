// Opening hours and dates (order 11 of document 02) for a caller who lends the calendar as numbers: hours by weekday, closed dates, a date as
// one number.
//
// Proved: for every lent calendar `tell_slots` and `tell_window` return and leave what specs/LentCalendar.antt says; specs/Laws.antt has the
// header's words for it. Assumes nothing.
#![tactic(auto)]

ghost use Rattle.std.specs.Prelude.{◌≡◌, ◌+◌, ◌*◌, ◌≤◌, ◌<◌, length};
ghost use Rattle.day.specs.Answer.{code};
ghost use Rattle.opening_hours.specs.Calendar.{slots_or_zero, window_or_zero};
ghost use Rattle.lent_calendar.specs.LentCalendar.{date_of, hours_of, week_of, closed_of, calendar_of, slots_lent, window_lent};

use dates::Date;
use opening_hours::{Calendar, Hours};
use std::array;

// The minutes of a week: opening and closing of seven weekdays.
const HOURS: usize = 14;

// The places of closed dates.
const CLOSED: usize = 32;

// A date from one number, year x 10,000 + month x 100 + day.
fn date_of(number: u32) -> Date
    ensures { result ≡ date_of number }
{
    Date {
        year: number / 10000,
        month: number / 100 % 100,
        day: number % 100,
    }
}

// The hours of a weekday, 0 for Monday.
fn hours_of(hours: &[u32], w: usize) -> Hours
    requires { 2 * w + 1 < length hours.now }
    ensures { result ≡ hours_of hours.now w }
{
    Hours {
        opens: hours[2 * w],
        closes: hours[2 * w + 1],
    }
}

fn week_of(hours: &[u32]) -> [Hours; 7]
    requires { 14 ≤ length hours.now }
    ensures { result ≡ week_of hours.now }
{
    array::from_fn(|w| hours_of(hours, w))
}

// The closed dates; those past the 32nd have no place.
// Stays: `for` over the places of two lists, and only of the dates that are lent: an `array::from_fn` makes all 32 places one by one, over four
// tenths more instructions of a call without closed dates.
fn closed_of(closed: &[u32]) -> [Date; 32]
    ensures { result ≡ closed_of closed.now }
{
    let mut dates = [Date {
        year: 0,
        month: 0,
        day: 0,
    }; 32];
    for i in 0..closed.len().min(CLOSED) {
        dates[i] = date_of(closed[i]);
    }
    dates
}

// The calendar of lent numbers. Its count is that of all dates lent, so that a 33rd is refused.
fn calendar_of(hours: &[u32], minutes: u32, closed: &[u32]) -> Calendar
    requires { 14 ≤ length hours.now }
    ensures { result ≡ calendar_of hours.now minutes closed.now }
{
    Calendar {
        hours: week_of(hours),
        length: minutes,
        closed: closed_of(closed),
        count: closed.len(),
    }
}

// How many slots a date uses: 0 with the number, or 10 or 23 with 0.
// Stays: it gives the number of a refusal, since it is the body of the C function `yard_slots_on`.
pub fn tell_slots(hours: &[u32], minutes: u32, closed: &[u32], date: u32, slots: &mut u32) -> u64
    ensures value { result ≡ code (slots_lent hours.now minutes closed.now date) }
    ensures slots_after { slots.new ≡ slots_or_zero (slots_lent hours.now minutes closed.now date) }
{
    if hours.len() < HOURS {
        *slots = 0;
        return 10;
    }
    let found = opening_hours::slots_on(calendar_of(hours, minutes, closed), date_of(date));
    *slots = found.slots;
    refusals::number_of(found.verdict)
}

// The window of a train: 0 with its first and last slot, or 10, 23 or 24 with zeros.
// Stays: it gives the number of a refusal, since it is the body of the C function `yard_window`.
pub fn tell_window(
    hours: &[u32],
    minutes: u32,
    closed: &[u32],
    date: u32,
    arrival: u32,
    departure: u32,
    first: &mut u32,
    last: &mut u32,
) -> u64
    ensures value { result ≡ code (window_lent hours.now minutes closed.now date arrival departure) }
    ensures first_after { first.new ≡ (window_or_zero (window_lent hours.now minutes closed.now date arrival departure)).first }
    ensures last_after { last.new ≡ (window_or_zero (window_lent hours.now minutes closed.now date arrival departure)).last }
{
    if hours.len() < HOURS {
        *first = 0;
        *last = 0;
        return 10;
    }
    let found = opening_hours::train_window(
        calendar_of(hours, minutes, closed),
        date_of(date),
        arrival,
        departure,
    );
    *first = found.window.first;
    *last = found.window.last;
    refusals::number_of(found.verdict)
}
