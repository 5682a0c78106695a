// Opening hours and dates (order 11 of document 02): the slots that a date uses, and the window of a train from a date and two minutes.
//
// Proved: for every calendar, date and pair of minutes `train_window` answers `window_of` of specs/Calendar.antt and `slots_on` answers
// `slots_on`, with zeros beside a refusal. specs/Promised.antt draws the order's sentences from this. Assumes nothing.
#![tactic(auto)]

ghost use Rattle.std.specs.Prelude.{◌≡◌, ◌≤◌, ◌<◌, T};
ghost use Rattle.fold.specs.Fold.{each};
ghost use Rattle.day.specs.Answer.{answered, judged};
ghost use Rattle.dates.specs.Dates.{is_date};
ghost use Rattle.opening_hours.specs.Calendar.{hours_valid, closed_valid, calendar_valid, is_closed, hours_on, used_slots, date_valid, slots_on, slots_or_zero, window_of, window_or_zero};

use dates::Date;
use day::Refusal;

// The greatest minute of a day, counted from midnight; the closed dates that a calendar has at most; the longest slot.
const LAST_MINUTE: u32 = 1439;

const MOST_CLOSED: usize = 32;

const LONGEST_SLOT: u32 = 1440;

// The minutes at which the yard opens and closes.
#[derive(Clone, Copy)]
pub struct Hours {
    pub opens: u32,
    pub closes: u32,
}

// A yard's calendar: the hours of each weekday, 0 for Monday to 6 for Sunday; the length of a slot in minutes; the closed dates, of which
// the first `count` are looked at.
#[derive(Clone, Copy)]
pub struct Calendar {
    pub hours: [Hours; 7],
    pub length: u32,
    pub closed: [Date; 32],
    pub count: usize,
}

// The number of slots that a date uses, 0 beside a refusal.
// Stays: a count beside its verdict, since the second clause of `slots_on` promises the 0.
#[derive(Clone, Copy)]
pub struct SlotCount {
    pub verdict: Result<(), Refusal>,
    pub slots: u32,
}

// The first and the last slot in which a train may be served, counted from 1.
#[derive(Clone, Copy)]
pub struct Window {
    pub first: u32,
    pub last: u32,
}

// A train's window, 0 and 0 beside a refusal.
// Stays: a window beside its verdict, since the second clause of `train_window` promises the zeros.
#[derive(Clone, Copy)]
pub struct Windowed {
    pub verdict: Result<(), Refusal>,
    pub window: Window,
}

fn are_hours_valid(hours: [Hours; 7]) -> bool
    ensures { result ≡ each 7 (hours_valid hours) }
{
    (0..7usize).all(|w| hours[w].opens <= LAST_MINUTE && hours[w].closes <= LAST_MINUTE)
}

fn are_closed_valid(closed: [Date; 32], count: usize) -> bool
    requires { count ≤ 32 }
    ensures { result ≡ each count (closed_valid closed) }
{
    (0..count).all(|i| dates::is_date(closed[i]))
}

fn is_calendar_valid(calendar: Calendar) -> bool
    ensures { result ≡ calendar_valid calendar }
{
    if MOST_CLOSED < calendar.count {
        return false;
    }
    are_hours_valid(calendar.hours)
        & are_closed_valid(calendar.closed, calendar.count)
        & ((1 <= calendar.length) & (calendar.length <= LONGEST_SLOT))
}

// Whether calendar and date are such as 23 asks for.
fn is_date_valid(calendar: Calendar, date: Date) -> bool
    ensures { result ≡ date_valid calendar date }
{
    is_calendar_valid(calendar) & dates::is_date(date)
}

fn is_closed_on(closed: [Date; 32], count: usize, date: Date) -> bool
    requires { count ≤ 32 }
    ensures { result ≡ is_closed closed count date }
{
    (0..count).any(|i| closed[i] == date)
}

// The hours of the date's weekday.
fn hours_on(calendar: Calendar, date: Date) -> Hours
    requires { T (is_date date) }
    ensures { result ≡ hours_on calendar date }
{
    calendar.hours[dates::weekday_of(date)]
}

// How many slots a date uses whose weekday has these hours.
fn used_slots(calendar: Calendar, date: Date, hours: Hours) -> u32
    requires { T (date_valid calendar date) × (hours ≡ hours_on calendar date) }
    ensures { (result ≡ used_slots calendar date) × (result ≤ 8) }
{
    if is_closed_on(calendar.closed, calendar.count, date) {
        return 0;
    }
    slot_times::slots_between(hours.opens, hours.closes, calendar.length)
}

// How many slots a date uses, 0 on a closed one; 23 where a date, a minute, the count of closed dates or the slot length is out of range.
pub fn slots_on(calendar: Calendar, date: Date) -> SlotCount
    ensures slots_value { judged result.verdict result.slots ≡ slots_on calendar date }
    ensures slots_value_2 { result.slots ≡ slots_or_zero (slots_on calendar date) }
{
    if !is_date_valid(calendar, date) {
        return SlotCount {
            verdict: Err(Refusal::CalendarOutOfRange),
            slots: 0,
        };
    }
    let hours = hours_on(calendar, date);
    SlotCount {
        verdict: Ok(()),
        slots: used_slots(calendar, date, hours),
    }
}

// The window of a train on a date, or why it has none.
fn window_on(
    calendar: Calendar,
    date: Date,
    arrival: u32,
    departure: u32,
) -> Result<Window, Refusal>
    ensures { answered (λ window. window) result ≡ window_of calendar date arrival departure }
{
    if !(is_date_valid(calendar, date) & ((arrival <= LAST_MINUTE) & (departure <= LAST_MINUTE))) {
        return Err(Refusal::CalendarOutOfRange);
    }
    let hours = hours_on(calendar, date);
    let used = used_slots(calendar, date, hours);
    let first = slot_times::first_slot(hours.opens, calendar.length, used, arrival);
    let last = slot_times::last_slot(hours.opens, calendar.length, used, departure);
    if last < first {
        return Err(Refusal::NoWindow);
    }
    Ok(Window { first, last })
}

// The window of a train on a date: the earliest used slot that starts at or after arrival, and the latest that ends at or before departure.
// 23 as above, or where arrival or departure is out of range; then 24 where the train has no slot.
pub fn train_window(calendar: Calendar, date: Date, arrival: u32, departure: u32) -> Windowed
    ensures window_value { judged result.verdict result.window ≡ window_of calendar date arrival departure }
    ensures window_value_2 { result.window ≡ window_or_zero (window_of calendar date arrival departure) }
{
    match window_on(calendar, date, arrival, departure) {
        Ok(window) => Windowed {
            verdict: Ok(()),
            window,
        },
        Err(refusal) => Windowed {
            verdict: Err(refusal),
            window: Window { first: 0, last: 0 },
        },
    }
}
