// Dates from 1 January 2000 to 31 December 2099 in the Gregorian calendar (order 11 of document 02).
//
// Proved: each function is its definition in specs/Dates.antt. proofs/Rules.antt has the rule of leap years over all years;
// proofs/Following.antt: the next date has the next number and the next weekday; proofs/Numbering.antt: there are 36,525 dates. Assumes
// nothing.
#![tactic(auto)]

ghost use Rattle.std.specs.Prelude.{◌≡◌, ◌≤◌, ◌<◌, T};
ghost use Rattle.dates.specs.Dates.{leap, month_days, year_days, is_date, days_before_year, days_before_month, weekday};

// A date; months count from 1 for January.
#[derive(Clone, Copy, Debug, PartialEq, Eq, Hash, PartialOrd, Ord)]
pub struct Date {
    pub year: u32,
    pub month: u32,
    pub day: u32,
}

// Whether a year has a 29 February.
#[tactic(auto, unfolding(crate::specs::Dates::leap))]
fn is_leap(year: u32) -> bool
    ensures { result ≡ leap year }
{
    (year % 4 == 0) & ((year % 100 != 0) | (year % 400 == 0))
}

#[tactic(auto, unfolding(crate::specs::Dates::month_days))]
fn february_days(year: u32) -> u32
    ensures { result ≡ month_days year 2 }
{
    if is_leap(year) { 29 } else { 28 }
}

// The days of a month by its number, February by leap year; 0 where the number is no month's.
#[tactic(auto, unfolding(crate::specs::Dates::month_days))]
fn month_days(year: u32, month: u32) -> u32
    ensures { result ≡ month_days year month }
{
    match month {
        1 => 31,
        2 => february_days(year),
        3 => 31,
        4 => 30,
        5 => 31,
        6 => 30,
        7 => 31,
        8 => 31,
        9 => 30,
        10 => 31,
        11 => 30,
        12 => 31,
        _ => 0,
    }
}

fn year_days(year: u32) -> u32
    ensures { (result ≡ year_days year) × (result ≤ 366) }
{
    if is_leap(year) { 366 } else { 365 }
}

// Whether the date is one of those from 1 January 2000 to 31 December 2099.
#[tactic(auto, unfolding(crate::specs::Dates::is_date))]
pub fn is_date(date: Date) -> bool
    ensures { result ≡ is_date date }
{
    ((2000 <= date.year) & (date.year <= 2099))
        & ((1 <= date.month) & (date.month <= 12))
        & ((1 <= date.day) & (date.day <= month_days(date.year, date.month)))
}

// The days from 1 January 2000 to 1 January of the year.
fn days_before_year(year: u32) -> u32
    requires { (2000 ≤ year) × (year ≤ 2099) }
    ensures { (result ≡ days_before_year year) × (result ≤ 36600) }
{
    (2000..year).map(year_days).sum()
}

// The days from 1 January to the first of the month.
fn days_before_month(year: u32, month: u32) -> u32
    requires { (1 ≤ month) × (month ≤ 12) }
    ensures { (result ≡ days_before_month year month) × (result ≤ 372) }
{
    (1..month).map(|m| month_days(year, m)).sum()
}

// The weekday of a date, 0 for Monday to 6 for Sunday.
#[tactic(auto, using(crate::proofs::DateLaws::date_is, crate::proofs::DateLaws::month_at_most), unfolding(crate::specs::Dates::weekday, crate::specs::Dates::day_number))]
pub fn weekday_of(date: Date) -> usize
    requires { T (is_date date) }
    ensures { (result ≡ weekday date) × (result < 7) }
{
    let number = days_before_year(date.year)
        + days_before_month(date.year, date.month)
        + (date.day - 1);
    ((5 + number) % 7) as usize
}
