// The changes of a moving day's account (order 7 of document 02): cancel a train, add a train, set boxes, each with its own checks.
//
// Proved: on an account with a sound day each change gives what `edited` of rolling's Rolling.antt says where the checks of `change_checks`
// there hold, else the refusal of the first that fails. Assumes nothing.
#![tactic(auto)]

ghost use Rattle.std.specs.Prelude.{◌≡◌, ◌≤◌};
ghost use Rattle.day.specs.Sound.{day_limits, yard};
ghost use Rattle.rolling.specs.Rolling.{cancel, add, set_boxes, number_in};
ghost use Rattle.account_edits.specs.Accounts.{account_in, HasSoundDay, change_in, answer, placed, made};

use day::{Day, Refusal};

// The plain account: the day as it was edited, the number of closed slots, and by position the slot of each served train, 0 of the others.
#[derive(Clone, Copy)]
pub struct Account {
    pub day: Day,
    pub closed: u8,
    pub served: [u8; 12],
}

// A change. Trains are named by their numbers; every value is one that a check may refuse.
#[derive(Clone, Copy, Debug, PartialEq, Eq)]
pub enum Change {
    Cancel(u32),
    Add { number: u32, first: u32, last: u32 },
    SetBoxes { to: u32, from: u32, boxes: u32 },
}

// ---- trains by their numbers

fn is_number(x: u32) -> bool
    ensures { result ≡ number_in day_limits x }
{
    (1 <= x) & (x <= day::day_limits().number)
}

// Where a number stands among the day's, or else where it would stand, as the library's `binary_search` answers.
fn place_in(day: &Day, x: u32) -> Result<usize, usize>
    requires { day.now.trains ≤ 12 }
    ensures { result ≡ placed (yard day.now) x }
{
    let p = day_edits::place_of(&day.numbers, day.trains, x);
    if (p < day.trains) && (day.numbers[p] == x) {
        Ok(p)
    } else {
        Err(p)
    }
}

// ---- the three changes

// Cancels a train that is listed, not served and not the only one: else 18. Checks 3 before that.
fn cancelled(account: Account, number: u32) -> Result<Account, Refusal>
    requires { HasSoundDay account }
    ensures { answer result ≡ made day_limits (account_in account) (cancel number) }
{
    if !is_number(number) {
        return Err(Refusal::OutOfLimits(0));
    }
    let d = account.day;
    let Ok(p) = place_in(&d, number) else {
        return Err(Refusal::TrainUnavailable);
    };
    if !((account.served[p] == 0) & (1 < d.trains)) {
        return Err(Refusal::TrainUnavailable);
    }
    Ok(Account {
        day: day_edits::without_train(d, p),
        served: day_edits::slots_without(account.served, d.trains, p),
        ..account
    })
}

// Adds a train that is not listed, to a day of fewer than twelve trains: else 19. Checks 3 before that; then 5, the window in order and in
// open slots.
fn added(account: Account, number: u32, first: u32, last: u32) -> Result<Account, Refusal>
    requires { HasSoundDay account }
    ensures { answer result ≡ made day_limits (account_in account) (add number first last) }
{
    let d = account.day;
    let limits = day::day_limits();
    if !day::train_within(
        limits,
        d.slots as u64,
        number as u64,
        first as u64,
        last as u64,
    ) {
        return Err(Refusal::OutOfLimits(0));
    }
    let Err(p) = place_in(&d, number) else {
        return Err(Refusal::TrainNotAddable);
    };
    if limits.trains <= d.trains {
        return Err(Refusal::TrainNotAddable);
    }
    if !((first <= last) & ((account.closed as u32) < first)) {
        return Err(Refusal::WindowOrder(0));
    }
    Ok(Account {
        day: day_edits::with_train(d, p, number, first as u8, last as u8),
        served: day_edits::slots_with(account.served, d.trains, p),
        ..account
    })
}

// Sets the boxes that one listed train receives from another: else 18, and 6 where they are the same. Checks 3 before that.
fn boxes_set(account: Account, to: u32, from: u32, boxes: u32) -> Result<Account, Refusal>
    requires { HasSoundDay account }
    ensures { answer result ≡ made day_limits (account_in account) (set_boxes to from boxes) }
{
    if !(is_number(to) & is_number(from) & (boxes <= 255)) {
        return Err(Refusal::OutOfLimits(0));
    }
    let d = account.day;
    let Ok(p) = place_in(&d, to) else {
        return Err(Refusal::TrainUnavailable);
    };
    let Ok(q) = place_in(&d, from) else {
        return Err(Refusal::TrainUnavailable);
    };
    if to == from {
        return Err(Refusal::UnknownTrain(0));
    }
    Ok(Account {
        day: day_edits::with_boxes(d, p, q, boxes as u8),
        ..account
    })
}

// The account as it was changed, or the refusal.
pub fn edited_account(account: Account, change: Change) -> Result<Account, Refusal>
    requires { HasSoundDay account }
    ensures { answer result ≡ made day_limits (account_in account) (change_in change) }
{
    match change {
        Change::Cancel(number) => cancelled(account, number),
        Change::Add {
            number,
            first,
            last,
        } => added(account, number, first, last),
        Change::SetBoxes { to, from, boxes } => boxes_set(account, to, from, boxes),
    }
}
