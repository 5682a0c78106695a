// What is left of a moving day, planned anew (order 7 of document 02), and the call that begins one. Planning is the planning call's: it is
// handed the day with windows cut.
//
// Proved: `replan` gives the state of the best plan of a standing account, or the refusal; `begin` answers what `begun` of rolling's
// Rolling.antt says, for every record and all lent memory. Assumes nothing.
#![tactic(auto)]

ghost use Rattle.std.specs.Prelude.{◌≡◌, true, T, length};
ghost use Rattle.day.specs.Sound.{day_limits, yard};
ghost use Rattle.planning.specs.Planning.{cost_area, choice_area, areas_suffice, open_words, Stays};
ghost use Rattle.rolling.specs.Rolling.{begun, begun_begins, or_before};
ghost use Rattle.rolling.specs.Cut.{Standing};
ghost use Rattle.rolling_state.specs.States.{state_in, answer, zero_state};
ghost use Rattle.account_edits.specs.Accounts.{account_in};
ghost use Rattle.replanning.specs.Replans.{plan_of_account, Made};

use account_edits::Account;
use day::{Day, Refusal};
use rolling_state::{Rolled, RollingState};

// The state of the best plan that keeps served trains in their slots and puts all others into open ones; where there is none, 9 or 16.
// Stays: `cost` and `choice` are two parameters here and in the calls above, as planning's `plan` takes them; a struct of two `&mut` would be
// taken apart again at once.
pub fn replan(
    account: Account,
    cost: &mut [u64],
    choice: &mut [u16],
) -> Result<RollingState, Refusal>
    requires { Standing day_limits (account_in account) × T (areas_suffice (length cost.old) (length choice.old)) }
    ensures { Made (plan_of_account (account_in account)) true cost.old choice.old result cost.new choice.new }
{
    let left = day_cut::cut_day(account.day, account.closed, account.served);
    let mut row = [0u8; 12];
    planning::plan(left, cost, choice, &mut row)?;
    Ok(RollingState {
        day: account.day,
        closed: account.closed as u32,
        row,
    })
}

// The state of a day with every slot open. Checks 8, 10, then 9 or 16.
fn begun_state(day: Day, cost: &mut [u64], choice: &mut [u16]) -> Result<RollingState, Refusal>
    ensures { Made (begun day_limits (yard day) (length cost.old) (length choice.old)) (begun_begins day_limits (yard day) (length cost.old) (length choice.old)) cost.old choice.old result cost.new choice.new }
{
    if !day_sound::is_sound(day) {
        return Err(Refusal::Unsound);
    }
    if !planning::are_areas_enough(cost.len(), choice.len()) {
        return Err(Refusal::TooShort);
    }
    replan(
        Account {
            day,
            closed: 0,
            served: [0; 12],
        },
        cost,
        choice,
    )
}

// Begins a moving day: plans it with every slot open. `cost` needs 4,096 words and `choice` 32,768, whatever the day. Checks 8, 10, then 9
// or 16; a refusal gives a state of zeros.
pub fn begin(day: Day, cost: &mut [u64], choice: &mut [u16]) -> Rolled
    ensures result_value { answer result ≡ begun day_limits (yard day) (length cost.old) (length choice.old) }
    ensures state_value { state_in result.state ≡ or_before zero_state (answer result) }
    ensures stays { Stays (open_words (begun_begins day_limits (yard day) (length cost.old) (length choice.old)) cost_area) cost.old cost.new }
    ensures stays_2 { Stays (open_words (begun_begins day_limits (yard day) (length cost.old) (length choice.old)) choice_area) choice.old choice.new }
{
    rolling_state::told(rolling_state::zero_state(), begun_state(day, cost, choice))
}
