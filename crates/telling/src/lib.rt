// Numbers told to a caller: the four numbers of a row, or what a refusal carries, in memory that the caller lends.
//
// Proved: each function stores at the front what specs/Telling.antt says, and leaves the numbers beyond. Assumes nothing.
#![tactic(auto)]

ghost use Rattle.std.specs.Prelude.{◌≡◌, ◌∷◌, ◌++◌, ◌≤◌, leb, length, drop};
ghost use Rattle.day.specs.Answer.{gives, refusal, answered};
ghost use Rattle.refusals.specs.Numbers.{verdict_number};
ghost use Rattle.counting.specs.Counting.{outcome_of};
ghost use Rattle.telling.specs.Telling.{number_count, numbers_told, verdict_line};
ghost use Rattle.telling.specs.Laws.{Told};

use counting::Value;
use day::Refusal;
use refusals::Numbered;

// Whether there is room for four numbers.
pub fn is_room(size: usize) -> bool
    ensures { result ≡ leb number_count size }
{
    4 <= size
}

// Stores four numbers at the front.
pub fn store_four(numbers: &mut [u64], a: u64, b: u64, c: u64, d: u64)
    requires { number_count ≤ length numbers.old }
    ensures { numbers.new ≡ a ∷ b ∷ c ∷ d ∷ drop number_count numbers.old }
{
    numbers[..4].copy_from_slice(&[a, b, c, d]);
}

// Stores the four numbers of a row, each count opened by its own opener.
pub fn store_value(numbers: &mut [u64], value: Value)
    requires { number_count ≤ length numbers.old }
    ensures { numbers.new ≡ numbers_told (gives (outcome_of value)) ++ drop number_count numbers.old }
{
    store_four(
        numbers,
        value.revisits.count(),
        value.splits.count(),
        value.direct.count(),
        value.cost,
    );
}

// Stores what a refusal carries, and gives its number.
pub fn tell(numbers: &mut [u64], given: Refusal) -> u64
    requires { number_count ≤ length numbers.old }
    ensures { Told numbers.old (refusal given) result numbers.new }
{
    let told = Numbered::from(given);
    store_four(numbers, told.first, told.second, told.third, 0);
    told.number
}

// Tells the four numbers of a row and gives 0, or what a refusal carries and gives its number.
pub fn tell_valued(numbers: &mut [u64], valued: Result<Value, Refusal>) -> u64
    requires { number_count ≤ length numbers.old }
    ensures { Told numbers.old (answered outcome_of valued) result numbers.new }
{
    match valued {
        Ok(value) => {
            store_value(numbers, value);
            0
        }
        Err(refusal) => tell(numbers, refusal),
    }
}

// Tells the line of a refusal and gives its number; 0 and 0 where there is none.
pub fn tell_line(at: &mut u64, verdict: Result<(), Refusal>) -> u64
    ensures value { result ≡ verdict_number verdict }
    ensures at_after { at.new ≡ verdict_line verdict }
{
    match verdict {
        Ok(()) => {
            *at = 0;
            0
        }
        Err(refusal) => {
            let told = Numbered::from(refusal);
            *at = told.first;
            told.number
        }
    }
}
