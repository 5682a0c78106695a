// The lower figure of a long day (document 02, order 9): a cost that no allowed row is below (beam, LowerFigure.antt).
//
// Proved: `lower_figure` is that figure by equation. Over slices, for up to 36 trains and 4 tracks. Assumes nothing.
#![tactic(auto)]

ghost use Rattle.std.specs.Prelude.{◌≡◌, ◌-◌, ◌≤◌, ◌<◌, ◌&&◌, ltb, get_or};
ghost use Rattle.model.specs.Model.{supplies};
ghost use Rattle.beam.specs.LowerFigure.{largest};
ghost use Rattle.beam_tables.specs.Given.{AreGiven, AreTrains, received};
ghost use Rattle.lower_figure.specs.Figure.{sure_revisit, sure_split, figure_of, ThreeLargest};

use beam_tables::{Boxes, DayTrains};

// Whether train j supplies train i, and its first slot is after the last of train i.
fn supplies_late(day: &DayTrains, i: usize, j: usize) -> bool
    requires { AreTrains day.now × (i < day.now.boxes.trains) × (j < day.now.boxes.trains) }
    ensures { result ≡ (supplies (received day.now.boxes) i j && ltb (get_or day.now.last.now i 0) (get_or day.now.first.now j 0)) }
{
    (0 < day.boxes.received(i, j)) & (day.last[i] < day.first[j])
}

// Whether train i has a supplier whose first slot is after its own last slot: it revisits in every allowed row.
fn surely_revisits(day: &DayTrains, i: usize) -> bool
    requires { AreTrains day.now × (i < day.now.boxes.trains) }
    ensures { result ≡ sure_revisit day.now.boxes.trains (received day.now.boxes) day.now.first.now day.now.last.now i }
{
    (0..day.boxes.trains).any(|j| supplies_late(day, i, j))
}

// ---- the boxes that are surely split

// The greatest sums of at most one, two and three of a train's supplies.
#[derive(Clone, Copy)]
struct Largest {
    one: u64,
    two: u64,
    three: u64,
}

fn largest_supplies(boxes: &Boxes, i: usize) -> Largest
    requires { AreGiven boxes.now × (i < boxes.now.trains) }
    ensures { ThreeLargest boxes.now.trains (received boxes.now i) result.one result.two result.three }
{
    let mut one: u64 = 0;
    let mut two: u64 = 0;
    let mut three: u64 = 0;
    for j in 0..boxes.trains {
        let x = u64::from(boxes.received(i, j));
        three = three.max(two + x);
        two = two.max(one + x);
        one = one.max(x);
    }
    Largest { one, two, three }
}

// The greatest sum of at most `others` of train i's supplies.
fn direct_at_most(boxes: &Boxes, i: usize, others: u32) -> u64
    requires { AreGiven boxes.now × (i < boxes.now.trains) × (others ≤ 3) }
    ensures { result ≡ largest others boxes.now.trains (received boxes.now i) }
{
    let l = largest_supplies(boxes, i);
    match others {
        0 => 0,
        1 => l.one,
        2 => l.two,
        _ => l.three,
    }
}

// The boxes that train i receives, less the largest supplies that the trains beside it can bring.
fn surely_split(boxes: &Boxes, i: usize, tracks: u32) -> u64
    requires { AreGiven boxes.now × (i < boxes.now.trains) × (1 ≤ tracks) × (tracks ≤ 4) }
    ensures { (result ≡ sure_split boxes.now.trains tracks (received boxes.now) i) × (result ≤ 9180) }
{
    beam_tables::incoming_to(boxes, i) - direct_at_most(boxes, i, tracks - 1)
}

// ---- the figure

pub fn lower_figure(day: &DayTrains, tracks: u32, revisit: u64, split: u64) -> u64
    requires { AreTrains day.now × (1 ≤ tracks) × (tracks ≤ 4) × (revisit ≤ 65535) × (split ≤ 65535) }
    ensures { result ≡ figure_of day.now.boxes.trains tracks revisit split (received day.now.boxes) day.now.first.now day.now.last.now }
{
    let mut revisits: u64 = 0;
    let mut splits: u64 = 0;
    for i in 0..day.boxes.trains {
        revisits += u64::from(surely_revisits(day, i));
        splits += surely_split(&day.boxes, i, tracks);
    }
    revisit * revisits + split * splits
}
