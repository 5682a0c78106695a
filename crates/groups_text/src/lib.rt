// The groups of a day file (order 4 of document 02), put into a lent output: the fourth section, which is left out where no train has one.
//
// Proved: `put_groups` puts what dayfile's Writing.antt says, from columns of any length. Assumes nothing.
#![tactic(auto)]

ghost use Rattle.std.specs.Prelude.{◌≡◌, ◌+◌, ◌≤◌, ◌<◌, length};
ghost use Rattle.fold.specs.Listed.{joined};
ghost use Rattle.decimal.specs.Place.{Put};
ghost use Rattle.groups_text.specs.Texts.{member_text, has_groups, sets_text};

// Puts the row of position i where it is in group g, and nothing where it is not.
fn put_member(out: &mut [u8], at: usize, numbers: &[u32], groups: &[u8], g: u8, i: usize) -> usize
    requires i_in_bounds { (i < length numbers.now) × (i < length groups.now) }
    requires i_in_bounds_2 { at + length (member_text numbers.now groups.now g i) ≤ length out.old }
    ensures { Put out.old out.new at result (member_text numbers.now groups.now g i) }
{
    if groups[i] != g {
        return at;
    }
    output::put_row(out, at, &[u64::from(g), u64::from(numbers[i])])
}

// Puts the rows of group g from a place on, of n trains. Gives the place after them.
fn put_group(out: &mut [u8], at: usize, numbers: &[u32], groups: &[u8], n: usize, g: u8) -> usize
    requires n_in_bounds { (n ≤ length numbers.now) × (n ≤ length groups.now) }
    requires g_in_bounds { at + length (joined n (member_text numbers.now groups.now g)) ≤ length out.old }
    ensures { Put out.old out.new at result (joined n (member_text numbers.now groups.now g)) }
{
    let mut next = at;
    for i in 0..n {
        next = put_member(out, next, numbers, groups, g, i);
    }
    next
}

// Whether one of n trains has a group.
fn has_groups(groups: &[u8], n: usize) -> bool
    requires { n ≤ length groups.now }
    ensures { result ≡ has_groups n groups.now }
{
    for i in 0..n {
        if 0 < groups[i] {
            return true;
        }
    }
    false
}

// Puts the fourth section from a place on: its names line and the rows of the groups 1 to `most`, and nothing where no train has one.
// Gives the place after it.
pub fn put_groups(
    out: &mut [u8],
    at: usize,
    numbers: &[u32],
    groups: &[u8],
    n: usize,
    most: u8,
) -> usize
    requires n_in_bounds { (n ≤ length numbers.now) × (n ≤ length groups.now) }
    requires groups_in_bounds { at + length (sets_text most n numbers.now groups.now) ≤ length out.old }
    ensures { Put out.old out.new at result (sets_text most n numbers.now groups.now) }
{
    if !has_groups(groups, n) {
        return at;
    }
    let mut next = output::put_bytes(out, at, &dayfile::GROUP_NAMES);
    for g in 0..most {
        next = put_group(out, next, numbers, groups, n, g + 1);
    }
    next
}
