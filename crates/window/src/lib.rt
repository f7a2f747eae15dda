// What a record says of its search: its two flags, whether its window holds a candidate, how wide it is, and how many slots a radius has.
#![tactic(auto)]

ghost use Rattle.std.specs.Prelude.{◌≡◌, true, pos};
ghost use Rattle.whole.specs.Numbers.{lies_in};
ghost use Rattle.window.specs.Windows.{bad_flag, half_flag, is_bad, is_negative, side_of, both_some, has_candidate, is_searched, is_kept, window_wide, is_wide, slots_of};

use records::{Pair, Record};

// Stays a number, as the other flag does: a report prints it as 0 or 1.
pub fn bad_flag(flags: i32) -> i32
    ensures { result ≡ bad_flag flags }
{
    flags & 1
}

pub fn half_flag(flags: i32) -> i32
    ensures { result ≡ half_flag flags }
{
    (flags >> 1) & 1
}

pub fn is_bad(given: Record) -> bool
    ensures { result ≡ is_bad given }
{
    1 <= bad_flag(given.flags)
}

pub fn is_negative(given: Record) -> bool
    ensures { result ≡ is_negative given }
{
    1 <= half_flag(given.flags)
}

// In 64 bits no side of any window is cut.
fn side_of(window: Pair) -> i64
    ensures { result ≡ side_of window }
{
    i64::from(window.second) - i64::from(window.first) + 1
}

// Each side is asked: two sides below 0 have a product above it.
fn both_some(x: i64, y: i64) -> bool
    ensures { result ≡ both_some x y }
{
    (0 < x) & (0 < y)
}

fn has_candidate(given: Record) -> bool
    ensures { result ≡ has_candidate given }
{
    both_some(side_of(given.window_x), side_of(given.window_y))
}

#[tactic(auto, unfolding(crate::specs::Windows::is_searched))]
pub fn is_searched(given: Record) -> bool
    ensures { result ≡ is_searched given }
{
    is_bad(given) & has_candidate(given)
}

#[tactic(auto, unfolding(crate::specs::Windows::is_kept))]
pub fn is_kept(given: Record) -> bool
    ensures { result ≡ is_kept given }
{
    is_bad(given) & !has_candidate(given)
}

fn window_wide(most: i64, x: i64, y: i64) -> bool
    ensures { result ≡ window_wide most x y }
{
    both_some(x, y) & ((most < x) | (most < y))
}

pub fn is_wide(given: Record, radius: i32) -> bool
    ensures { result ≡ is_wide radius given }
{
    let most = i64::from(radius) * 2 + 1;
    is_bad(given) & window_wide(most, side_of(given.window_x), side_of(given.window_y))
}

pub fn slots_of(radius: i32) -> i32
    requires { lies_in (pos 0) (pos 3) radius ≡ true }
    ensures { result ≡ slots_of radius }
{
    let most = radius * 2 + 1;
    most * most + 1
}
