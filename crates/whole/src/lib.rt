// Whole numbers: wrapping at 32 bits, ranges, the lesser and the greater of two, one for a test that holds, the whole root.
#![tactic(auto)]

ghost use Rattle.std.specs.Prelude.{◌≡◌, cond, ◌+ℤ◌, ◌*ℤ◌, nat_abs};
ghost use Rattle.std.specs.Int.{w32};
ghost use Rattle.whole.specs.Numbers.{wrapped, lies_in, fits_i16, lesser_of, greater_of, root_of};

// The i32 that is w but for a multiple of 2^32. A shift up drops the high half, and the shift
// down copies the sign of what is left.
pub fn wrap32(w: i64) -> i32
    ensures { result ≡ wrapped w32 w }
{
    // Stays by two shifts: `as` is proved to lose nothing, so it cuts nothing off; a mask and two casts would be no plainer.
    ((w << 32) >> 32) as i32
}

pub fn wrapping_add(a: i32, b: i32) -> i32
    ensures { result ≡ wrapped w32 (a +ℤ b) }
{
    a.wrapping_add(b)
}

#[tactic(auto, using(std::proofs::lemmas::Int::wrapping_mul_is, crate::specs::Wrapping::int_wrap_is))]
pub fn wrapping_mul(a: i32, b: i32) -> i32
    ensures { result ≡ wrapped w32 (a *ℤ b) }
{
    a.wrapping_mul(b)
}

pub fn within(value: i32, least: i32, greatest: i32) -> bool
    ensures { result ≡ lies_in least greatest value }
{
    (least..=greatest).contains(&value)
}

pub fn fits_i16(value: i32) -> bool
    ensures { result ≡ fits_i16 value }
{
    i16::try_from(value).is_ok()
}

// How far a number lies from zero.
pub fn size(z: i32) -> u32
    ensures { result ≡ nat_abs z }
{
    z.unsigned_abs()
}

pub fn lesser(a: i32, b: i32) -> i32
    ensures { result ≡ lesser_of a b }
{
    a.min(b)
}

pub fn greater(a: i32, b: i32) -> i32
    ensures { result ≡ greater_of a b }
{
    a.max(b)
}

// 1 where a test holds, 0 where it does not: for counting.
pub fn one_where(test: bool) -> usize
    ensures { result ≡ cond test 1 0 }
{
    usize::from(test)
}

// The largest whole number whose square is at most n: twice the root of n / 4, or one more.
#[tactic(auto, using(crate::specs::Root::root_none, crate::specs::Root::quarter_small, crate::specs::Root::square_small, crate::specs::Root::root_odd, crate::specs::Root::root_even))]
pub fn root(n: u32) -> u32
    ensures { result ≡ root_of n }
{
    if n == 0 {
        return 0;
    }
    let r = 2 * root(n / 4);
    let s = r + 1;
    if s * s <= n { s } else { r }
}
