// The numbers that are accepted, one test for each kind, which several entries ask; and how many numbers a record and a best take.
#![tactic(auto)]

ghost use Rattle.std.specs.Prelude.{◌≡◌, ◌≤◌};
ghost use Rattle.whole.specs.Interval.{Within};
ghost use Rattle.refusals.specs.Numbers.{outcome};
ghost use Rattle.limits.specs.Limits.{is_block, is_grid_side, is_step, is_frame_side, is_pel, are_shifts, shifted_by, is_pitch, is_length, blocks_of, radius_of};
ghost use Rattle.limits.specs.Refusals.{sides_refusal};

use refusals::Refusal;

// Named, so that a record that grows is changed in one place.
pub const WORDS_PER_RECORD: usize = 12;

pub const BYTES_PER_RECORD: usize = 4 * WORDS_PER_RECORD;

pub const NUMBERS_PER_BEST: usize = 5;

pub fn is_grid_side(side: i32) -> bool
    ensures { result ≡ is_grid_side side }
{
    whole::within(side, 2, 2048)
}

// A grid's two sides, by the table: one that is too small goes before one that is too large.
pub fn check_sides(nx: i32, ny: i32) -> Result<(), Refusal>
    ensures { result ≡ outcome (sides_refusal nx ny) }
{
    if nx < 2 || ny < 2 {
        return Err(Refusal::Setting);
    }
    if 2048 < nx || 2048 < ny {
        return Err(Refusal::Limit);
    }
    Ok(())
}

pub fn is_step(side: i32, step: i32) -> bool
    ensures { result ≡ is_step side step }
{
    whole::within(step, 1, side)
}

pub fn is_frame_side(side: i32) -> bool
    ensures { result ≡ is_frame_side side }
{
    whole::within(side, 2, 16384)
}

pub fn is_pel(pel: i32) -> bool
    ensures { result ≡ is_pel pel }
{
    matches!(pel, 1 | 2 | 4)
}

pub fn are_shifts(x: i32, y: i32) -> bool
    ensures { result ≡ are_shifts x y }
{
    matches!((x, y), (0, 0) | (1, 0) | (1, 1))
}

pub fn is_pitch(width: i32, pitch: i32) -> bool
    ensures { result ≡ is_pitch width pitch }
{
    whole::within(pitch, width, 65536)
}

pub fn is_length(length: usize) -> bool
    ensures { result ≡ is_length length }
{
    length <= 1073741823
}

pub fn is_block(width: i32, height: i32) -> bool
    ensures { result ≡ is_block width height }
{
    matches!((width, height), (8, 8) | (16, 8) | (16, 16))
}

// A number shifted right by a chroma shift.
pub fn shifted(z: i32, shift: i32) -> i32
    ensures { result ≡ shifted_by z shift }
{
    if shift < 1 { z } else { z >> 1 }
}

// The blocks of a grid, whatever its sides are.
pub fn blocks_of(nx: i32, ny: i32) -> usize
    ensures { (result ≡ blocks_of nx ny) × (result ≤ 4611686018427387904) }
{
    whole::size(nx) as usize * whole::size(ny) as usize
}

pub fn radius_of(search_param: i32) -> i32
    requires { Within 3 3 search_param }
    ensures { result ≡ radius_of search_param }
{
    search_param.abs()
}
