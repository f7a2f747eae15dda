// A frame's diagonal, and the two output words of a block.
#![tactic(auto)]

ghost use Rattle.std.specs.Prelude.{◌≡◌, true, ◌+◌, ◌*◌, ◌/◌, ◌≤◌, ◌<◌, nat_abs};
ghost use Rattle.whole.specs.Numbers.{fits_i16};
ghost use Rattle.score.specs.Diagonal.{frame_fits, diagonal_answer};
ghost use Rattle.score.specs.Score.{output_word, scored, score_fits, score_answer};

fn frame_fits(width: i32, height: i32, pel: i32) -> bool
    ensures { result ≡ frame_fits width height pel }
{
    limits::is_frame_side(width) & limits::is_frame_side(height) & limits::is_pel(pel)
}

#[tactic(auto, unfolding(crate::specs::Diagonal::diagonal_answer, crate::specs::Diagonal::diagonal_of))]
pub fn diagonal(width: i32, height: i32, pel: i32) -> Option<i32>
    ensures { result ≡ diagonal_answer width height pel }
{
    if !frame_fits(width, height, pel) {
        return None;
    }
    let w = whole::size(width);
    let h = whole::size(height);
    let r = whole::root(w * w + h * h) as i32;
    Some(pel * r)
}

// The sum and not the OR: a y below zero takes one from x.
pub fn output_word(x: i32, y: i32) -> i32
    ensures { result ≡ output_word x y }
{
    whole::wrapping_add(x << 16, y)
}

// The vector's length in hundredths of the diagonal.
fn share(x: i32, y: i32, diagonal: u32) -> u32
    requires x_value { fits_i16 x ≡ true }
    requires y_value { fits_i16 y ≡ true }
    requires diagonal_nonzero { 0 < diagonal }
    ensures { result ≡ 100 * (nat_abs x + nat_abs y) / diagonal }
{
    100 * (whole::size(x) + whole::size(y)) / diagonal
}

fn scaled(sad: i32, share: u32) -> i32
    requires { share ≤ 6553600 }
    ensures { result ≡ scored sad share }
{
    if share > 50 {
        whole::wrapping_mul(sad, 20)
    } else if share > 15 {
        let over = (share - 15) as i32;
        whole::wrapping_add(sad, whole::wrapping_mul(sad, over) / 35 * 9)
    } else {
        sad
    }
}

fn score_fits(x: i32, y: i32, diagonal: i32) -> bool
    ensures { result ≡ score_fits x y diagonal }
{
    whole::fits_i16(x) & whole::fits_i16(y) & (0 < diagonal)
}

#[tactic(auto, unfolding(crate::specs::Score::score_answer, crate::specs::Score::packed_score))]
pub fn packed_score(x: i32, y: i32, sad: i32, diagonal: i32, average: i32) -> Option<i32>
    ensures { result ≡ score_answer x y sad diagonal average }
{
    if !score_fits(x, y, diagonal) {
        return None;
    }
    let score = scaled(sad, share(x, y, diagonal as u32));
    Some(whole::wrapping_add(average << 24, score & 16777215))
}
