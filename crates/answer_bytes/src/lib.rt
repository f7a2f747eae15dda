// Answers of one number, as a host gets them: four bytes in a lent buffer. And block cost, which answers in no other way.
#![tactic(auto)]

ghost use Rattle.std.specs.Prelude.{◌≡◌, ◌≤◌, ◌<◌, length};
ghost use Rattle.refusals.specs.Numbers.{outcome};
ghost use Rattle.answer_bytes.specs.Word.{word_number, word_bytes};
ghost use Rattle.answer_bytes.specs.Slots.{slots_answer};
ghost use Rattle.answer_bytes.specs.BlockCost.{is_size, numbers_fit, is_held, cost_number, cost_bytes};

use distance::Rows;
use refusals::Refusal;

// What an entry answered, as four bytes. It refuses with the number given here.
// Stays with numbers: any number may be given to refuse with, and a `Refusal` would ask more of the caller.
pub fn give(refused: u32, answer: Option<i32>, out: &mut [u8]) -> u32
    ensures number { result ≡ word_number refused answer (length out.old) }
    ensures bytes { out.new ≡ word_bytes answer out.old }
{
    let Some(word) = answer else {
        return refused;
    };
    if out.len() < 4 {
        return 5;
    }
    little_endian::put_word(out, word);
    0
}

#[tactic(auto, unfolding(crate::specs::Slots::slots_answer))]
pub fn slots_answer(search_param: i32) -> Option<i32>
    ensures { result ≡ slots_answer search_param }
{
    whole::within(search_param, -3, 3).then(|| window::slots_of(limits::radius_of(search_param)))
}

// ---- block cost
fn is_size(width: i32, height: i32) -> bool
    ensures { result ≡ is_size width height }
{
    matches!(
        (width, height),
        (16, 16) | (16, 8) | (8, 8) | (8, 4) | (4, 4)
    )
}

fn numbers_fit(measure: i32, width: i32, height: i32, a_pitch: i32, b_pitch: i32) -> bool
    ensures { result ≡ numbers_fit measure width height a_pitch b_pitch }
{
    whole::within(measure, 0, 1)
        & is_size(width, height)
        & whole::within(a_pitch, width, 65536)
        & whole::within(b_pitch, width, 65536)
}

fn is_held(s: &[u8], pitch: usize, width: usize, height: usize) -> bool
    requires { (pitch ≤ 65536) × ((width ≤ 16) × ((0 < height) × (height ≤ 16))) }
    ensures { result ≡ is_held s.now pitch width height }
{
    (height - 1) * pitch + width <= s.len()
}

// Stays with its parts apart: so a host gives them, and `hirupango_block_cost` hands them on.
#[tactic(auto, using(crate::specs::BlockCostLaws::accepted))]
pub fn block_cost(
    measure: i32,
    width: i32,
    height: i32,
    a: &[u8],
    a_pitch: i32,
    b: &[u8],
    b_pitch: i32,
    out: &mut [u8],
) -> Result<(), Refusal>
    ensures answer { result ≡ outcome (cost_number measure width height a.now a_pitch b.now b_pitch (length out.old)) }
    ensures bytes { out.new ≡ cost_bytes measure width height a.now a_pitch b.now b_pitch out.old }
{
    if !numbers_fit(measure, width, height, a_pitch, b_pitch) {
        return Err(Refusal::Limit);
    }
    let w = width as usize;
    let h = height as usize;
    let p = a_pitch as usize;
    let q = b_pitch as usize;
    if !(is_held(a, p, w, h) & is_held(b, q, w, h)) {
        return Err(Refusal::PlaneLength);
    }
    if out.len() < 4 {
        return Err(Refusal::OutputLength);
    }
    let one = Rows { bytes: a, pitch: p };
    let other = Rows { bytes: b, pitch: q };
    let value = distance::cost(0 < measure, w, h, one, other);
    little_endian::put_word(out, value as i32);
    Ok(())
}
