// Finishing: the bests of evaluation are stored as vectors, and as output words where these are asked
// for. The entry takes any numbers, and refuses by 01's table before it writes.
#![tactic(auto)]

ghost use Rattle.std.specs.Prelude.{◌≡◌, true, ◌/◌, length};
ghost use Rattle.refusals.specs.Numbers.{outcome};
ghost use Rattle.limits.specs.Sizes.{numbers_per_best};
ghost use Rattle.score.specs.Score.{packed_score, score_fits};
ghost use Rattle.finishing.specs.Finish.{written_upto, storing, putting, is_stray, any_stray, is_wild, any_wild, finish_answer, finish_vectors, finish_output};
ghost use Rattle.finishing.specs.Asked.{Placed, Scored};

use refusals::Refusal;

fn is_stray(index: i32, blocks: i32) -> bool
    ensures { result ≡ is_stray blocks index }
{
    !(0..blocks).contains(&index)
}

// Both tests are of the whole list, by folds: `any` stops at the first, so that the compiler can't ask several at a time.
fn any_stray(indices: &[i32], blocks: i32) -> bool
    ensures { result ≡ any_stray blocks indices.now (length indices.now) }
{
    indices
        .iter()
        .fold(false, |stray, index| stray | is_stray(*index, blocks))
}

fn is_wild(x: i32, y: i32) -> bool
    ensures { result ≡ is_wild x y }
{
    !(whole::fits_i16(x) & whole::fits_i16(y))
}

fn any_wild(bests: &[i32]) -> bool
    ensures { result ≡ any_wild bests.now (length bests.now / numbers_per_best) }
{
    let (by_five, _) = bests.as_chunks::<{ limits::NUMBERS_PER_BEST }>();
    by_five
        .iter()
        .fold(false, |wild, [x, y, ..]| wild | is_wild(*x, *y))
}

// One entry after the other, so that the later one wins.
fn write_vectors(indices: &[i32], bests: &[i32], vectors: &mut [i32])
    requires { Placed 3 vectors.old indices.now bests.now }
    ensures { vectors.new ≡ written_upto (storing indices.now bests.now) vectors.old (length indices.now) }
{
    let (by_five, _) = bests.as_chunks::<{ limits::NUMBERS_PER_BEST }>();
    for (index, [x, y, sad, ..]) in indices.iter().zip(by_five) {
        let at = 3 * *index as usize;
        // Read before they are stored, so that the compiler can move them together.
        let three = [*x, *y, *sad];
        vectors[at] = three[0];
        vectors[at + 1] = three[1];
        vectors[at + 2] = three[2];
    }
}

// Within its limits a score is never refused.
#[tactic(auto, unfolding(score::specs::Score::score_answer))]
fn score_of(x: i32, y: i32, sad: i32, diagonal: i32, average: i32) -> i32
    requires { score_fits x y diagonal ≡ true }
    ensures { result ≡ packed_score x y sad diagonal average }
{
    score::packed_score(x, y, sad, diagonal, average).unwrap()
}

fn write_output(indices: &[i32], bests: &[i32], diagonal: i32, output: &mut [i32])
    requires placed { Placed 2 output.old indices.now bests.now }
    requires scored { Scored diagonal indices.now bests.now }
    ensures { output.new ≡ written_upto (putting indices.now bests.now diagonal) output.old (length indices.now) }
{
    let (by_five, _) = bests.as_chunks::<{ limits::NUMBERS_PER_BEST }>();
    for (index, [x, y, sad, average, _]) in indices.iter().zip(by_five) {
        let at = 2 * *index as usize;
        output[at] = score::output_word(*x, *y);
        output[at + 1] = score_of(*x, *y, *sad, diagonal, *average);
    }
}

// By the table, of all that is lent, before anything is written. Then the vectors are stored, and the
// output is written where it is asked for.
#[tactic(auto, unfolding(crate::specs::Finish::finish_answer, crate::specs::Finish::finish_vectors, crate::specs::Finish::finish_output))]
pub fn finish(
    nx: i32,
    ny: i32,
    indices: &[i32],
    bests: &[i32],
    diagonal: i32,
    output_asked: bool,
    vectors: &mut [i32],
    output: &mut [i32],
) -> Result<(), Refusal>
    ensures answer { result ≡ outcome (finish_answer nx ny indices.now bests.now diagonal output_asked (length vectors.old) (length output.old)) }
    ensures stored { vectors.new ≡ finish_vectors nx ny indices.now bests.now diagonal output_asked vectors.old (length output.old) }
    ensures written { output.new ≡ finish_output nx ny indices.now bests.now diagonal output_asked (length vectors.old) output.old }
{
    limits::check_sides(nx, ny)?;
    let blocks = limits::blocks_of(nx, ny);
    if vectors.len() != 3 * blocks || diagonal <= 0 {
        return Err(Refusal::Limit);
    }
    if any_stray(indices, blocks as i32) {
        return Err(Refusal::OutsideGrid);
    }
    if output_asked && output.len() < 2 * blocks
        || bests.len() != limits::NUMBERS_PER_BEST * indices.len()
    {
        return Err(Refusal::OutputLength);
    }
    if any_wild(bests) {
        return Err(Refusal::Window);
    }
    write_vectors(indices, bests, vectors);
    if output_asked {
        write_output(indices, bests, diagonal, output);
    }
    Ok(())
}
