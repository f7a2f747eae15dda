// What a host calls: thin functions over the proved entries. hirupango_c exports them to C, and include/hirupango.h declares them.
// Stays with slices apart and answers in numbers: so C calls them, and has no other type for either.
#![tactic(auto)]

ghost use Rattle.std.specs.Prelude.{◌≡◌, length};
ghost use Rattle.score.specs.Score.{score_answer};
ghost use Rattle.score.specs.Diagonal.{diagonal_answer};
ghost use Rattle.serpentine.specs.Answers.{order_refusal, order_after};
ghost use Rattle.levels.specs.Refusals.{level_answer};
ghost use Rattle.levels.specs.Numbers.{given_number, given_numbers};
ghost use Rattle.planning.specs.Planned.{plan_number, plan_answer, plan_records, plan_indices};
ghost use Rattle.evaluation.specs.Evaluated.{evaluate_answer, evaluate_bests};
ghost use Rattle.finishing.specs.Finish.{finish_answer, finish_vectors, finish_output};
ghost use Rattle.answer_bytes.specs.BlockCost.{cost_number, cost_bytes};
ghost use Rattle.answer_bytes.specs.Word.{word_number, word_bytes};
ghost use Rattle.answer_bytes.specs.Slots.{slots_answer};

use block::Settings;
use evaluation::Request;
use level_places::SuperFrame;
use planes::Samples;

// ---- one number
pub fn hirupango_packed_score(
    x: i32,
    y: i32,
    sad: i32,
    diagonal: i32,
    average: i32,
    out: &mut [u8],
) -> u32
    ensures number { result ≡ word_number 2 (score_answer x y sad diagonal average) (length out.old) }
    ensures bytes { out.new ≡ word_bytes (score_answer x y sad diagonal average) out.old }
{
    answer_bytes::give(2, score::packed_score(x, y, sad, diagonal, average), out)
}

pub fn hirupango_diagonal(width: i32, height: i32, pel: i32, out: &mut [u8]) -> u32
    ensures number { result ≡ word_number 2 (diagonal_answer width height pel) (length out.old) }
    ensures bytes { out.new ≡ word_bytes (diagonal_answer width height pel) out.old }
{
    answer_bytes::give(2, score::diagonal(width, height, pel), out)
}

pub fn hirupango_slots(search_param: i32, out: &mut [u8]) -> u32
    ensures number { result ≡ word_number 1 (slots_answer search_param) (length out.old) }
    ensures bytes { out.new ≡ word_bytes (slots_answer search_param) out.old }
{
    answer_bytes::give(1, answer_bytes::slots_answer(search_param), out)
}

pub fn hirupango_block_cost(
    measure: i32,
    width: i32,
    height: i32,
    a: &[u8],
    a_pitch: i32,
    b: &[u8],
    b_pitch: i32,
    out: &mut [u8],
) -> u32
    ensures number { result ≡ cost_number measure width height a.now a_pitch b.now b_pitch (length out.old) }
    ensures bytes { out.new ≡ cost_bytes measure width height a.now a_pitch b.now b_pitch out.old }
{
    let outcome = answer_bytes::block_cost(measure, width, height, a, a_pitch, b, b_pitch, out);
    refusals::number(outcome)
}

// ---- a level
pub fn hirupango_level(
    frame: SuperFrame,
    luma: &[u8],
    u: &[u8],
    v: &[u8],
    source_luma: &[u8],
    source_u: &[u8],
    source_v: &[u8],
    planes: &mut [i32],
) -> u32
    ensures number { result ≡ given_number (level_answer frame (length luma.now) (length u.now) (length v.now) (length source_luma.now) (length source_u.now) (length source_v.now)) (length planes.old) }
    ensures placed { planes.new ≡ given_numbers (level_answer frame (length luma.now) (length u.now) (length v.now) (length source_luma.now) (length source_u.now) (length source_v.now)) planes.old }
{
    let packed = Samples { luma, u, v };
    let source = Samples {
        luma: source_luma,
        u: source_u,
        v: source_v,
    };
    refusals::number(levels::level_numbers(frame, packed, source, planes))
}

// ---- the pass
pub fn hirupango_serpentine_order(nx: i32, ny: i32, order: &mut [i32]) -> u32
    ensures number { result ≡ order_refusal nx ny (length order.old) }
    ensures filled { order.new ≡ order_after nx ny order.old }
{
    refusals::number(serpentine::serpentine_order(nx, ny, order))
}

// On 0 slots and diagonal are what hirupango_slots and hirupango_diagonal give.
pub fn hirupango_plan(
    settings: Settings,
    order: &[i32],
    vectors: &[i32],
    luma: &[u8],
    u: &[u8],
    v: &[u8],
    records: &mut [i32],
    indices: &mut [i32],
) -> u32
    ensures number { result ≡ plan_number (plan_answer settings order.now vectors.now (length luma.now) (length u.now) (length v.now) (length records.old) (length indices.old)) }
    ensures planned { records.new ≡ plan_records settings order.now vectors.now (length luma.now) (length u.now) (length v.now) records.old (length indices.old) }
    ensures named { indices.new ≡ plan_indices settings order.now vectors.now (length luma.now) (length u.now) (length v.now) (length records.old) indices.old }
{
    let source = Samples { luma, u, v };
    match planning::plan(settings, order, vectors, source, records, indices) {
        Ok(_) => 0,
        Err(refusal) => refusal.into(),
    }
}

pub fn hirupango_evaluate(
    request: Request,
    records: &[i32],
    luma: &[u8],
    u: &[u8],
    v: &[u8],
    reference_luma: &[u8],
    reference_u: &[u8],
    reference_v: &[u8],
    bests: &mut [i32],
) -> u32
    ensures number { result ≡ evaluate_answer request records.now luma.now u.now v.now reference_luma.now reference_u.now reference_v.now (length bests.old) }
    ensures found { bests.new ≡ evaluate_bests request records.now luma.now u.now v.now reference_luma.now reference_u.now reference_v.now bests.old }
{
    let source = Samples { luma, u, v };
    let reference = Samples {
        luma: reference_luma,
        u: reference_u,
        v: reference_v,
    };
    refusals::number(evaluation::evaluate(request, records, source, reference, bests))
}

pub fn hirupango_finish(
    nx: i32,
    ny: i32,
    indices: &[i32],
    bests: &[i32],
    diagonal: i32,
    output_asked: bool,
    vectors: &mut [i32],
    output: &mut [i32],
) -> u32
    ensures number { result ≡ finish_answer nx ny indices.now bests.now diagonal output_asked (length vectors.old) (length output.old) }
    ensures stored { vectors.new ≡ finish_vectors nx ny indices.now bests.now diagonal output_asked vectors.old (length output.old) }
    ensures written { output.new ≡ finish_output nx ny indices.now bests.now diagonal output_asked (length vectors.old) output.old }
{
    refusals::number(finishing::finish(
        nx,
        ny,
        indices,
        bests,
        diagonal,
        output_asked,
        vectors,
        output,
    ))
}
