// Evaluating, with the third demand's last sentence in the contract, what the fifth number says, and
// what a record has that the report counts as kept. A lent slice holds bytes whatever it holds, so that
// the caller is asked for nothing: the laws are about the buffer that he gets back.
// Stays with six slices in place of two `Samples`: the laws rest on it that each sample is a byte, which
// the prover knows of a slice that is lent itself, but gives no proof of inside a struct.
#![tactic(auto)]

ghost use Rattle.std.specs.Prelude.{◌≡◌, length, IsOk};
ghost use Rattle.refusals.specs.Numbers.{outcome};
ghost use Rattle.evaluation.specs.Evaluated.{evaluate_answer, evaluate_bests};
ghost use Rattle.zero_law.specs.Knowing.{Known};

use evaluation::Request;
use planes::Samples;
use refusals::Refusal;

pub fn evaluate_knowing(
    request: Request,
    records: &[i32],
    luma: &[u8],
    u: &[u8],
    v: &[u8],
    reference_luma: &[u8],
    reference_u: &[u8],
    reference_v: &[u8],
    bests: &mut [i32],
) -> Result<(), Refusal>
    ensures value { result ≡ outcome (evaluate_answer request records.now luma.now u.now v.now reference_luma.now reference_u.now reference_v.now (length bests.old)) }
    ensures bests_after { bests.new ≡ evaluate_bests request records.now luma.now u.now v.now reference_luma.now reference_u.now reference_v.now bests.old }
    ensures known { IsOk result → Known request records.now luma.now u.now v.now reference_luma.now reference_u.now reference_v.now bests.new }
{
    let source = Samples { luma, u, v };
    let reference = Samples {
        luma: reference_luma,
        u: reference_u,
        v: reference_v,
    };
    evaluation::evaluate(request, records, source, reference, bests)
}
