// Records as they stand in a lent slice, 12 words each, and refusal 7 asked of all of them.
#![tactic(auto)]

ghost use Rattle.std.specs.Prelude.{◌≡◌, true, ◌+◌, ◌*◌, ◌≤◌, length};
ghost use Rattle.limits.specs.Sizes.{words_per_record};
ghost use Rattle.records.specs.Packing.{pairs_fit};
ghost use Rattle.record_slice.specs.RecordSlice.{words_from, record_at, any_wide};

use records::{Record, Words};

#[tactic(auto, unfolding(crate::specs::RecordSlice::words_from))]
fn words_from(records: &[i32], at: usize) -> Words
    requires { at + words_per_record ≤ length records.now }
    ensures { result ≡ words_from records.now at }
{
    Words {
        full: records[at],
        overlay: records[at + 1],
        u: records[at + 2],
        v: records[at + 3],
        average: records[at + 4],
        pos: records[at + 5],
        cpos: records[at + 6],
        predictor: records[at + 7],
        window_x: records[at + 8],
        window_y: records[at + 9],
        sad: records[at + 10],
        last: records[at + 11],
    }
}

#[tactic(auto, using(crate::specs::ReadBack::unpacked_pairs_fit), unfolding(crate::specs::RecordSlice::record_at))]
pub fn record_at(records: &[i32], i: usize) -> Record
    requires { words_per_record * i + words_per_record ≤ length records.now }
    ensures value { result ≡ record_at records.now i }
    ensures result_value { pairs_fit result ≡ true }
{
    records::unpack_record(words_from(records, limits::WORDS_PER_RECORD * i))
}

// Stays with n beside the slice: the records of a plan may stand in a longer one, and `any_wide` asks the first n.
pub fn any_wide(records: &[i32], radius: i32, n: usize) -> bool
    requires { words_per_record * n ≤ length records.now }
    ensures { result ≡ any_wide radius records.now n }
{
    (0..n).any(|i| window::is_wide(record_at(records, i), radius))
}
