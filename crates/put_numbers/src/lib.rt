// N numbers stored one behind the other: a block's five, the five of a plane's place, a record's twelve.
#![tactic(auto)]

ghost use Rattle.std.specs.Prelude.{◌≡◌, ◌+◌, ◌≤◌, length};
ghost use Rattle.std.proofs.Math.Seq.{paste};

pub fn put<const N: usize>(list: &mut [i32], at: usize, numbers: [i32; N])
    requires { at + N ≤ length list.old }
    ensures { list.new ≡ paste list.old at numbers.entry N }
{
    list[at..at + N].copy_from_slice(&numbers);
}
