// Offsets and blocks that the Rust was asked about, compared. A case's inputs begin with base, pitch,
// width, height, pel, x and y. The answers of an offset are pel1 and subpel. A block goes on with its
// sides, how many bytes there are and the bytes; its answers are the samples from subpel on. A sample
// goes on with how many bytes there are and the bytes; its answers are 1 and the byte at subpel, or 0
// where there is none. An absence has a block's inputs; its answer is how many of the block's samples
// lie outside the bytes. Offsets and samples are asked of a view.
#![tactic(auto)]

ghost use Rattle.std.specs.Prelude.{◌≡◌, true, ◌⊎◌, ◌≤◌, ◌*◌, length, IfSome};
ghost use Rattle.cases.specs.Places.{IsSized};
ghost use Rattle.cases.specs.Samples.{limited_to};
ghost use Rattle.plane.specs.Places.{Placed, Coordinate, Near, Located};
ghost use Rattle.replay_plane.specs.Sizes.{block_inputs, block_answers, sample_inputs};

use cases::Case;
use distance::Rows;
use plane::{Place, Read};
use plane_view::PlaneView;
use whole::wrap32;

// Whether the plane is one that an offset can be asked of.
fn served(place: Place) -> bool
    ensures { result ≡ true → Placed place }
{
    (place.base <= 2147483647)
        & (0..=16384).contains(&place.width)
        & (0..=16384).contains(&place.height)
        & place.within_limits()
}

// x and y are numbers of 32 bits.
fn coordinate(number: i64) -> i64
    ensures { Coordinate result }
{
    i64::from(wrap32(number))
}

// What a case asks of a plane: where it stands, and x and y.
#[derive(Clone, Copy)]
struct Asked {
    place: Place,
    x: i64,
    y: i64,
    ghost located: { Located place x y },
}

impl Asked {
    // Of a plane that can't be asked, and of a base below zero, nothing is.
    fn of(numbers: &[i64; 7]) -> Option<Asked> {
        let [base, pitch, width, height, pel, x, y] = numbers;
        let place = Place {
            base: usize::try_from(wrap32(*base)).ok()?,
            pitch: wrap32(*pitch),
            width: wrap32(*width),
            height: wrap32(*height),
            pel: wrap32(*pel),
        };
        if !served(place) {
            return None;
        }
        Some(Asked {
            place,
            x: coordinate(*x),
            y: coordinate(*y),
        })
    }

    #[tactic(auto, using(plane::specs::Offsets::subpel_near))]
    fn subpel(self, bytes: &[u8]) -> i64
        ensures { Near result }
    {
        PlaneView::new(bytes, self.place).subpel(self.x, self.y)
    }
}

// Whether there are as many samples as are told, of which a plane has at most 512.
fn told(count: i64, samples: &[i64]) -> bool
    ensures { result ≡ true → (limited_to 512 count ≡ length samples.now) × (length samples.now ≤ 512) }
{
    cases::up_to(count, 512) == Some(samples.len())
}

pub fn offset_agrees(case: &Case) -> bool
    ensures { result ≡ true → IsSized 7 2 case.now }
{
    let Some(numbers) = case.inputs.as_array::<7>() else {
        return false;
    };
    let Some(Asked { place, x, y }) = Asked::of(numbers) else {
        return false;
    };
    let view = PlaneView::new(&[], place);
    case.answered(&[view.pel1(x, y), view.subpel(x, y)])
}

// What a case asks of a block: a side that is out of range counts as 0.
#[derive(Clone, Copy)]
struct Block<'a> {
    asked: Asked,
    w: usize,
    h: usize,
    samples: &'a [i64],
    ghost sides: { (w ≤ 16) × (h ≤ 16) },
    ghost held: { length samples.now ≤ 512 },
}

impl<'a> Block<'a> {
    fn of(inputs: &'a [i64]) -> Option<Block<'a>>
        ensures inputs { IfSome result (λ _. length inputs.now ≡ block_inputs inputs.now) }
        ensures answers { IfSome result (λ block. block.w * block.h ≡ block_answers inputs.now) }
    {
        let (numbers, rest) = inputs.split_first_chunk::<7>()?;
        let [w, h, count, samples @ ..] = rest else {
            return None;
        };
        if !told(*count, samples) {
            return None;
        }
        Some(Block {
            asked: Asked::of(numbers)?,
            w: cases::limited(*w, 16),
            h: cases::limited(*h, 16),
            samples,
        })
    }

    // The block from subpel on, and what its first sample weighs.
    fn read(self) -> ([u8; 256], u8) {
        let bytes = &cases::bytes::<512>(self.samples)[..self.samples.len()];
        let Asked { place, x, y } = self.asked;
        let rows = Rows {
            bytes,
            pitch: place.pitch as usize,
        };
        let first = PlaneView::new(bytes, place).sample(x, y);
        let block = plane::gather(rows, self.asked.subpel(bytes), self.w, self.h);
        (block, plane::weight(first))
    }

    // How many of its samples lie outside the bytes.
    fn absent(self) -> u32 {
        let bytes = &cases::bytes::<512>(self.samples)[..self.samples.len()];
        let view = PlaneView::new(bytes, self.asked.place);
        absent_reads::absent(view, self.asked.subpel(bytes), self.w, self.h)
    }
}

// A block with no sample has no answer to compare, and differs.
pub fn block_agrees(case: &Case) -> bool
    ensures { result ≡ true → IsSized (block_inputs case.now.inputs.now) (block_answers case.now.inputs.now) case.now }
{
    let Some(block) = Block::of(case.inputs) else {
        return false;
    };
    let (samples, first) = block.read();
    case.answers.first() == Some(&i64::from(first)) && case.answered(&samples[..block.w * block.h])
}

// What is read where a case asks.
fn read(inputs: &[i64]) -> Option<Read>
    ensures { IfSome result (λ _. length inputs.now ≡ sample_inputs inputs.now) }
{
    let (numbers, rest) = inputs.split_first_chunk::<7>()?;
    let (count, samples) = rest.split_first()?;
    if !told(*count, samples) {
        return None;
    }
    let Asked { place, x, y } = Asked::of(numbers)?;
    let bytes = &cases::bytes::<512>(samples)[..samples.len()];
    Some(PlaneView::new(bytes, place).sample(x, y))
}

// A line has one answer, or two.
pub fn sample_agrees(case: &Case) -> bool
    ensures { result ≡ true → IsSized (sample_inputs case.now.inputs.now) 1 case.now ⊎ IsSized (sample_inputs case.now.inputs.now) 2 case.now }
{
    match read(case.inputs) {
        Some(Some(byte)) => case.answered(&[1, byte]),
        Some(None) => case.answered(&[0u8]),
        None => false,
    }
}

pub fn absent_agrees(case: &Case) -> bool
    ensures { result ≡ true → IsSized (block_inputs case.now.inputs.now) 1 case.now }
{
    let Some(block) = Block::of(case.inputs) else {
        return false;
    };
    case.answered(&[block.absent()])
}
