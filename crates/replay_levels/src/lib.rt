// Sides and offsets of levels that the Rust was asked about, compared. A side's inputs are the size and the
// level. An offset's are the frame's width and height, both chroma shifts, pel, level, pitch and whether the
// source lies apart; its answers are the level's first byte in a luma plane and in a chroma plane.
#![tactic(auto)]

ghost use Rattle.std.specs.Prelude.{◌≡◌, true};
ghost use Rattle.cases.specs.Places.{IsSized};
ghost use Rattle.level_places.specs.Asked.{Rowed};

use cases::Case;
use level_places::{Pitches, SuperFrame};
use planes::Sides;
use whole::wrap32;

pub fn plane_size_agrees(case: &Case) -> bool
    ensures { result ≡ true → IsSized 2 1 case.now }
{
    let Some(words) = case.words::<2>() else {
        return false;
    };
    let [size, level] = words;
    case.answered(&[level_places::plane_size(size, level)])
}

fn frame_of(numbers: &[i64; 8]) -> SuperFrame {
    let [x, y, shift_x, shift_y, pel, level, pitch, separate] = numbers;
    let pitch = wrap32(*pitch);
    let pitches = Pitches {
        luma: pitch,
        u: pitch,
        v: pitch,
    };
    SuperFrame {
        frame: Sides {
            x: wrap32(*x),
            y: wrap32(*y),
        },
        shift: Sides {
            x: wrap32(*shift_x),
            y: wrap32(*shift_y),
        },
        pel: wrap32(*pel),
        level: wrap32(*level),
        pitch: pitches,
        separate: *separate == 1,
        source_pitch: pitches,
    }
}

// Whether the frame is one that an offset can be asked of.
fn served(frame: SuperFrame) -> bool
    ensures { result ≡ true → Rowed frame }
{
    limits::is_pel(frame.pel)
        & (0..=16384).contains(&frame.frame.y)
        & (0..=15).contains(&frame.level)
}

pub fn level_offset_agrees(case: &Case) -> bool
    ensures { result ≡ true → IsSized 8 2 case.now }
{
    let (Some(numbers), [luma, chroma]) = (case.inputs.as_array::<8>(), case.answers) else {
        return false;
    };
    let frame = frame_of(numbers);
    let pitch = frame.pitch.luma;
    if !served(frame) || !(0..=65536).contains(&pitch) {
        return false;
    }
    usize::try_from(*luma) == Ok(level_places::level_offset(frame, pitch, 0))
        && usize::try_from(*chroma) == Ok(level_places::level_offset(frame, pitch, frame.shift.y))
}
