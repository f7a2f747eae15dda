// A tile's steps as text: the differences, the tile after its column step and after its row step,
// row by row, and the sum.
#![tactic(auto)]

ghost use Rattle.std.specs.Prelude.{◌≡◌, ◌+◌, ◌≤◌, ◌++◌, length};
ghost use Rattle.distance.specs.Parts.{SmallRows};
ghost use Rattle.tile_lines.specs.Lines.{entry_text, row_text, tile_text, steps_text};

use distance::{Quad, Tile};
use report_text::Text;

// At the right end of seven columns. No i16 takes more than six, so that a blank stands before each.
fn put_entry(text: &mut Text<512>, number: i16)
    requires { length text.old + 7 ≤ 512 }
    ensures puts { text.new ≡ text.old ++ entry_text number }
    ensures value { length text.new ≡ length text.old + 7 }
{
    let mut digits = Text::<11>::new();
    digits.put_field(b"", i32::from(number));
    let digits = digits.as_bytes();
    let blanks = [b' '; 7];
    text.put(&blanks[..7 - digits.len()]);
    text.put(digits);
}

fn put_row(text: &mut Text<512>, row: Quad)
    requires { length text.old + 29 ≤ 512 }
    ensures puts { text.new ≡ text.old ++ row_text row }
    ensures value { length text.new ≡ length text.old + 29 }
{
    put_entry(text, row.a);
    put_entry(text, row.b);
    put_entry(text, row.c);
    put_entry(text, row.d);
    text.put(b"\n");
}

fn put_tile(text: &mut Text<512>, title: &[u8], tile: Tile)
    requires { length text.old + length title.now + 116 ≤ 512 }
    ensures puts { text.new ≡ text.old ++ tile_text title.now tile }
    ensures value { length text.new ≡ length text.old + length title.now + 116 }
{
    text.put(title);
    put_row(text, tile.a);
    put_row(text, tile.b);
    put_row(text, tile.c);
    put_row(text, tile.d);
}

// At most 412 bytes.
pub fn steps_text(tile: Tile) -> Text<512>
    requires { SmallRows 255 tile }
    ensures { result ≡ steps_text tile }
{
    let steps = tile.steps();
    let mut text = Text::new();
    put_tile(&mut text, b"differences\n", tile);
    put_tile(&mut text, b"after the column step\n", steps.columns);
    put_tile(&mut text, b"after the row step\n", steps.values);
    text.put_field(b"sum ", steps.total as i32);
    text.put(b"\n");
    text
}
