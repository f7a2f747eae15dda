// Shows the steps of a tile that is given on standard input: sixteen numbers from -255 to 255. Anything else is refused by a
// message on standard error, and then standard output stays empty.
#![tactic(auto)]

ghost use Rattle.distance.specs.Parts.{SmallRows};

use distance::Tile;
use std::fmt;
use std::fmt::Write;
use tile_input::Unread;

// Standard error. What can't be written is left out.
#[derive(Drop)]
struct Errors;

impl fmt::Write for Errors {
    fn write_str(&mut self, text: &str) -> fmt::Result {
        io::write_all(2, text.as_bytes());
        Ok(())
    }
}

fn show(tile: Tile)
    requires { SmallRows 255 tile }
{
    io::write_all(1, tile_lines::steps_text(tile).as_bytes());
}

fn refuse(unread: Unread) {
    let _ = write!(Errors, "refused: {unread}\n");
}

fn answer(text: &[u8]) {
    match tile_input::read_tile(text) {
        Ok(tile) => show(tile),
        Err(unread) => refuse(unread),
    }
}

// One byte more than is taken is read, so that a longer text is seen to be too long.
fn main() {
    let mut bytes = [0; 4097];
    let n = io::read_full(0, &mut bytes);
    if n < 4097 {
        answer(&bytes[..n]);
    } else {
        io::write_all(2, b"refused: more than 4096 bytes\n");
    }
}
