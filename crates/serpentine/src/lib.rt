// The serpentine order of a grid's blocks: the position of a block, the block at a position, and
// the whole order. Each entry takes any numbers, and refuses by 01's table.
#![tactic(auto)]

ghost use Rattle.std.specs.Prelude.{◌≡◌, ◌+◌, ◌*◌, ◌<◌, ◌≤◌, pos, length, IfOk, IfErr, Err};
ghost use Rattle.refusals.specs.Numbers.{outcome};
ghost use Rattle.limits.specs.Refusals.{sides_refusal};
ghost use Rattle.serpentine.specs.Walk.{Sides, at, block_at, position_at, filled};
ghost use Rattle.serpentine.specs.Answers.{is_outside, order_refusal, position_answer, block_answer, order_after};

use refusals::Refusal;

// A block of the grid, by its column and its row.
#[derive(Clone, Copy)]
pub struct Place {
    pub x: u32,
    pub y: u32,
}

// A grid whose sides are accepted.
#[derive(Clone, Copy)]
struct Grid {
    nx: u32,
    ny: u32,
    ghost sides: { Sides nx ny },
}

impl Grid {
    fn new(nx: i32, ny: i32) -> Result<Grid, Refusal>
        ensures same { IfOk result (λ grid. (pos grid.nx ≡ nx) × (pos grid.ny ≡ ny)) }
        ensures refused { IfErr result (λ refusal. Err refusal ≡ outcome (sides_refusal nx ny)) }
    {
        limits::check_sides(nx, ny)?;
        Ok(Grid {
            nx: nx as u32,
            ny: ny as u32,
        })
    }

    #[tactic(auto, using(crate::specs::Walked::position_by_rule), unfolding(crate::specs::Rule::rule_position))]
    fn position_of(self, bx: u32, by: u32) -> u32
        requires { (bx < self.nx) × (by < self.ny) }
        ensures { result ≡ position_at self.nx self.ny (at bx by) }
    {
        let Grid { nx, ny } = self;
        let interior = (ny - 2) * (nx - 2);
        if by == 0 {
            return interior + 2 * bx;
        }
        if by == ny - 1 {
            return interior + 2 * bx + 1;
        }
        if bx == 0 {
            return interior + 2 * nx + 2 * (by - 1);
        }
        if bx == nx - 1 {
            return interior + 2 * nx + 2 * (by - 1) + 1;
        }
        let row = (by - 1) * (nx - 2);
        if by % 2 == 0 {
            return row + (bx - 1);
        }
        row + (nx - 2 - bx)
    }

    #[tactic(auto, using(crate::specs::Walked::block_by_rule), unfolding(crate::specs::Rule::rule_block))]
    fn block_at(self, position: u32) -> Place
        requires { position < self.nx * self.ny }
        ensures { result ≡ block_at self.nx self.ny position }
    {
        let Grid { nx, ny } = self;
        let interior = (ny - 2) * (nx - 2);
        if position < interior {
            let y = 1 + position / (nx - 2);
            let i = position % (nx - 2);
            let x = if y % 2 == 0 { 1 + i } else { nx - 2 - i };
            return Place { x, y };
        }
        if position < interior + 2 * nx {
            let t = position - interior;
            let y = if t % 2 == 0 { 0 } else { ny - 1 };
            return Place { x: t / 2, y };
        }
        let u = position - interior - 2 * nx;
        let x = if u % 2 == 0 { 0 } else { nx - 1 };
        Place { x, y: 1 + u / 2 }
    }

    // x and y of each block in turn. What lies behind them in the buffer stays.
    #[tactic(auto, using(crate::specs::Walked::block_inside, crate::specs::Filling::none_yet, crate::specs::Filling::one_more, crate::specs::Filling::done_at))]
    fn fill(self, order: &mut [i32])
        requires { 2 * (self.nx * self.ny) ≤ length order.old }
        ensures { order.new ≡ filled self.nx self.ny order.old }
    {
        // Stays by number: a block is asked for by its place in the order. After a loop over pairs that are lent no proof knows what they hold.
        for position in 0..self.nx * self.ny {
            let block = self.block_at(position);
            let i = 2 * position as usize;
            order[i] = block.x as i32;
            order[i + 1] = block.y as i32;
        }
    }
}

fn is_outside(count: i32, place: i32) -> bool
    ensures { result ≡ is_outside count place }
{
    !(0..count).contains(&place)
}

#[tactic(auto, using(crate::specs::Walked::position_below, crate::specs::Sizes::blocks_most), unfolding(crate::specs::Answers::position_answer, crate::specs::Answers::position_refusal))]
pub fn serpentine_position(nx: i32, ny: i32, bx: i32, by: i32) -> Result<i32, Refusal>
    ensures { result ≡ position_answer nx ny bx by }
{
    let grid = Grid::new(nx, ny)?;
    if is_outside(nx, bx) || is_outside(ny, by) {
        return Err(Refusal::OutsideGrid);
    }
    Ok(grid.position_of(bx as u32, by as u32) as i32)
}

// A block's column and row.
#[tactic(auto, using(crate::specs::Walked::block_inside), unfolding(crate::specs::Answers::block_answer, crate::specs::Answers::block_refusal))]
pub fn serpentine_block(nx: i32, ny: i32, position: i32) -> Result<(i32, i32), Refusal>
    ensures { result ≡ block_answer nx ny position }
{
    let grid = Grid::new(nx, ny)?;
    if is_outside(nx * ny, position) {
        return Err(Refusal::OutsideGrid);
    }
    let block = grid.block_at(position as u32);
    Ok((block.x as i32, block.y as i32))
}

#[tactic(auto, unfolding(crate::specs::Answers::order_refusal, crate::specs::Answers::order_after))]
pub fn serpentine_order(nx: i32, ny: i32, order: &mut [i32]) -> Result<(), Refusal>
    ensures answer { result ≡ outcome (order_refusal nx ny (length order.old)) }
    ensures buffer { order.new ≡ order_after nx ny order.old }
{
    let grid = Grid::new(nx, ny)?;
    if order.len() < 2 * limits::blocks_of(nx, ny) {
        return Err(Refusal::OutputLength);
    }
    grid.fill(order);
    Ok(())
}
