// What a level table answers, for a caller that holds the box in its own memory.
ghost use Rattle.pd3120.specs.Parts.{LookedUpBy};

use model::{DataChannel, Refusal};

// The bits of its Real, or why it is refused. d is the box's data channel. table and x stand apart,
// as the exported `pd3120_look_up` is given them.
pub fn look_up(d: DataChannel, table: u8, x: f32) -> Result<u32, Refusal>
    ensures { LookedUpBy d table x result }
{
    questions::look_up_reply(table, x)?;
    Ok(lookup::level_bits(table, x, d))
}
