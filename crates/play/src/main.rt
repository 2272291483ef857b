// Plays a script of calls: it reads calls from standard input, one a line, makes them on one box,
// and writes a line a call to standard output. README.md has the format.
#![tactic(auto)]

mod answers;
mod calls;
mod input;

use input::Player;
use model::Module;
use script::print::Text;
use std::io::Read;

// Before the first `power` the box is the one of a refused power-up.
fn unpowered() -> Module {
    pd3120::power_up(b"").after
}

// The bytes of each buffer. All three are arrays, since the player has no heap.
const BUFFER: usize = 65536;

// A proved loop has to end, and nothing says that the input does. So the turns are counted, up to a
// number that no run uses up.
fn play(input: &mut impl Read, rt: &(impl Print + Eprint)) {
    let mut text = [0; BUFFER];
    let mut space = [0; BUFFER];
    let mut out = [0; BUFFER];
    let mut text = Text {
        bytes: &mut text,
        len: 0,
    };
    let mut player = Player {
        after: unpowered(),
        line: 0,
        long: false,
        space: &mut space,
        out: Text {
            bytes: &mut out,
            len: 0,
        },
    };
    for _ in 0..u64::MAX {
        if !player.take_turn(input, rt, &mut text) {
            break;
        }
    }
}

fn main(rt: HostRuntime) {
    play(&mut rt.stdin(), &rt);
}
