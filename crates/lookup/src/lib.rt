// The level tables: what a table answers for a Real. Every operation is one of f32, rounded once.
#![tactic(auto)]

ghost use Rattle.std.specs.Prelude.{◌≡◌, map, drop};
ghost use Rattle.model.specs.Lookup.{acting, acting_pair, acts, pair_at, between, on_line, from_first, looked_up, table_of, level_bits};

use model::{DataChannel, LevelTable, Pair};
use numbers::reals;

// A Real of a table that is not finite acts as 0.
fn acting(x: f32) -> f32
    ensures { result ≡ acting x }
{
    if reals::is_finite(x) { x } else { 0.0 }
}

fn acting_pair(p: Pair) -> Pair
    ensures { result ≡ acting_pair p }
{
    Pair {
        x: acting(p.x),
        y: acting(p.y),
    }
}

// On the line from p to q: the part is multiplied before it is divided.
fn between(p: Pair, q: Pair, x: f32) -> f32
    ensures { result ≡ between p q x }
{
    p.y + (q.y - p.y) * (x - p.x) / (q.x - p.x)
}

fn on_line(p: Pair, q: Pair, x: f32) -> f32
    ensures { result ≡ on_line p q x }
{
    if x == q.x { q.y } else { between(p, q, x) }
}

// The first pair that x is not above decides. Where x is above all there is none, and 0 stands
// there, as `from_first` of the model (specs/Lookup) has it; no call comes to that.
fn from_first(pairs: [Pair; 10], x: f32) -> f32
    ensures { result ≡ from_first (pair_at (map acting_pair pairs) 1) (drop 1 (map acting_pair pairs)) x }
{
    let mut before = acting_pair(pairs[0]);
    for p in &pairs[1..] {
        let next = acting_pair(*p);
        if next.x < x {
            before = next;
        } else {
            return on_line(before, next, x);
        }
    }
    0.0
}

// A table that does not rise is answered too, by the same questions in the same order.
fn looked_up(t: LevelTable, x: f32) -> f32
    ensures { result ≡ looked_up (acts t) x }
{
    let first = acting_pair(t.pairs[0]);
    if x <= first.x {
        return first.y;
    }
    let last = acting_pair(t.pairs[9]);
    if last.x < x {
        return last.y;
    }
    from_first(t.pairs, x)
}

// A number, 1 or 2: the exported `pd3120_look_up` is given one, and question 15 asks it.
fn table_of(k: u8, d: DataChannel) -> LevelTable
    ensures { result ≡ table_of k d }
{
    if k == 1 { d.table1 } else { d.table2 }
}

// The level's bits. A NaN of the machine may have any of its patterns, and the answer has one.
pub fn level_bits(k: u8, x: f32, d: DataChannel) -> u32
    ensures { result ≡ level_bits k x d }
{
    reals::bits_of(looked_up(table_of(k, d), x))
}
