// Bytes put into a lent buffer, from a place on. The place stands beside the buffer, since `pasted`
// speaks of the whole buffer, and `&mut buf[at..at + n]` at each call would say each size once more.
#![tactic(auto)]

ghost use Rattle.std.specs.Prelude.{◌≡◌, ◌++◌, ◌+◌, ◌≤◌, length};
ghost use Rattle.model.specs.Reads.{pairs_bytes};
ghost use Rattle.model.specs.Image.{table_size};
ghost use Rattle.buffers.specs.Pasted.{pasted};

use model::Pair;
use numbers::reals;

// A Real, a count or a setting.
const WORD: usize = 4;

// The X and the Y of a level table's pair.
const PAIR: usize = 2 * WORD;

// Copies src into buf from place `at` on.
pub fn put(src: &[u8], buf: &mut [u8], at: usize)
    requires { at + length src.now ≤ length buf.old }
    ensures { buf.new ≡ pasted buf.old at src.now }
{
    let end = at + src.len();
    buf[at..end].copy_from_slice(src);
}

pub fn put_array<const N: usize>(a: [u8; N], buf: &mut [u8], at: usize)
    requires { at + N ≤ length buf.old }
    ensures { (buf.new ≡ pasted buf.old at a.entry) × (length a.entry ≡ N) }
{
    put(&a, buf, at);
}

pub fn put_two(a: [u8; 4], b: [u8; 4], buf: &mut [u8], at: usize)
    requires { at + 8 ≤ length buf.old }
    ensures { (buf.new ≡ pasted buf.old at (a ++ b)) × (length (a ++ b) ≡ 8) }
{
    put_array(a, buf, at);
    put_array(b, buf, at + WORD);
}

// The pairs of a level table, X before Y.
pub fn put_pairs(pairs: &[Pair; 10], buf: &mut [u8], at: usize)
    requires { at + table_size ≤ length buf.old }
    ensures { (buf.new ≡ pasted buf.old at (pairs_bytes pairs.now)) × (length (pairs_bytes pairs.now) ≡ table_size) }
{
    for (k, p) in pairs.iter().enumerate() {
        let x = reals::bytes_of(p.x);
        let y = reals::bytes_of(p.y);
        put_two(x, y, buf, at + PAIR * k);
    }
}
