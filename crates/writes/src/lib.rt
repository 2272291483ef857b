// Writes of a register: the questions, and the effect of an accepted write on the box. It changes
// the shared record, the service record and the SWNo's own channel first, and then, where the
// register asks for it, the data channel and every channel in turn. The clearing and the preset of a
// wire call stand around it.
#![tactic(auto)]

ghost use Rattle.std.specs.Prelude.{◌≡◌, ◌≤◌};
ghost use Rattle.registers.specs.Places.{placed};
ghost use Rattle.writes.specs.Accepted.{write_of};
ghost use Rattle.writes.specs.Begun.{data_by, each_written, first_each, begun_with, BegunBy};

mod accepted; // a write that the questions let pass
mod common;
mod data;
mod digital;
mod reset;
mod service;

use accepted::AcceptedWrite;
use model::{Channel, DataChannel, Module, Outcome, Reply, Service, Shared};
use registers::Place;

// What a write answers, and what is left to do of it once the records and the SWNo's own channel are
// changed: `each` is to be asked for the first count channels, with the place and the word, and
// `data_after` where of_data; elsewhere the data channel stays. A refused write has count 0 and no
// data, as `BegunBy` and `whole_of` (specs/Begun) have it: `each` is asked for none.
#[derive(Clone, Copy)]
pub struct Rest {
    pub reply: Reply,
    pub count: usize,
    pub of_data: bool,
    pub place: Place,
    pub word: u16,
}

// The records and the SWNo's own channel as a write first changes them, and the rest of it.
#[derive(Clone, Copy)]
pub struct Begun {
    pub shared: Shared,
    pub service: Service,
    pub channel: Channel,
    pub rest: Rest,
}

// v is the service record after the clearing; ch is the SWNo's own channel, or channel 1 where the
// SWNo is of no digital channel.
pub fn begin(s: Shared, v: Service, ch: Channel, swno: u16, b: &[u8]) -> Begun
    ensures { BegunBy s v ch swno b.now result }
{
    let mut shared = s;
    let mut service = v;
    let mut channel = ch;
    let rest = begin_in_place(&mut shared, &mut service, &mut channel, swno, b);
    Begun {
        shared,
        service,
        channel,
        rest,
    }
}

// The same for a caller that lends its records and its channel: copies of them would deepen its
// stack. Parts, and no struct of them: they lie in C's module, and `BegunBy` speaks of each.
pub fn begin_in_place(
    s: &mut Shared,
    v: &mut Service,
    ch: &mut Channel,
    swno: u16,
    b: &[u8],
) -> Rest
    ensures { BegunBy s.old v.old ch.old swno b.now (begun_with s.new v.new ch.new result) }
{
    let p = registers::place_of(swno);
    let reply = questions::write_reply(s.write_enable, swno, p, b);
    match reply {
        Ok(_) => {
            let write = AcceptedWrite { place: p, bytes: b };
            *ch = write.channel_after(*s, *ch);
            *v = write.service_after(*v);
            *s = write.shared_after(*s);
            Rest {
                reply,
                count: write.count(),
                of_data: write.of_data(),
                place: p,
                word: write.word(),
            }
        }
        Err(_) => Rest {
            reply,
            count: 0,
            of_data: false,
            place: p,
            word: 0,
        },
    }
}

// The data channel after a write, done or refused; s is the shared record before it.
pub fn data_after(s: Shared, d: DataChannel, swno: u16, b: &[u8]) -> DataChannel
    ensures { result ≡ data_by s swno b.now d }
{
    let p = registers::place_of(swno);
    let reply = questions::write_reply(s.write_enable, swno, p, b);
    match reply {
        Ok(_) => AcceptedWrite { place: p, bytes: b }.data_after(s, d),
        Err(_) => d,
    }
}

// What a write does to channel k + 1 when it comes to every channel.
pub fn each(p: Place, word: u16, k: usize, ch: Channel) -> Channel
    ensures { result ≡ each_written (placed p) word k ch }
{
    match p {
        Place::Service(r) => service::write_every(r, ch),
        Place::Common(r) => common::write_bit(r, settings::bit_of(word, k), ch),
        _ => ch,
    }
}

// By value; pd3120_c's loop goes over C's module in its place: sixteen channels are 1792 bytes, and
// PD3120_CALL_STACK is 1024.
fn first_each(p: Place, word: u16, count: usize, channels: [Channel; 16]) -> [Channel; 16]
    requires { count ≤ 16 }
    ensures { result ≡ first_each (each_written (placed p) word) count channels }
{
    let mut next = channels;
    for (k, ch) in next[..count].iter_mut().enumerate() {
        *ch = each(p, word, k, *ch);
    }
    next
}

pub fn write(m: Module, swno: u16, b: &[u8]) -> Outcome<Module>
    ensures { result ≡ write_of m swno b.now }
{
    let at = registers::wire_slot(swno);
    let mut channels = m.channels;
    let begun = begin(m.shared, m.service, channels[at], swno, b);
    let rest = begun.rest;
    channels[at] = begun.channel;
    let after = Module {
        shared: begun.shared,
        service: begun.service,
        channels: first_each(rest.place, rest.word, rest.count, channels),
        data_channel: data_after(m.shared, m.data_channel, swno, b),
    };
    Outcome {
        after,
        reply: rest.reply,
    }
}
