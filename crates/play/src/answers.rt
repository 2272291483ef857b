// The line that a call is answered with.
use charge::Tariff;
use integers::{bytes, signed};
use model::{Module, Reply};
use pd3120::{Answered, replies};
use script::calls::Line;
use script::charges::{Blocks, Charge};
use script::parameters::Wrong;
use script::print::Text;
use std::fmt::Write;

// NAME NUMBER. This, put_plain and put_start are three ends of one line; each calls the one before.
fn put_head(text: &mut Text, name: &[u8], reply: Reply) {
    text.put(name);
    text.put_number(u64::from(replies::number(reply)));
}

// NAME NUMBER, and no more.
fn put_plain(text: &mut Text, name: &[u8], reply: Reply) {
    put_head(text, name, reply);
    text.put(b"\n");
}

// NAME NUMBER LENGTH. By `as`: no From makes a u64 of a usize.
fn put_start(text: &mut Text, name: &[u8], reply: Reply) {
    put_head(text, name, reply);
    text.put_number(replies::length(reply) as u64);
}

// BUFFER, which ends the line.
fn put_buffer(text: &mut Text, buffer: &[u8]) {
    text.put_bytes(buffer);
    text.put(b"\n");
}

// store NUMBER LENGTH BUFFER
fn put_store(text: &mut Text, reply: Reply, buffer: &[u8]) {
    put_start(text, b"store", reply);
    put_buffer(text, buffer);
}

// DATAERROR GENERALERROR
fn put_bits(text: &mut Text, answered: &Answered) {
    text.put_bit(answered.bits.data_error);
    text.put_bit(answered.bits.general_error);
}

// read NUMBER LENGTH DATAERROR GENERALERROR BUFFER
fn put_read(text: &mut Text, answered: &Answered, buffer: &[u8]) {
    put_start(text, b"read", answered.reply);
    put_bits(text, answered);
    put_buffer(text, buffer);
}

// write NUMBER 0 DATAERROR GENERALERROR
fn put_write(text: &mut Text, answered: &Answered) {
    put_start(text, b"write", answered.reply);
    put_bits(text, answered);
    text.put(b"\n");
}

// lookup NUMBER REAL
fn put_look_up(text: &mut Text, answered: &Answered) {
    put_head(text, b"lookup", answered.reply);
    put_buffer(text, &bytes::bytes_of_u32(answered.real_bits));
}

// Output of every channel, that of channel k in bit k - 1.
fn outputs_of(m: Module) -> u16 {
    (1..17)
        .rev()
        .fold(0, |word, k| word << 1 | u16::from(pd3120::output(m, k)))
}

// outputs WORD
fn put_outputs(text: &mut Text, m: Module) {
    text.put(b"outputs");
    put_buffer(text, &bytes::bytes_of_u16(outputs_of(m)));
}

// charge NUMBER CENTS. The charge itself is made here, since it asks nothing of the box.
fn put_charge(text: &mut Text, c: Charge) {
    let Blocks {
        count,
        limits,
        prices,
    } = c.blocks;
    let tariff = Tariff {
        blocks: count,
        limits,
        prices,
    };
    let charged = charge::charge(
        signed::i32_of_bits(c.earlier),
        signed::i32_of_bits(c.later),
        c.litres,
        tariff,
    );
    let (number, cents) = match charged {
        Ok(cents) => (0, cents),
        Err(why) => (why.number(), 0),
    };
    text.put(b"charge");
    text.put_number(u64::from(number));
    text.put_number(cents);
    text.put(b"\n");
}

// error LINE: WHY
pub(crate) fn put_error(text: &mut Text, line: u64, why: Wrong) {
    text.put(b"error");
    text.put_number(line);
    let _ = writeln!(text, ": {why}");
}

// The answer to a line, of the box after it.
pub(crate) fn put_answer(text: &mut Text, line: Line, answered: &Answered, bytes: &[u8]) {
    let reply = answered.reply;
    match line {
        Line::Empty => {}
        Line::Power => put_plain(text, b"power", reply),
        Line::Store => put_store(text, reply, bytes),
        Line::Read(_) => put_read(text, answered, bytes),
        Line::Write(_) => put_write(text, answered),
        Line::Sample(_, _, _) => put_plain(text, b"sample", reply),
        Line::LookUp(_, _) => put_look_up(text, answered),
        Line::Tick(_) => put_plain(text, b"tick", reply),
        Line::Charge(charge) => put_charge(text, charge),
        Line::Minute(_) => put_plain(text, b"minute", reply),
        Line::Windows(_, _) => put_plain(text, b"windows", reply),
        Line::Outputs => put_outputs(text, answered.after),
    }
}
