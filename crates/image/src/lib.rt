// The setup image: power-up from one, and storing one.
#![tactic(auto)]

ghost use Rattle.std.specs.Prelude.{◌≡◌};
ghost use Rattle.model.specs.Questions.{power_up_reply, store_reply};
ghost use Rattle.model.specs.Calls.{power_up, stored};

use checks::Image;
use model::{Module, Outcome, Refusal, Reply};
use questions::ask;

mod checks; // the questions of power-up
mod decode; // what an image's bytes hold
mod encode; // an image's bytes, written into a buffer
mod sizes; // how long its sections are, and where they stand

#[tactic(auto, unfolding(model::specs::Questions::power_up_reply))]
pub fn power_up_reply(img: &[u8]) -> Reply
    ensures { result ≡ power_up_reply img.now }
{
    ask(checks::size_right(img), Refusal::ImageLength)?;
    let image = Image { bytes: img };
    ask(image.counts_right(), Refusal::ImageCounts)?;
    ask(image.sum_right(), Refusal::ImageSum)?;
    ask(image.values_allowed(), Refusal::ImageValues)?;
    Ok(0)
}

// Powers m up from an image. A refused one gives the box of all-zero settings.
pub fn power_up_in_place(m: &mut Module, img: &[u8]) -> Reply
    ensures after { m.new ≡ power_up img.now }
    ensures reply { result ≡ power_up_reply img.now }
{
    let reply = power_up_reply(img);
    if reply.is_ok() {
        Image { bytes: img }.put_box(m);
        return reply;
    }
    let zeros = [0; sizes::IMAGE];
    Image { bytes: &zeros }.put_box(m);
    reply
}

// The same for a box that is not there yet.
pub fn power_up(img: &[u8]) -> Outcome<Module>
    ensures after { result.after ≡ power_up img.now }
    ensures reply { result.reply ≡ power_up_reply img.now }
{
    let mut after = decode::blank();
    let reply = power_up_in_place(&mut after, img);
    Outcome { after, reply }
}

// Writes the image of the kept values over the first bytes of buf.
pub fn store(m: Module, buf: &mut [u8]) -> Reply
    ensures reply { result ≡ store_reply buf.old }
    ensures buffer { buf.new ≡ stored m buf.old }
{
    let Some(image) = buf.first_chunk_mut::<{ sizes::IMAGE }>() else {
        return Err(Refusal::NoRoom);
    };
    encode::put_body(m, image);
    encode::put_sum(image);
    Ok(sizes::IMAGE)
}
