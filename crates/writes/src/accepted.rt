// A write that questions 3, 4 and 7 let pass, and what it does to each part of the box.
ghost use Rattle.std.specs.Prelude.{◌≡◌};
ghost use Rattle.registers.specs.Places.{placed};
ghost use Rattle.writes.specs.Accepted.{Accepted};
ghost use Rattle.writes.specs.Begun.{shared_after, service_after, channel_after, data_after, count_of, of_data_of, written_word};

use crate::{data, digital, service};
use model::{Channel, DataChannel, Service, Shared};
use registers::Place;

#[derive(Clone, Copy)]
pub(crate) struct AcceptedWrite<'a> {
    pub(crate) place: Place,
    pub(crate) bytes: &'a [u8],
    ghost accepted: { Accepted (placed place) bytes.now },
}

impl AcceptedWrite<'_> {
    pub(crate) fn shared_after(&self, s: Shared) -> Shared
        ensures { result ≡ shared_after (placed self.now.place) self.now.bytes.now s }
    {
        match self.place {
            Place::Service(r) => service::write_shared(r, self.bytes, s),
            _ => s,
        }
    }

    pub(crate) fn service_after(&self, v: Service) -> Service
        ensures { result ≡ service_after (placed self.now.place) v }
    {
        match self.place {
            Place::Service(r) => service::write_errors(r, v),
            _ => v,
        }
    }

    // s is the shared record before the write.
    pub(crate) fn channel_after(&self, s: Shared, ch: Channel) -> Channel
        ensures { result ≡ channel_after (placed self.now.place) s self.now.bytes.now ch }
    {
        match self.place {
            Place::Digital(_, r) => digital::write_digital(r, s, self.bytes, ch),
            _ => ch,
        }
    }

    pub(crate) fn data_after(&self, s: Shared, d: DataChannel) -> DataChannel
        ensures { result ≡ data_after (placed self.now.place) s self.now.bytes.now d }
    {
        match self.place {
            Place::Service(r) => service::write_data(r, d),
            Place::Data(r) => data::write_data(r, s, self.bytes, d),
            _ => d,
        }
    }

    // How many channels it comes to, from the first: 16 or 0, as `count_of` (specs/Begun) counts.
    pub(crate) fn count(&self) -> usize
        ensures { result ≡ count_of (placed self.now.place) }
    {
        match self.place {
            Place::Service(r) => service::count_of(r),
            Place::Common(_) => 16,
            _ => 0,
        }
    }

    // Whether it comes to the data channel.
    pub(crate) fn of_data(&self) -> bool
        ensures { result ≡ of_data_of (placed self.now.place) }
    {
        match self.place {
            Place::Service(r) => 0 < service::count_of(r),
            Place::Data(_) => true,
            _ => false,
        }
    }

    // The word of a common register, a bit for each channel.
    pub(crate) fn word(&self) -> u16
        ensures { result ≡ written_word (placed self.now.place) self.now.bytes.now }
    {
        match self.place {
            Place::Common(_) => fields::word_from(self.bytes),
            _ => 0,
        }
    }
}
