// What an accepted write of a service register does, in four parts: to what every channel may
// learn, to the service channel's errors, to every channel, and to the data channel.
ghost use Rattle.std.specs.Prelude.{◌≡◌, true, length};
ghost use Rattle.model.specs.Registers.{service_row};
ghost use Rattle.model.specs.Writes.{service_allowed, shared_written, errors_written, every_written};
ghost use Rattle.model.specs.Writes.{data_reset};
ghost use Rattle.writes.specs.Begun.{service_count};

use crate::reset;
use model::{Channel, DataChannel, Service, ServiceRegister, Shared};
use numbers::times;

#[tactic(auto, unfolding(model::specs::Writes::shared_written))]
pub(crate) fn write_shared(r: ServiceRegister, b: &[u8], s: Shared) -> Shared
    requires { (length b.now ≡ (service_row r).size) × (service_allowed r b.now ≡ true) }
    ensures { result ≡ shared_written r b.now s }
{
    let mut next = s;
    match r {
        ServiceRegister::Reset => next = reset::reset_shared(s),
        ServiceRegister::ModuleConfig => next.module_config = fields::config_from(b),
        ServiceRegister::WDPreset => next.wd_preset = times::timer_count(fields::real_from(b)),
        ServiceRegister::WriteEnable => next.write_enable = b[0] == 1,
        _ => {}
    }
    next
}

#[tactic(auto, unfolding(model::specs::Writes::errors_written))]
pub(crate) fn write_errors(r: ServiceRegister, v: Service) -> Service
    ensures { result ≡ errors_written r v }
{
    match r {
        ServiceRegister::Reset => reset::reset_errors(v),
        ServiceRegister::CommonError => errors::acknowledge_service(v),
        _ => v,
    }
}

#[tactic(auto, unfolding(model::specs::Writes::every_written))]
pub(crate) fn write_every(r: ServiceRegister, ch: Channel) -> Channel
    ensures { result ≡ every_written r ch }
{
    match r {
        ServiceRegister::Reset => reset::reset_channel(ch),
        ServiceRegister::CommonError => channel::acknowledge(ch),
        _ => ch,
    }
}

#[tactic(auto, unfolding(model::specs::Writes::data_reset))]
pub(crate) fn write_data(r: ServiceRegister, d: DataChannel) -> DataChannel
    ensures { result ≡ data_reset r d }
{
    match r {
        ServiceRegister::Reset => reset::reset_data(d),
        _ => d,
    }
}

// How many channels, from the first, write_every is to be asked for: 16 or 0, since `service_count`
// (specs/Begun) is a count.
pub(crate) fn count_of(r: ServiceRegister) -> usize
    ensures { result ≡ service_count r }
{
    match r {
        ServiceRegister::Reset => 16,
        ServiceRegister::CommonError => 16,
        _ => 0,
    }
}
