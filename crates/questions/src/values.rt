// Question 7: which bytes each register allows. The length of the bytes is asked before.
ghost use Rattle.std.specs.Prelude.{◌≡◌, length};
ghost use Rattle.model.specs.Registers.{service_row, digital_row, data_row, size};
ghost use Rattle.model.specs.Writes.{all_zero, service_allowed, digital_allowed, data_allowed, allowed};
ghost use Rattle.registers.specs.Places.{placed};

use model::{DataRegister, DigitalRegister, ServiceRegister};
use numbers::{reals, written};
use registers::Place;

// By index: the edit first_byte_of_zeros_unread begins at the second byte. With `iter().all` it would
// be refused for the shape of its slice alone.
fn all_zero(bytes: &[u8]) -> bool
    ensures { result ≡ all_zero bytes.now }
{
    for i in 0..bytes.len() {
        if bytes[i] != 0 {
            return false;
        }
    }
    true
}

fn service_allowed(r: ServiceRegister, bytes: &[u8]) -> bool
    requires { length bytes.now ≡ (service_row r).size }
    ensures { result ≡ service_allowed r bytes.now }
{
    match r {
        ServiceRegister::Highest => true,
        ServiceRegister::Reset => bytes[0] == 0xFF,
        ServiceRegister::FreeRunTimer => true,
        ServiceRegister::WDTimer => written::preset_allowed(fields::real_from(bytes)),
        ServiceRegister::ModuleConfig => fields::module_config_allowed(bytes),
        ServiceRegister::WDPreset => written::preset_allowed(fields::real_from(bytes)),
        ServiceRegister::WriteEnable => bytes[0] <= 1,
        ServiceRegister::CommonError => all_zero(bytes),
    }
}

fn digital_allowed(r: DigitalRegister, bytes: &[u8]) -> bool
    requires { length bytes.now ≡ (digital_row r).size }
    ensures { result ≡ digital_allowed r bytes.now }
{
    match r {
        DigitalRegister::FlagReg => true,
        DigitalRegister::OutTimer => written::timer_allowed(fields::real_from(bytes)),
        DigitalRegister::Counter => true,
        DigitalRegister::OutCurrent => reals::is_finite(fields::real_from(bytes)),
        DigitalRegister::OperatingTime => written::operating_allowed(fields::real_from(bytes)),
        DigitalRegister::UserBytes => true,
        DigitalRegister::FBTimer => written::timer_allowed(fields::real_from(bytes)),
        DigitalRegister::FBPreset => written::preset_allowed(fields::real_from(bytes)),
        DigitalRegister::OutPreset => written::preset_allowed(fields::real_from(bytes)),
        DigitalRegister::ChConfig => fields::config_allowed(bytes),
        DigitalRegister::MinCurrent => written::limit_allowed(fields::real_from(bytes)),
        DigitalRegister::MaxCurrent => written::limit_allowed(fields::real_from(bytes)),
        DigitalRegister::UserReals => true,
        DigitalRegister::Maintenance => true,
        DigitalRegister::ChError => true,
    }
}

fn data_allowed(r: DataRegister, bytes: &[u8]) -> bool
    requires { length bytes.now ≡ (data_row r).size }
    ensures { result ≡ data_allowed r bytes.now }
{
    match r {
        DataRegister::RealA => fields::real_allowed(bytes),
        DataRegister::RealB => fields::real_allowed(bytes),
        DataRegister::TimerA => written::timer_allowed(fields::real_from(bytes)),
        DataRegister::TimerB => written::timer_allowed(fields::real_from(bytes)),
        DataRegister::LookUp1 => fields::table_allowed(bytes),
        DataRegister::LookUp2 => fields::table_allowed(bytes),
    }
}

pub(crate) fn allowed(p: Place, bytes: &[u8]) -> bool
    requires { length bytes.now ≡ size (placed p) }
    ensures { result ≡ allowed (placed p) bytes.now }
{
    match p {
        Place::Service(r) => service_allowed(r, bytes),
        Place::Digital(_, r) => digital_allowed(r, bytes),
        Place::Common(_) => true,
        Place::Data(r) => data_allowed(r, bytes),
        Place::Unlisted => true,
    }
}
