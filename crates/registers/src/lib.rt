// The register table: what a SWNo names, and each register's access and size. Nothing above this
// crate sees a register's number.
#![tactic(auto)]

ghost use Rattle.std.specs.Prelude.{◌≡◌, ◌/◌, ◌<◌};
ghost use Rattle.model.specs.Registers as Table;
ghost use Rattle.model.specs.Questions.{is_writable, is_protected};
ghost use Rattle.registers.specs.Places.{placed, slot_of};

use model::{Access, CommonRegister, DataRegister, DigitalRegister, ServiceRegister};

// A register of the service channel, of a digital channel by its number, of the common or of the
// data channel; or none that is listed. No Option of a place: `placed` (specs/Places) has the
// model's five cases, and question 2, access and size speak of `unlisted`.
#[derive(Clone, Copy)]
pub enum Place {
    Service(ServiceRegister),
    Digital(u8, DigitalRegister),
    Common(CommonRegister),
    Data(DataRegister),
    Unlisted,
}

// The match is the table, here and in the three functions below.
fn service_place(n: u16) -> Place
    ensures { placed result ≡ Table.find Table.service Table.service_row n Table.service_registers }
{
    match n {
        0x0 => Place::Service(ServiceRegister::Highest),
        0x3 => Place::Service(ServiceRegister::Reset),
        0x7 => Place::Service(ServiceRegister::FreeRunTimer),
        0x8 => Place::Service(ServiceRegister::WDTimer),
        0x9 => Place::Service(ServiceRegister::ModuleConfig),
        0xA => Place::Service(ServiceRegister::WDPreset),
        0xD => Place::Service(ServiceRegister::WriteEnable),
        0xF => Place::Service(ServiceRegister::CommonError),
        _ => Place::Unlisted,
    }
}

fn digital_place(k: u8, n: u16) -> Place
    ensures { placed result ≡ Table.find (Table.digital k) Table.digital_row n Table.digital_registers }
{
    match n {
        0x0 => Place::Digital(k, DigitalRegister::FlagReg),
        0x1 => Place::Digital(k, DigitalRegister::OutTimer),
        0x2 => Place::Digital(k, DigitalRegister::Counter),
        0x3 => Place::Digital(k, DigitalRegister::OutCurrent),
        0x4 => Place::Digital(k, DigitalRegister::OperatingTime),
        0x5 => Place::Digital(k, DigitalRegister::UserBytes),
        0x6 => Place::Digital(k, DigitalRegister::FBTimer),
        0x7 => Place::Digital(k, DigitalRegister::FBPreset),
        0x8 => Place::Digital(k, DigitalRegister::OutPreset),
        0x9 => Place::Digital(k, DigitalRegister::ChConfig),
        0xA => Place::Digital(k, DigitalRegister::MinCurrent),
        0xB => Place::Digital(k, DigitalRegister::MaxCurrent),
        0xC => Place::Digital(k, DigitalRegister::UserReals),
        0xD => Place::Digital(k, DigitalRegister::Maintenance),
        0xF => Place::Digital(k, DigitalRegister::ChError),
        _ => Place::Unlisted,
    }
}

fn common_place(n: u16) -> Place
    ensures { placed result ≡ Table.find Table.common Table.common_row n Table.common_registers }
{
    match n {
        0x0 => Place::Common(CommonRegister::OutFlags),
        0x1 => Place::Common(CommonRegister::InFlags),
        0x2 => Place::Common(CommonRegister::IOChError),
        0xF => Place::Common(CommonRegister::ChError),
        _ => Place::Unlisted,
    }
}

fn data_place(n: u16) -> Place
    ensures { placed result ≡ Table.find Table.data_channel Table.data_row n Table.data_registers }
{
    match n {
        0x0 => Place::Data(DataRegister::RealA),
        0x1 => Place::Data(DataRegister::RealB),
        0xA => Place::Data(DataRegister::TimerA),
        0xB => Place::Data(DataRegister::TimerB),
        0xC => Place::Data(DataRegister::LookUp1),
        0xD => Place::Data(DataRegister::LookUp2),
        _ => Place::Unlisted,
    }
}

// SWNo = channel times $10 + register.
pub fn place_of(swno: u16) -> Place
    ensures { placed result ≡ Table.place swno }
{
    let channel = swno / 0x10;
    let register = swno % 0x10;
    match channel {
        0 => service_place(register),
        1..=16 => digital_place(channel as u8, register),
        17 => common_place(register),
        19 => data_place(register),
        _ => Place::Unlisted,
    }
}

// A channel's place among the sixteen, counted from 0. For a number that is no channel's it is that
// of channel 1 (`slot_of`, specs/Places). A plain number, and no type that holds `result < 16`: the
// callers take it as an index.
pub fn slot(channel: usize) -> usize
    ensures { (result ≡ slot_of channel) × (result < 16) }
{
    if (1..=16).contains(&channel) {
        channel - 1
    } else {
        0
    }
}

// That of a SWNo's channel.
pub fn wire_slot(swno: u16) -> usize
    ensures { (result ≡ slot_of (swno / 16)) × (result < 16) }
{
    slot(usize::from(swno / 0x10))
}

// A register's access and size.
#[derive(Clone, Copy)]
struct Row {
    access: Access,
    size: usize,
}

impl Row {
    fn new(access: Access, size: usize) -> Row
        ensures { result ≡ record { access = access; size = size } }
    {
        Row { access, size }
    }
}

fn service_row(r: ServiceRegister) -> Row
    ensures access { result.access ≡ (Table.service_row r).access }
    ensures size { result.size ≡ (Table.service_row r).size }
{
    match r {
        ServiceRegister::Highest => Row::new(Access::ReadOnly, 2),
        ServiceRegister::Reset => Row::new(Access::Writable, 1),
        ServiceRegister::FreeRunTimer => Row::new(Access::ReadOnly, 4),
        ServiceRegister::WDTimer => Row::new(Access::Writable, 4),
        ServiceRegister::ModuleConfig => Row::new(Access::Protected, 4),
        ServiceRegister::WDPreset => Row::new(Access::Protected, 4),
        ServiceRegister::WriteEnable => Row::new(Access::Writable, 1),
        ServiceRegister::CommonError => Row::new(Access::Writable, 12),
    }
}

fn digital_row(r: DigitalRegister) -> Row
    ensures access { result.access ≡ (Table.digital_row r).access }
    ensures size { result.size ≡ (Table.digital_row r).size }
{
    match r {
        DigitalRegister::FlagReg => Row::new(Access::Writable, 1),
        DigitalRegister::OutTimer => Row::new(Access::Writable, 4),
        DigitalRegister::Counter => Row::new(Access::Writable, 4),
        DigitalRegister::OutCurrent => Row::new(Access::Writable, 4),
        DigitalRegister::OperatingTime => Row::new(Access::Writable, 4),
        DigitalRegister::UserBytes => Row::new(Access::Writable, 4),
        DigitalRegister::FBTimer => Row::new(Access::Writable, 4),
        DigitalRegister::FBPreset => Row::new(Access::Protected, 4),
        DigitalRegister::OutPreset => Row::new(Access::Protected, 4),
        DigitalRegister::ChConfig => Row::new(Access::Protected, 4),
        DigitalRegister::MinCurrent => Row::new(Access::Protected, 4),
        DigitalRegister::MaxCurrent => Row::new(Access::Protected, 4),
        DigitalRegister::UserReals => Row::new(Access::Protected, 8),
        DigitalRegister::Maintenance => Row::new(Access::Protected, 4),
        DigitalRegister::ChError => Row::new(Access::ReadOnly, 4),
    }
}

fn common_row(r: CommonRegister) -> Row
    ensures access { result.access ≡ (Table.common_row r).access }
    ensures size { result.size ≡ (Table.common_row r).size }
{
    match r {
        CommonRegister::OutFlags => Row::new(Access::Writable, 2),
        CommonRegister::InFlags => Row::new(Access::Writable, 2),
        CommonRegister::IOChError => Row::new(Access::ReadOnly, 4),
        CommonRegister::ChError => Row::new(Access::ReadOnly, 4),
    }
}

fn data_row(r: DataRegister) -> Row
    ensures access { result.access ≡ (Table.data_row r).access }
    ensures size { result.size ≡ (Table.data_row r).size }
{
    match r {
        DataRegister::RealA => Row::new(Access::Writable, 4),
        DataRegister::RealB => Row::new(Access::Writable, 4),
        DataRegister::TimerA => Row::new(Access::Writable, 4),
        DataRegister::TimerB => Row::new(Access::Writable, 4),
        DataRegister::LookUp1 => Row::new(Access::Protected, 80),
        DataRegister::LookUp2 => Row::new(Access::Protected, 80),
    }
}

fn row_of(p: Place) -> Row
    ensures access { result.access ≡ Table.access (placed p) }
    ensures size { result.size ≡ Table.size (placed p) }
{
    match p {
        Place::Service(r) => service_row(r),
        Place::Digital(_, r) => digital_row(r),
        Place::Common(r) => common_row(r),
        Place::Data(r) => data_row(r),
        Place::Unlisted => Row::new(Access::ReadOnly, 0),
    }
}

pub fn access(p: Place) -> Access
    ensures { result ≡ Table.access (placed p) }
{
    row_of(p).access
}

pub fn size(p: Place) -> usize
    ensures { result ≡ Table.size (placed p) }
{
    row_of(p).size
}

pub fn is_writable(a: Access) -> bool
    ensures { result ≡ is_writable a }
{
    matches!(a, Access::Writable | Access::Protected)
}

pub fn is_protected(a: Access) -> bool
    ensures { result ≡ is_protected a }
{
    matches!(a, Access::Protected)
}
