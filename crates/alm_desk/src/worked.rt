//! The worked table.

ghost use Rattle.std.specs.Prelude.{◌≡◌, IfOk, None, []};
ghost use Rattle.alm_types.specs.Attributes.{attr_fault};
ghost use Rattle.alm_desk.specs.Worked.{IsWorked, settings_of};

use alm_types::{Attr, Kind, Settings, Table};
use std::alloc::{AllocError, Global};

/// An alarm without a text.
fn alarm(settings: Settings, tag: &[u8]) -> Attr
    requires { attr_fault settings tag.now [] ≡ None }
    ensures settings { settings_of result ≡ settings }
    ensures tag { result.tag ≡ tag.now }
    ensures text { result.text ≡ [] }
{
    Attr::new(settings, tag, b"").unwrap()
}

/// A temperature.
const TI_101: Settings = Settings {
    kind: Kind::High,
    setpoint: 800,
    deadband: 10,
    priority: 1,
    area: 0,
    latching: false,
    max_shelve: 3600,
};

/// A pressure.
const PI_102: Settings = Settings {
    kind: Kind::Low,
    setpoint: 100,
    deadband: 5,
    priority: 2,
    area: 0,
    latching: false,
    max_shelve: 3600,
};

/// A switch.
const XS_201: Settings = Settings {
    kind: Kind::Discrete,
    setpoint: 1,
    deadband: 0,
    priority: 1,
    area: 1,
    latching: true,
    max_shelve: 0,
};

/// A level.
const LI_202: Settings = Settings {
    kind: Kind::High,
    setpoint: 50,
    deadband: 0,
    priority: 3,
    area: 1,
    latching: false,
    max_shelve: 0,
};

/// Four alarms in two areas: the table of a desk without a device. An error means that memory ran out.
pub fn worked_table(alloc: Global) -> Result<Table, AllocError>
    ensures { IfOk result IsWorked }
{
    let alarms = [
        alarm(TI_101, b"TI-101"),
        alarm(PI_102, b"PI-102"),
        alarm(XS_201, b"XS-201"),
        alarm(LI_202, b"LI-202"),
    ];
    Ok(Table::new(alarms.to_vec(alloc)?, 2).unwrap())
}
