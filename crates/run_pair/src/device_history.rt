//! How the device of an outside was at moments of its life, for contracts alone.

ghost use Rattle.std.specs.Prelude.{◌≡◌, List, [], ◌∷◌};
ghost use Rattle.std.specs.Borrow.{ftrue};
ghost use Rattle.outside.specs.Devices.{Device};

use std::marker::Model;

/// How the device of an outside was at several moments, the last first. Contracts alone read it: it takes no memory.
#[derive(Drop)]
pub struct DeviceHistory {
    pub ghost devices: { List Device },
}

impl Model for DeviceHistory {
    ghost also_owns = { λ _. ftrue };
}

impl DeviceHistory {
    /// At no moment.
    pub fn new() -> Self
        ensures { result.devices ≡ [] }
    {
        DeviceHistory {}
    }

    /// One moment more, with this device.
    pub fn and(&self) -> Self
        ghost device: { Device }
        ensures { result.devices ≡ device ∷ self.now.devices }
    {
        DeviceHistory {}
    }
}
