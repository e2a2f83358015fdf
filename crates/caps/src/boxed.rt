// Devices in boxes.

use crate::device::{Device, DeviceFault};
use crate::request::{DeviceAnswer, Kind, Request};

/// A boxed device passes each call on, and each of its meanings.
impl Device for Box<dyn Device> {
    ghost kind = { λ b. (Device-box b).kind b.value };

    ghost told = { λ b. (Device-box b).told b.value };

    ghost faults = { λ b. (Device-box b).faults b.value };

    ghost is_calm = { λ b. (Device-box b).is_calm b.value };

    fn kind(&self) -> Kind {
        (**self).kind()
    }

    fn ask(&mut self, request: &Request) -> Result<DeviceAnswer, DeviceFault> {
        (**self).ask(request)
    }
}
