// What a source or a sink in memory does.
ghost use Rattle.std.specs.Prelude.{◌<◌};

use std::alloc::{AllocError, Global};

/// How many bytes a call takes at most, and the call that fails, or 0.
#[derive(Clone, Copy)]
pub(crate) struct Device {
    pub(crate) most: usize,
    pub(crate) fails: u64,
    ghost takes_some: { 0 < most },
}

/// No call fails.
pub(crate) const SOUND: Device = Device {
    most: 4096,
    fails: 0,
};

pub(crate) const SLOW: Device = Device { most: 1, fails: 0 };

/// Of a file that isn't there.
pub(crate) const MISSING: Device = Device {
    most: 4096,
    fails: 1,
};

/// The device of a text such as `4 2`. None where it is none.
pub(crate) fn device_of(text: &str) -> Option<Device> {
    let (most, fails) = text.split_once(' ')?;
    Some(Device {
        most: most.parse::<usize>().ok()?.max(1),
        fails: fails.parse::<u64>().ok()?,
    })
}

/// The calls that fail.
pub(crate) fn failing(alloc: Global, device: &Device) -> Result<Vec<u64>, AllocError> {
    if device.fails == 0 {
        return Ok(Vec::new(alloc));
    }
    [device.fails].to_vec(alloc)
}
