// What the tests drop. A proof by hand must belong to a function of the library and of its tests.
use bay_device::device::Device;

/// Drops a device. The proof that the state of a device may be dropped is for this call and for the
/// tests.
pub fn drop_device(_device: Device) {}
