// The device of the gateway.
use types::capabilities::Capabilities;

/// WebGPU's default limits, no features, view formats allowed.
pub const DEVICE: Capabilities = Capabilities::DEFAULT;
