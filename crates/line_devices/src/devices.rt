//! What a device answers when it fails.

use thiserror::Error;

/// A device failed. Why is not told: its count of failures says that it did.
#[derive(Clone, Copy, PartialEq, Eq, Debug, Error)]
#[error("the device failed")]
pub struct DeviceFault;
