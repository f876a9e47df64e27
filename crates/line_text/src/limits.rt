//! How long a line may be.

/// The most bytes of a line that a service keeps, without the line feed that ends it.
pub const MOST_LINE: usize = 65_536;
