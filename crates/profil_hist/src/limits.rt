//! How much a map may have.

/// The ranges of a map.
pub const MOST_RANGES: usize = 1024;

/// The buckets of all ranges of a map.
pub const MOST_BUCKETS: u32 = 65_536;

/// The addresses of a bucket.
pub const MOST_BUCKET_ADDRESSES: u32 = 1_048_576;
