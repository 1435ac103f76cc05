//! How much settings may ask for, and how much a gate holds and tells.

/// The most queues.
pub const MOST_QUEUES: usize = 32;

/// The most projects.
pub const MOST_PROJECTS: usize = 256;

/// The most jobs of a project.
pub const MOST_JOBS: usize = 32;

/// The largest window of a queue, and the largest floor of one.
pub const MOST_WINDOW: u64 = 1000;

/// The most that a window changes by.
pub const MOST_FACTOR: u64 = 1000;

/// The most items of a queue.
pub const MOST_ITEMS: u64 = 1000;

/// The most changes that one revision needs.
pub const MOST_NEEDS: usize = 32;

/// The most reports, deliveries or builds that one answer lists.
pub const MOST_LISTED: u64 = 1000;

/// The tries of a job: it has failed when so many of its builds are lost.
pub const MOST_TRIES: usize = 3;

/// The most bytes of a delivery: of a line without its LF, or of a body.
pub const MOST_BYTES: usize = 65536;
