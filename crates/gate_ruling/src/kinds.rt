//! The kinds of deliveries, a module each. What a kind reads, and in which order, is what its rule reads.
pub(crate) mod approved;
pub(crate) mod closed;
pub(crate) mod landed;
pub(crate) mod refused;
pub(crate) mod result;
pub(crate) mod revision;
pub(crate) mod take;
pub(crate) mod withdrawn;
