//! What commands work with, beside their devices.

use cost_rules::Rules;
use std::alloc::Global;

/// Threads and memory, the gate that workers pass before they plan and claim, and the rules of costs
/// with their watchers.
#[derive(Drop)]
pub(crate) struct Means<'a, R, G> {
    pub rt: &'a R,
    pub alloc: Global,
    pub gate: &'a G,
    pub rules: &'a Rules,
}
