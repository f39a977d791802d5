//! Platforms in ticks.

ghost use Rattle.std.specs.Prelude.{◌≡◌, ◌<◌, ◌≤◌, length, slice_get, slice_index_or, Some, None, IfSome};
ghost use Rattle.platform_file.specs.Ticks.{IsTimed};

use crate::platform::Platform;
use listed::Listed;
use std::marker::Model;

/// A platform with its times and costs in ticks: whole numbers, as the unit is the least common multiple of all denominators.
#[derive(Drop)]
pub struct Timed {
    platform: Platform,
    unit: u64,
    times: Listed<Option<u64>>,
    costs: Listed<u64>,
}

impl Model for Timed {
    ghost use Rattle.platform_file.specs.Ticks.{TimedView, IsTimed};

    ghost Value = { TimedView };

    ghost view = { λ a. record { platform = a.platform; unit = a.unit; times = a.times; costs = a.costs } };

    ghost invariant = { λ a. IsTimed (record { platform = a.platform; unit = a.unit; times = a.times; costs = a.costs }) };
}

impl Timed {
    /// A platform with its unit, times and costs in ticks.
    pub(crate) fn new(
        platform: Platform,
        unit: u64,
        times: Listed<Option<u64>>,
        costs: Listed<u64>,
    ) -> Timed
        requires { IsTimed (record { platform = platform; unit = unit; times = times; costs = costs }) }
        ensures { result ≡ record { platform = platform; unit = unit; times = times; costs = costs } }
    {
        Timed {
            platform,
            unit,
            times,
            costs,
        }
    }

    /// What is known of every platform in ticks.
    pub fn known(&self)
        ensures { IsTimed self.now }
    {
        let _ = &self.unit;
    }

    /// The platform.
    pub fn platform(&self) -> &Platform
        ensures { result.now ≡ self.now.platform }
    {
        &self.platform
    }

    /// The ticks of a time unit.
    pub fn unit(&self) -> u64
        ensures value { result ≡ self.now.unit }
        ensures at_least_one { 1 ≤ result }
    {
        self.unit
    }

    /// The ticks of a task at a node, where the node computes.
    pub fn time(&self, node: u32) -> Option<u64>
        requires { node < length self.now.platform.nodes }
        ensures value { slice_get self.now.times node ≡ Some result }
        ensures index { slice_index_or self.now.times node None ≡ result }
        ensures lasts { IfSome result (λ ticks. 1 ≤ ticks) }
    {
        self.times.as_slice()[node as usize]
    }

    /// The ticks of a task or message over a link.
    pub fn cost(&self, link: u32) -> u64
        requires { link < length self.now.platform.links }
        ensures value { slice_get self.now.costs link ≡ Some result }
        ensures lasts { 1 ≤ result }
    {
        self.costs.as_slice()[link as usize]
    }
}
