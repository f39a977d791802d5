//! What the check of a schedule notes of the operations so far.

ghost use Rattle.std.specs.Prelude.{◌≡◌, ℕ, None, Some, MatchResult, ◌^◌, ◌-◌, All, ◌<◌, length, true};
ghost use Rattle.schedule_model.specs.Operations.{end_of};
ghost use Rattle.schedule_model.specs.Tallies.{empty_tally, is_in_range, place_of, lacks, broken_supply, broken_use, broken_rule, noted, deliveries_of, tallied};
ghost use Rattle.schedule_model.specs.Validity.{least};
ghost use Rattle.schedule_model.specs.declared.schedule.Series.TheVariants.{Scatter};

use crate::breach::Rule;
use crate::operations::{end_within, is_in_range, sends_own, start_of};
use crate::schedule::{Op, Series};
use platform_file::Timed;

/// The most nodes that a platform has.
const NODES: usize = 32;

/// The most nodes times the most kinds.
const PLACES: usize = 256;

/// What the operations so far have used and moved. A place stands for one kind at one node.
#[derive(Drop)]
pub(crate) struct Tally {
    /// The tick at which the last operation starts.
    pub(crate) last: u128,
    /// For each node, the tick from which its send port is free.
    pub(crate) sends: [u128; NODES],
    /// For each node, the tick from which its receive port is free.
    pub(crate) receives: [u128; NODES],
    /// For each node, the tick from which its processor is free.
    pub(crate) computes: [u128; NODES],
    /// For each place, the tick at which the last task or message comes that was sent there.
    pub(crate) arrivals: [u128; PLACES],
    /// For each place, how many were sent there.
    pub(crate) received: [u64; PLACES],
    /// For each place, how many were begun with there.
    pub(crate) started: [u64; PLACES],
    /// How many tasks are computed.
    pub(crate) computed: u64,
}

/// The place at which messages of a kind at a node are counted.
fn place_of(kind: u32, node: u32) -> usize
    requires kind { kind < 8 }
    requires node { node < 32 }
    ensures value { result ≡ place_of kind node }
    ensures inside { result < 256 }
{
    kind as usize * NODES + node as usize
}

impl Tally {
    /// Nothing noted.
    pub(crate) fn new() -> Tally
        ensures { result ≡ empty_tally }
    {
        Tally {
            last: 0,
            sends: [0; NODES],
            receives: [0; NODES],
            computes: [0; NODES],
            arrivals: [0; PLACES],
            received: [0; PLACES],
            started: [0; PLACES],
            computed: 0,
        }
    }

    /// Whether fewer have come to a place by a tick than would have been begun with.
    fn lacks(&self, place: usize, tick: u128) -> bool
        requires place { place < 256 }
        requires few { All (λ n. n < 2 ^ 64 - 1) self.now.started }
        ensures { result ≡ lacks self.now place tick }
    {
        let on_the_way = if tick < self.arrivals[place] { 1 } else { 0 };
        !(self.started[place] + on_the_way < self.received[place])
    }

    /// The rule that the use of one more task or message breaks.
    #[tactic(auto, using(crate::proofs::Ranges::few_nodes))]
    fn broken_supply(&self, timed: &Timed, kind: u32, node: u32, start: u128) -> Option<Rule>
        requires kind { kind < 8 }
        requires node { node < length timed.now.platform.nodes }
        requires few { All (λ n. n < 2 ^ 64 - 1) self.now.started }
        ensures { result ≡ broken_supply timed.now self.now kind node start }
    {
        timed.known();
        if !timed.platform().is_master(node) && self.lacks(place_of(kind, node), start) {
            Some(Rule::Supply)
        } else {
            None
        }
    }

    /// The first rule that an operation breaks which is in order, in range and in time.
    #[tactic(auto, using(crate::proofs::Ranges::few_nodes, crate::proofs::Ranges::range_link, crate::proofs::Ranges::range_kind, crate::proofs::Ranges::range_node, crate::proofs::Ranges::range_has_kind, crate::proofs::Ranges::sender_exists, crate::proofs::Ranges::receiver_exists))]
    fn broken_use(&self, timed: &Timed, series: Series, op: Op) -> Option<Rule>
        requires range { is_in_range timed.now series op ≡ true }
        requires few { All (λ n. n < 2 ^ 64 - 1) self.now.started }
        ensures { result ≡ broken_use timed.now series self.now op }
    {
        timed.known();
        match op {
            Op::Send { link, kind, start } => {
                let link = &timed.platform().links()[link as usize];
                let from = link.from();
                let to = link.to();
                if start < self.sends[from as usize] {
                    Some(Rule::SendPort)
                } else if start < self.receives[to as usize] {
                    Some(Rule::ReceivePort)
                } else if sends_own(timed, series, kind, from) {
                    Some(Rule::OwnType)
                } else {
                    self.broken_supply(timed, kind, from, start)
                }
            }
            Op::Compute { node, start } => {
                if start < self.computes[node as usize] {
                    Some(Rule::ComputePort)
                } else {
                    self.broken_supply(timed, 0, node, start)
                }
            }
        }
    }

    /// Notes an operation, with the first tick after it.
    #[tactic(auto, using(crate::proofs::Ranges::few_nodes, crate::proofs::Ranges::range_link, crate::proofs::Ranges::range_kind, crate::proofs::Ranges::range_node, crate::proofs::Ranges::sender_exists, crate::proofs::Ranges::receiver_exists))]
    fn note(&mut self, timed: &Timed, series: Series, op: Op, end: u128)
        requires range { is_in_range timed.now series op ≡ true }
        requires few_started { All (λ n. n < 2 ^ 64 - 1) self.old.started }
        requires few_received { All (λ n. n < 2 ^ 64 - 1) self.old.received }
        requires few_computed { self.old.computed < 2 ^ 64 - 1 }
        ensures { (u : ℕ) → end ≡ end_of timed.now u op → self.new ≡ noted timed.now u self.old op }
    {
        timed.known();
        match op {
            Op::Send { link, kind, start } => {
                let link = &timed.platform().links()[link as usize];
                let from = link.from();
                let to = link.to();
                self.last = start;
                self.sends[from as usize] = end;
                self.receives[to as usize] = end;
                self.arrivals[place_of(kind, to)] = end;
                self.received[place_of(kind, to)] += 1;
                self.started[place_of(kind, from)] += 1;
            }
            Op::Compute { node, start } => {
                self.last = start;
                self.computes[node as usize] = end;
                self.started[place_of(0, node)] += 1;
                self.computed += 1;
            }
        }
    }

    /// Notes an operation, or tells the first rule that it breaks, which leaves the tally as it is.
    pub(crate) fn admit(
        &mut self,
        timed: &Timed,
        series: Series,
        ticks_per_unit: u64,
        last: u128,
        op: Op,
    ) -> Result<(), Rule>
        requires few_started { All (λ n. n < 2 ^ 64 - 1) self.old.started }
        requires few_received { All (λ n. n < 2 ^ 64 - 1) self.old.received }
        requires few_computed { self.old.computed < 2 ^ 64 - 1 }
        ensures { MatchResult result
            (λ done. (broken_rule timed.now series ticks_per_unit last self.old op ≡ None)
            × (self.new ≡ noted timed.now ticks_per_unit self.old op))
            (λ rule. broken_rule timed.now series ticks_per_unit last self.old op ≡ Some rule) }
    {
        if start_of(op) < self.last {
            return Err(Rule::Order);
        }
        if !is_in_range(timed, series, op) {
            return Err(Rule::Range);
        }
        let Some(end) = end_within(timed, series, ticks_per_unit, last, op) else {
            return Err(Rule::Late);
        };
        match self.broken_use(timed, series, op) {
            Some(rule) => Err(rule),
            None => {
                self.note(timed, series, op, end);
                Ok(())
            }
        }
    }

    /// The least number of messages of its own kind that one of the targets got.
    #[tactic(auto, using(crate::proofs::Least::least_found, crate::proofs::Ranges::few_kinds, crate::proofs::Ranges::target_exists, crate::proofs::Ranges::few_nodes))]
    fn least_delivered(&self, timed: &Timed) -> u64
        requires { 0 < length timed.now.platform.targets }
        ensures { result ≡ least (deliveries_of self.now 0 timed.now.platform.targets) }
    {
        timed.known();
        let targets = timed.platform().targets();
        let mut least = self.received[place_of(0, targets[0])];
        let mut kind = 0;
        for target in targets {
            least = least.min(self.received[place_of(kind, *target)]);
            kind += 1;
        }
        least
    }

    /// How many tasks are computed, or how many messages every target got.
    pub(crate) fn completed(&self, timed: &Timed, series: Series) -> u64
        requires { series ≡ Scatter → 0 < length timed.now.platform.targets }
        ensures { result ≡ tallied timed.now series self.now }
    {
        match series {
            Series::Tasking => self.computed,
            Series::Scatter => self.least_delivered(timed),
        }
    }
}
