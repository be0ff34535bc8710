//! Blocks of interfaces, and the lines of routes, times and same security.
ghost use Rattle.std.specs.Prelude.{◌≡◌, ◌<◌, ◌≤◌, true, IfOk, length};
ghost use Rattle.asa_ifaces.specs.Permits.{permits_line, with_permits};
ghost use Rattle.asa_ifaces.specs.Routes.{has_route, no_route_line, route_line};
ghost use Rattle.asa_ifaces.specs.Times.{timeout_line, with_times};
ghost use Rattle.asa_ifaces.specs.Blocks.{interface_step};
ghost use Rattle.asa_config_edit.specs.Refusals.{Gives, Makes, top_read};
ghost use Rattle.asa_config.specs.Names.{pair_count};
ghost use Rattle.asa_config.specs.Net as spec;

use crate::config::Config;
use crate::limits::MOST_PAIRS;
use asa_acl_table::{Scope, count_lists, too_large};
use asa_config_edit::{EditFault, EditRefusal, alone, line_refusal, refused, top_line};
use asa_ifaces::{IfaceFault, Ifaces, Permits, RouteLine, Timeouts, read_permits};
use asa_text::Block;
use std::alloc::AllocError;

/// The refusal of a block for a fault of its interface or its route.
fn net_refusal(fault: IfaceFault) -> EditRefusal
    ensures { result ≡ spec.net_refusal fault }
{
    match fault {
        IfaceFault::Line { line, fault } => line_refusal(line, fault),
        IfaceFault::NameTaken { line } => refused(line, EditFault::NameTaken),
        IfaceFault::NoSuchLine => refused(1, EditFault::NoSuchLine),
        IfaceFault::TooMany => refused(1, EditFault::TooMany),
        IfaceFault::NoMemory => EditRefusal::NoMemory,
    }
}

/// What a change of interfaces or routes answers.
fn told(answer: Result<(), IfaceFault>) -> Result<(), EditRefusal>
    ensures { result ≡ spec.told answer }
{
    match answer {
        Ok(()) => Ok(()),
        Err(fault) => Err(net_refusal(fault)),
    }
}

/// The route of a block that is a line `route ..`.
fn route_of(config: &Config, block: &Block) -> Result<RouteLine, EditRefusal>
    ensures value { result ≡ top_read block.now (route_line config.now.net) }
    ensures leaves { IfOk result (λ r. r.ifc < length config.now.net.ifaces) }
{
    match config.ifaces().read_route(top_line(block)) {
        Ok(route) => Ok(route),
        Err(fault) => Err(line_refusal(1, fault)),
    }
}

/// The route of a block that is a line `no route ..`.
fn old_route_of(config: &Config, block: &Block) -> Result<RouteLine, EditRefusal>
    ensures { result ≡ top_read block.now (no_route_line config.now.net) }
{
    match config.ifaces().read_no_route(top_line(block)) {
        Ok(route) => Ok(route),
        Err(fault) => Err(line_refusal(1, fault)),
    }
}

/// What the times are after a block that is a line `timeout ..`.
fn timeouts_of(config: &Config, block: &Block) -> Result<Timeouts, EditRefusal>
    ensures { result ≡ top_read block.now (timeout_line config.now.net.timeouts) }
{
    match config.ifaces().read_timeout(top_line(block)) {
        Ok(timeouts) => Ok(timeouts),
        Err(fault) => Err(line_refusal(1, fault)),
    }
}

/// What a block that is a line `same-security-traffic ..` permits.
fn permits_of(block: &Block) -> Result<Permits, EditRefusal>
    ensures { result ≡ top_read block.now permits_line }
{
    match read_permits(top_line(block)) {
        Ok(permits) => Ok(permits),
        Err(fault) => Err(line_refusal(1, fault)),
    }
}

impl Config {
    /// Puts a route line in its place.
    fn put_route(&mut self, route: RouteLine) -> Result<(), EditRefusal>
        requires { route.ifc < length self.old.net.ifaces }
        ensures { Makes result self.old self.new (spec.route_put self.old route) }
    {
        told(self.net.put_route(route))
    }

    /// Removes a route that is there.
    fn take_route(&mut self, route: &RouteLine)
        requires { has_route self.old.net.routes route.now ≡ true }
        ensures { self.new ≡ spec.route_gone self.old route.now }
    {
        let _gone = self.net.remove_route(route);
    }

    /// Sets the times.
    fn set_timeouts(&mut self, timeouts: Timeouts)
        ensures { self.new ≡ spec.with_net self.old (with_times self.old.net timeouts) }
    {
        self.net.set_timeouts(timeouts);
    }

    /// Sets what is permitted between interfaces of one level, as far as it is stated.
    fn set_permits(&mut self, permits: Permits)
        ensures { self.new ≡ spec.with_net self.old (with_permits self.old.net permits.inter permits.intra) }
    {
        self.net.same_security(permits.inter, permits.intra);
    }

    /// Takes a line `route ..`.
    #[tactic(auto, unfolding(crate::specs::Net::route_step))]
    pub(crate) fn step_route(&mut self, block: &Block) -> Result<(), EditRefusal>
        ensures { Makes result self.old self.new (spec.route_step self.old block.now) }
    {
        let route = route_of(self, block)?;
        alone(block)?;
        self.put_route(route)
    }

    /// Takes a line `no route ..`.
    #[tactic(auto, unfolding(crate::specs::Net::no_route_step))]
    pub(crate) fn step_no_route(&mut self, block: &Block) -> Result<(), EditRefusal>
        ensures { Makes result self.old self.new (spec.no_route_step self.old block.now) }
    {
        let route = old_route_of(self, block)?;
        if !self.net.has_route(&route) {
            return Err(refused(1, EditFault::NoSuchLine));
        }
        alone(block)?;
        self.take_route(&route);
        Ok(())
    }

    /// Takes a line `timeout ..`.
    #[tactic(auto, unfolding(crate::specs::Net::timeout_step))]
    pub(crate) fn step_timeout(&mut self, block: &Block) -> Result<(), EditRefusal>
        ensures { Makes result self.old self.new (spec.timeout_step self.old block.now) }
    {
        let timeouts = timeouts_of(self, block)?;
        alone(block)?;
        self.set_timeouts(timeouts);
        Ok(())
    }

    /// Takes a line `same-security-traffic ..` or its `no`.
    #[tactic(auto, unfolding(crate::specs::Net::permits_step))]
    pub(crate) fn step_permits(&mut self, block: &Block) -> Result<(), EditRefusal>
        ensures { Makes result self.old self.new (spec.permits_step self.old block.now) }
    {
        let permits = permits_of(block)?;
        alone(block)?;
        self.set_permits(permits);
        Ok(())
    }

    /// Takes other interfaces, under which the pairs of all lists are counted anew, as far as they stay few.
    #[tactic(auto, unfolding(crate::specs::Limits::fitting))]
    fn install(&mut self, net: Ifaces) -> Result<(), EditRefusal>
        requires { length self.old.net.ifaces ≤ length net.ifaces }
        ensures { Makes result self.old self.new (spec.installed self.old net) }
    {
        let total = self.count_under(&net)?;
        if total > MOST_PAIRS {
            return Err(too_large(total));
        }
        self.put_net(net, total as u64);
        Ok(())
    }

    /// The pairs of all lists under other interfaces.
    fn count_under(&self, net: &Ifaces) -> Result<u128, AllocError>
        ensures { IfOk result (λ n. n ≡ pair_count (spec.with_net self.now net.now)) }
    {
        let scope = Scope {
            objects: &self.objects,
            ifaces: net.ifaces(),
        };
        count_lists(self.alloc, &scope, &self.table)
    }

    /// Puts other interfaces, under which all lists have so many pairs.
    fn put_net(&mut self, net: Ifaces, total: u64)
        requires more { length self.old.net.ifaces ≤ length net.ifaces }
        requires total { total ≡ pair_count (spec.with_net self.old net) }
        requires few { total ≤ 262144 }
        ensures { self.new ≡ spec.with_net self.old net }
    {
        self.net = net;
        self.pairs = total;
    }

    /// The interfaces after a block of one.
    fn net_after(&self, block: &Block) -> Result<Ifaces, EditRefusal>
        ensures value { Gives result (spec.of_net (interface_step self.now.net block.now)) }
        ensures more { IfOk result (λ net. length self.now.net.ifaces ≤ length net.ifaces) }
    {
        let mut net = self.net.copy()?;
        told(net.interface(block))?;
        Ok(net)
    }

    /// Takes a block of an interface.
    #[tactic(auto, unfolding(crate::specs::Net::interface_step))]
    pub(crate) fn step_interface(&mut self, block: &Block, startup: bool) -> Result<(), EditRefusal>
        ensures { Makes result self.old self.new (spec.interface_step self.old block.now startup) }
    {
        if !startup {
            return Err(refused(1, EditFault::NotAfterStartup));
        }
        let net = self.net_after(block)?;
        self.install(net)
    }
}
