//! A configuration compiled for deciding flows.
ghost use Rattle.std.specs.Prelude.{◌≡◌, ℕ, ◌+◌, ◌<◌, ◌≤◌, IfOk};
ghost use Rattle.asa_access.specs.Compiled.{covering_inbound, covering_outbound, inbound_in, outbound_in};
ghost use Rattle.asa_base.specs.declared.flow.Packet.{Packet as AnyPacket};
ghost use Rattle.asa_ifaces.specs.Interfaces.{is_named};
ghost use Rattle.asa_ifaces_routes.specs.Candidates.{route_of};
ghost use Rattle.asa_policy.specs.Access.{inbound, inbound_covering, outbound, outbound_covering};

use crate::access_lists::{access_lists, global_place};
use crate::levels::levels_of;
use asa_access::{Access, AccessVerdict};
use asa_base::{Addr, Counter, Packet};
use asa_config::Config;
use asa_ifaces_routes::{Candidate, Routes};
use std::alloc::{AllocError, Global};
use std::marker::Model;

/// A compiled configuration. Contracts see it as the configuration that it was compiled from.
#[derive(Drop)]
pub struct Policy {
    config: Config,
    routes: Routes,
    access: Access,
}

impl Model for Policy {
    ghost use Rattle.asa_config.specs.Settings.{Settings};
    ghost use Rattle.asa_policy.specs.Compiled.{IsCompiled};

    ghost Value = { Settings };

    ghost view = { λ p. p.config };

    ghost invariant = { λ p. IsCompiled p.config p.routes p.access };
}

/// The compiled lists and levels of a configuration.
fn access_of(alloc: Global, config: &Config) -> Result<Access, AllocError>
    ensures inward { IfOk result (λ a. (p : AnyPacket) (egress : ℕ) → p.ifc < 256 → inbound_in a p egress ≡ inbound config.now p egress) }
    ensures outward { IfOk result (λ a. (p : AnyPacket) (egress : ℕ) → egress < 256 → outbound_in a p egress ≡ outbound config.now p egress) }
    ensures inward_reads { IfOk result (λ a. (p : AnyPacket) → p.ifc < 256 → covering_inbound a p ≡ inbound_covering config.now p) }
    ensures outward_reads { IfOk result (λ a. (p : AnyPacket) (egress : ℕ) → egress < 256 → covering_outbound a p egress ≡ outbound_covering config.now p egress) }
{
    let lists = access_lists(alloc, config)?;
    let global = global_place(config, lists.as_slice());
    let levels = levels_of(alloc, config.ifaces().ifaces())?;
    let access = Access::build(alloc, lists.as_slice(), global, levels)?;
    Ok(access)
}

/// Compiles a configuration: its routes, its lists and the levels of its interfaces, beside a copy of it.
pub fn compile(alloc: Global, config: &Config) -> Result<Policy, AllocError>
    ensures { IfOk result (λ p. p ≡ config.now) }
{
    let routes = Routes::build(alloc, config.ifaces())?;
    let access = access_of(alloc, config)?;
    let config = config.copy()?;
    Ok(Policy {
        config,
        routes,
        access,
    })
}

impl Policy {
    /// The configuration that it was compiled from.
    pub fn config(&self) -> &Config
        ensures { result.now ≡ self.now }
    {
        &self.config
    }

    /// Whether there is an interface with this number, and it has a name.
    pub fn is_named(&self, ifc: u8) -> bool
        ensures { result ≡ is_named self.now.net ifc }
    {
        self.config.ifaces().is_named(ifc)
    }

    /// The route of an address, which reads at most 33 sealed nodes.
    #[tactic(auto, unfolding(asa_ifaces_routes::specs::Candidates::route_of))]
    pub(crate) fn route_of(&self, address: Addr, c: &mut Counter) -> Option<Candidate>
        ensures value { result ≡ route_of self.now.net address }
        ensures reads { c.new ≤ c.old + 33 }
    {
        self.routes.best(address, c)
    }

    /// What the rules of the input say of a packet that leaves by this egress.
    pub(crate) fn inbound(&self, p: &Packet, egress: u8, c: &mut Counter) -> AccessVerdict
        ensures value { result ≡ inbound self.now p.now egress }
        ensures reads { c.new ≤ c.old + 2244 + inbound_covering self.now p.now }
    {
        // Tells the prover that the number is below 256, which it knows of a field behind a reference once that is read.
        let _ifc = p.ifc;
        self.access.inbound(p, egress, c)
    }

    /// What the rules of the egress say of a packet.
    pub(crate) fn outbound(&self, p: &Packet, egress: u8, c: &mut Counter) -> AccessVerdict
        ensures value { result ≡ outbound self.now p.now egress }
        ensures reads { c.new ≤ c.old + 1122 + outbound_covering self.now p.now egress }
    {
        self.access.outbound(p, egress, c)
    }
}
