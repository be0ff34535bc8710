//! The protocol and the ports of a rule.
ghost use Rattle.std.specs.Prelude.{◌≡◌, ◌≤◌};
ghost use Rattle.asa_nat_rules.specs.Ports as spec;

use crate::meaning::NatMeaning;
use asa_base::{PortRange, Service};
use asa_nat_lines::ServicePart;

/// The protocol and the ports of a rule; where none are stated, all.
#[derive(Clone, Copy, Debug)]
pub(crate) struct RulePorts {
    pub(crate) proto: Option<u8>,
    /// The real source ports.
    pub(crate) real: PortRange,
    /// The mapped source ports.
    pub(crate) mapped: PortRange,
    /// The mapped destination ports.
    pub(crate) dest_mapped: PortRange,
    /// The real destination ports.
    pub(crate) dest_real: PortRange,
}

/// How many ports a range has.
pub(crate) fn port_size(ports: &PortRange) -> u64
    ensures { result ≡ spec.port_size ports.now }
{
    u64::from(ports.last) + 1 - u64::from(ports.first)
}

/// The ports that two services state.
fn named_ports(a: &Service, b: &Service) -> RulePorts
    ensures { result ≡ spec.named_ports a.now b.now }
{
    RulePorts {
        proto: a.proto,
        real: a.sport,
        mapped: b.sport,
        dest_mapped: a.dport,
        dest_real: b.dport,
    }
}

/// The service of an object; a name that is no such object states nothing.
fn service_or_any(service: Option<Service>) -> Service
    ensures { result ≡ spec.service_or_any service }
{
    match service {
        Some(service) => service,
        None => Service::any(),
    }
}

/// One real and one mapped source port.
fn source_ports(proto: u8, real: u16, mapped: u16) -> RulePorts
    ensures { result ≡ spec.source_ports proto real mapped }
{
    RulePorts {
        proto: Some(proto),
        real: PortRange::only(real),
        mapped: PortRange::only(mapped),
        dest_mapped: PortRange::all(),
        dest_real: PortRange::all(),
    }
}

/// All protocols and ports.
fn no_ports() -> RulePorts
    ensures { result ≡ spec.no_ports }
{
    RulePorts {
        proto: None,
        real: PortRange::all(),
        mapped: PortRange::all(),
        dest_mapped: PortRange::all(),
        dest_real: PortRange::all(),
    }
}

/// The protocol and the ports of a rule.
pub(crate) fn ports_of<M: NatMeaning>(meaning: &M, service: &ServicePart) -> RulePorts
    ensures { result ≡ spec.ports_of (M.meanings meaning.now) service.now }
{
    match service {
        ServicePart::None => no_ports(),
        ServicePart::Ports {
            proto,
            real,
            mapped,
        } => source_ports(*proto, *real, *mapped),
        ServicePart::Named { first, second } => {
            let first = service_or_any(meaning.service_range(first));
            let second = service_or_any(meaning.service_range(second));
            named_ports(&first, &second)
        }
    }
}
