//! The ways to networks, and the best one to an address.
ghost use Rattle.std.specs.Prelude.{◌≡◌, ◌+◌, ◌++◌, ◌≤◌, ◌<◌, length, All, IsTrue, OnOk, IfOk};
ghost use Rattle.asa_ifaces.specs.Interfaces.{has_mask};
ghost use Rattle.asa_ifaces_routes.specs.Candidates as spec;

use asa_base::Prefix;
use asa_flow::Route;
use asa_ifaces::{Iface, Ifaces, RouteLine};
use std::alloc::{AllocError, Global};

/// A way to a network.
#[derive(Clone, Copy, Debug, PartialEq, Eq)]
pub struct Candidate {
    /// The network.
    pub network: Prefix,
    /// How far it is; the smaller the better, among networks of one length.
    pub distance: u8,
    /// What offers it.
    pub route: Route,
    /// The number of the interface that it leads to.
    pub egress: u8,
}

/// The network of the interface with this number.
#[tactic(auto, unfolding(crate::specs::Candidates::connected_of))]
fn connected_of(number: u8, iface: &Iface) -> Option<Candidate>
    requires { IsTrue (has_mask iface.now.addr) }
    ensures { result ≡ spec.connected_of number iface.now }
{
    if iface.shutdown {
        return None;
    }
    match (&iface.name, &iface.addr) {
        (Some(_), Some((own, ones))) => Some(Candidate {
            network: Prefix::over(*own, *ones),
            distance: 0,
            route: Route::Connected,
            egress: number,
        }),
        _ => None,
    }
}

/// The way that a route line offers; lines are numbered from 1.
#[tactic(auto, unfolding(crate::specs::Candidates::static_of))]
fn static_of(ifaces: &[Iface], number: u32, line: &RouteLine) -> Option<Candidate>
    ensures { result ≡ spec.static_of ifaces.now number line.now }
{
    match ifaces.get(usize::from(line.ifc)) {
        Some(iface) if !iface.shutdown => Some(Candidate {
            network: line.prefix,
            distance: line.distance,
            route: Route::Static(number),
            egress: line.ifc,
        }),
        _ => None,
    }
}

/// Appends the networks of the interfaces in order.
fn push_connected(out: &mut Vec<Candidate>, ifaces: &[Iface]) -> Result<(), AllocError>
    requires few { length ifaces.now ≤ 64 }
    requires masks { All (λ i. IsTrue (has_mask i.addr)) ifaces.now }
    ensures { OnOk result (out.new.items ≡ out.old.items ++ spec.connected_from 0 ifaces.now) }
{
    for (index, iface) in ifaces.iter().enumerate() {
        if let Some(candidate) = connected_of(index as u8, iface) {
            out.push(candidate)?;
        }
    }
    Ok(())
}

/// Appends the ways that the route lines offer, in order.
fn push_static(
    out: &mut Vec<Candidate>,
    ifaces: &[Iface],
    lines: &[RouteLine],
) -> Result<(), AllocError>
    requires { length lines.now ≤ 4096 }
    ensures { OnOk result (out.new.items ≡ out.old.items ++ spec.static_from ifaces.now 1 lines.now) }
{
    for (index, line) in lines.iter().enumerate() {
        if let Some(candidate) = static_of(ifaces, index as u32 + 1, line) {
            out.push(candidate)?;
        }
    }
    Ok(())
}

/// All ways that interfaces and route lines offer.
#[tactic(auto, using(crate::proofs::OfferLaws::candidates_few), unfolding(crate::specs::Candidates::candidates))]
pub(crate) fn candidates(alloc: Global, net: &Ifaces) -> Result<Vec<Candidate>, AllocError>
    ensures value { IfOk result (λ v. v.items ≡ spec.candidates net.now) }
    ensures few { IfOk result (λ v. length v.items ≤ 8192) }
{
    let mut out = Vec::new(alloc);
    push_connected(&mut out, net.ifaces())?;
    push_static(&mut out, net.ifaces(), net.routes())?;
    Ok(out)
}

/// The candidates as routes, numbered by their places.
pub(crate) fn offers(
    alloc: Global,
    candidates: &[Candidate],
) -> Result<Vec<(Prefix, u8, u32)>, AllocError>
    requires { length candidates.now ≤ 8192 }
    ensures value { IfOk result (λ v. v.items ≡ spec.offers_from 0 candidates.now) }
    ensures few { IfOk result (λ v. length v.items ≤ 8192) }
{
    let mut offers = Vec::with_capacity(alloc, candidates.len())?;
    for (place, candidate) in candidates.iter().enumerate() {
        offers.push((candidate.network, candidate.distance, place as u32))?;
    }
    Ok(offers)
}

#[cfg(test)]
mod tests {
    use super::*;
    use asa_base::{Addr, Name};
    use std::test::Fail;

    #[test]
    fn an_interface_that_is_shut_down_offers_no_way(rt: HostRuntime) -> Result<(), Fail> {
        let hardware = Name::new(b"Ethernet0").ok_or("a name")?;
        let name = Name::new(b"outside").ok_or("a name")?;
        let mut iface = Iface {
            hardware,
            name: Some(name),
            level: 0,
            addr: Some((Addr(0xcb00_7102), 24)),
            shutdown: false,
        };
        let open = Candidate {
            network: Prefix::new(Addr(0xcb00_7100), 24).ok_or("a network")?,
            distance: 0,
            route: Route::Connected,
            egress: 3,
        };
        assert_eq!(rt; connected_of(3, &iface), Some(open));
        iface.shutdown = true;
        assert_eq!(rt; connected_of(3, &iface), None);
        Ok(())
    }
}
