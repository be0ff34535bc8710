//! The levels of interfaces.
ghost use Rattle.std.specs.Prelude.{◌≡◌, IfOk};
ghost use Rattle.asa_policy.specs.Access as spec;

use asa_config::Config;
use asa_ifaces::Iface;
use std::alloc::{AllocError, Global};

/// The level of the interface with this number.
#[tactic(auto, unfolding(crate::specs::Access::level_at))]
pub(crate) fn level_at(config: &Config, ifc: u8) -> u8
    ensures { result ≡ spec.level_at config.now ifc }
{
    match config.ifaces().ifaces().get(usize::from(ifc)) {
        Some(iface) => iface.level,
        None => 0,
    }
}

/// The levels of the interfaces.
pub(crate) fn levels_of(alloc: Global, ifaces: &[Iface]) -> Result<Vec<u8>, AllocError>
    ensures { IfOk result (λ v. v.items ≡ spec.levels_of ifaces.now) }
{
    ifaces.iter().map(|i| i.level).collect(alloc)
}
