//! Ports that static rules keep to themselves.
ghost use Rattle.std.specs.Prelude.{◌≡◌};
ghost use Rattle.asa_pool_values.specs.Reserved.{Test};

use asa_base::Addr;

/// What tells which mapped ports no pool gives: a test over protocol, mapped address and mapped port.
pub trait Reserved {
    /// The ports that are reserved.
    ghost keeps: { Self → Test };

    /// Whether no pool gives this port of this address for this protocol.
    fn reserved(&self, proto: u8, addr: Addr, port: u16) -> bool
        ensures { result ≡ keeps self.now proto addr port };
}
