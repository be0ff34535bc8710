//! What a firewall is asked.
use asa_base::Packet;
use asa_text::Block;

/// What a lane asks of the firewall.
#[derive(Debug, Drop)]
pub enum Command {
    /// A packet comes in on a named interface.
    Packet(Packet),
    /// What would become of a packet that came in on a named interface.
    Trace(Packet),
    /// All connections end.
    Clear,
    /// A block of the configuration's language.
    Edit(Block),
}
