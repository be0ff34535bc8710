//! Pools of mapped addresses.
use asa_base::Range;
use asa_text::Items;

/// Which mapped ports a TCP or UDP flow may get on an address. Each takes the real port where it is free, else the least
/// free port of its span. ICMP identifiers are one span, 0 to 65535, under each rule.
#[derive(Clone, Copy, Debug, PartialEq, Eq)]
pub enum PortRule {
    /// The span of the real port: 0 to 511, 512 to 1023 or 1024 to 65535.
    Plain,
    /// 1024 to 65535.
    Flat,
    /// 1 to 65535.
    FlatReserve,
}

/// Addresses that are given out port by port, in rising order.
#[derive(Clone, Copy, Debug, PartialEq, Eq)]
pub struct PatSpan {
    pub range: Range,
    pub ports: PortRule,
    /// Whether a port may serve several flows to different destinations.
    pub extended: bool,
}

/// The pool of a dynamic rule.
#[derive(Debug, Drop)]
pub struct Pool {
    /// The addresses that are given out whole, one to each source.
    pub nat: Items<Range>,
    /// The addresses that are given out port by port, asked in order.
    pub pat: Items<PatSpan>,
}
