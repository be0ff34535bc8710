//! Which value a pool gives to a flow.
ghost use Rattle.std.specs.Prelude.{◌≡◌, ◌≤◌, ◌<◌, ◌^◌};
ghost use Rattle.std.specs.List.{find};
ghost use Rattle.std.specs.Option.{option_map, option_or};
ghost use Rattle.asa_pools.specs.Pools as spec;

use crate::held::{Flow, Mapped};
use crate::table::PortTable;
use asa_base::{Addr, Range};
use asa_pool_values::{PatSpan, Pool, PortRule, Reserved};

/// Whether a port is never given: port 0 of TCP and UDP.
fn is_barred(proto: u8, port: u16) -> bool
    ensures { result ≡ spec.is_barred proto port }
{
    (proto == 6 || proto == 17) && port == 0
}

/// Whether a protocol has ports or identifiers.
fn has_ports(proto: u8) -> bool
    ensures { result ≡ spec.has_ports proto }
{
    proto == 6 || proto == 17 || proto == 1
}

/// The first and the last port that a flow from `sport` may get, but for its own.
fn span_of(rule: PortRule, proto: u8, sport: u16) -> (u16, u16)
    ensures first { result.0 ≡ (spec.span_of rule proto sport).first }
    ensures last { result.1 ≡ (spec.span_of rule proto sport).last }
{
    if proto == 1 {
        return (0, 65535);
    }
    match rule {
        PortRule::Plain => class_of(sport),
        PortRule::Flat => (1024, 65535),
        PortRule::FlatReserve => (1, 65535),
    }
}

/// The first and the last port of the class of a port.
fn class_of(sport: u16) -> (u16, u16)
    ensures first { result.0 ≡ (spec.class_of sport).first }
    ensures last { result.1 ≡ (spec.class_of sport).last }
{
    if sport < 512 {
        (0, 511)
    } else if sport < 1024 {
        (512, 1023)
    } else {
        (1024, 65535)
    }
}

impl Flow {
    /// The end that a translation notes: the real destination where the address is extended.
    fn end(&self, extended: bool) -> Option<(Addr, u16)>
        ensures { result ≡ spec.end_for extended self.now }
    {
        if extended {
            Some((self.dst, self.dport))
        } else {
            None
        }
    }
}

impl PortTable {
    /// Whether a flow may get a port of an address.
    fn is_free<R: Reserved>(
        &self,
        reserved: &R,
        flow: &Flow,
        extended: bool,
        addr: Addr,
        port: u16,
    ) -> bool
        ensures { result ≡ spec.is_free self.now (R.keeps reserved.now) flow.now extended addr port }
    {
        self.is_open(flow.proto, extended, (flow.dst, flow.dport), addr, port)
            && !reserved.reserved(flow.proto, addr, port)
            && !is_barred(flow.proto, port)
    }

    /// The least free port from a first to a last.
    #[tactic(auto, using(crate::proofs::NumberLaws::find_here, crate::proofs::NumberLaws::find_next, crate::proofs::NumberLaws::find_end))]
    fn least_port<R: Reserved>(
        &self,
        reserved: &R,
        flow: &Flow,
        extended: bool,
        addr: Addr,
        first: u16,
        last: u16,
    ) -> Option<u16>
        ensures { result ≡ find (spec.is_free self.now (R.keeps reserved.now) flow.now extended addr) (spec.numbers first last) }
    {
        let end = u32::from(last);
        let mut at = u32::from(first);
        while at <= end {
            let port = at as u16;
            if self.is_free(reserved, flow, extended, addr, port) {
                return Some(port);
            }
            at += 1;
        }
        None
    }

    /// The port that a flow gets of an address: its own if that is free, else the least free one.
    fn port<R: Reserved>(
        &self,
        reserved: &R,
        flow: &Flow,
        span: &PatSpan,
        addr: Addr,
    ) -> Option<u16>
        ensures { result ≡ spec.port_choice (spec.is_free self.now (R.keeps reserved.now) flow.now span.now.extended addr) flow.now.sport (spec.span_of span.now.ports flow.now.proto flow.now.sport) }
    {
        if self.is_free(reserved, flow, span.extended, addr, flow.sport) {
            return Some(flow.sport);
        }
        let ports = span_of(span.ports, flow.proto, flow.sport);
        self.least_port(reserved, flow, span.extended, addr, ports.0, ports.1)
    }

    /// What an address of a span has for a flow.
    fn choice<R: Reserved>(
        &self,
        reserved: &R,
        flow: &Flow,
        span: &PatSpan,
        number: u32,
    ) -> Option<Mapped>
        ensures { result ≡ spec.choice self.now (R.keeps reserved.now) flow.now span.now number }
    {
        let addr = Addr(number);
        match self.port(reserved, flow, span, addr) {
            Some(port) => Some(Mapped::Pat {
                addr,
                port,
                to: flow.end(span.extended),
            }),
            None => None,
        }
    }

    /// What the first address of a span that has something has for a flow.
    #[tactic(auto, using(crate::proofs::NumberLaws::first_here, crate::proofs::NumberLaws::first_next, crate::proofs::NumberLaws::first_end))]
    fn span_choice<R: Reserved>(&self, reserved: &R, flow: &Flow, span: &PatSpan) -> Option<Mapped>
        ensures { result ≡ spec.span_choice self.now (R.keeps reserved.now) flow.now span.now }
    {
        let end = u64::from(span.range.last.0);
        let mut at = u64::from(span.range.first.0);
        while at <= end {
            if let Some(mapped) = self.choice(reserved, flow, span, at as u32) {
                return Some(mapped);
            }
            at += 1;
        }
        None
    }

    /// What the first span that has something has for a flow.
    fn pat_value<R: Reserved>(&self, reserved: &R, flow: &Flow, spans: &[PatSpan]) -> Option<Mapped>
        ensures { result ≡ spec.pat_value self.now (R.keeps reserved.now) flow.now spans.now }
    {
        if !has_ports(flow.proto) {
            return None;
        }
        for span in spans {
            if let Some(mapped) = self.span_choice(reserved, flow, span) {
                return Some(mapped);
            }
        }
        None
    }

    /// The first address of a range that nobody has bound.
    #[tactic(auto, using(crate::proofs::NumberLaws::find_here, crate::proofs::NumberLaws::find_next, crate::proofs::NumberLaws::find_end))]
    fn open_address(&self, range: Range) -> Option<u32>
        ensures { result ≡ spec.open_address self.now range }
    {
        let end = u64::from(range.last.0);
        let mut at = u64::from(range.first.0);
        while at <= end {
            let number = at as u32;
            if self.is_unbound(Addr(number)) {
                return Some(number);
            }
            at += 1;
        }
        None
    }

    /// The first address of some ranges that nobody has bound.
    fn open_value(&self, ranges: &[Range]) -> Option<u32>
        ensures { result ≡ spec.first_of (spec.open_address self.now) ranges.now }
    {
        for range in ranges {
            if let Some(number) = self.open_address(*range) {
                return Some(number);
            }
        }
        None
    }

    /// The first address of some ranges that the flow's input and source have bound.
    fn own_value(&self, flow: &Flow, ranges: &[Range]) -> Option<u32>
        ensures { result ≡ spec.first_of (spec.own_address self.now flow.now) ranges.now }
    {
        for range in ranges {
            if let Some(number) = self.own_address(flow, *range) {
                return Some(number);
            }
        }
        None
    }

    /// What a pool gives to a flow of this input, protocol and source, whose real destination is `dst` with the port
    /// `dport`: the first address of its own that this input and source have bound, else the first one that nobody has
    /// bound, else for TCP, UDP and ICMP a port: on the first address that has one, the flow's own if it is free, else the
    /// least free port of the address's span. None exactly where there is none of these.
    ///
    /// It follows "Dynamic NAT" and "Dynamic PAT" of the books on NAT.
    #[allow(clippy::too_many_arguments)]
    pub fn choose<R: Reserved>(
        &self,
        pool: &Pool,
        reserved: &R,
        ifc: u8,
        proto: u8,
        src: Addr,
        sport: u16,
        dst: Addr,
        dport: u16,
    ) -> Option<Mapped>
        ensures value { result ≡ spec.value self.now (R.keeps reserved.now) (record { ifc = ifc; proto = proto; src = src; sport = sport; dst = dst; dport = dport }) pool.now }
    {
        let flow = Flow {
            ifc,
            proto,
            src,
            sport,
            dst,
            dport,
        };
        if let Some(number) = self.own_value(&flow, pool.nat.as_slice()) {
            return Some(Mapped::Bound { addr: Addr(number) });
        }
        if let Some(number) = self.open_value(pool.nat.as_slice()) {
            return Some(Mapped::Bound { addr: Addr(number) });
        }
        self.pat_value(reserved, &flow, pool.pat.as_slice())
    }
}
