//! Ports and protocols as words of a printed line.
ghost use Rattle.std.specs.Prelude.{◌≡◌, ◌++◌, OnOk};
ghost use Rattle.asa_print_text.specs.Words.{after_words};
ghost use Rattle.asa_print_text.specs.Services.{span_words, port_words, protocol_words};

use crate::word::{Word, push_words};
use asa_base::{PortRange, Ports};
use std::alloc::AllocError;

/// Appends one range of ports: `eq P` for one port, else `range P P`.
fn push_span(out: &mut Vec<u8>, range: PortRange) -> Result<(), AllocError>
    ensures { OnOk result (out.new.items ≡ out.old.items ++ after_words (span_words range)) }
{
    if range.first == range.last {
        push_words(
            out,
            &[Word::Text(b"eq"), Word::Number(u64::from(range.first))],
        )
    } else {
        push_words(
            out,
            &[
                Word::Text(b"range"),
                Word::Number(u64::from(range.first)),
                Word::Number(u64::from(range.last)),
            ],
        )
    }
}

/// Appends ports by the ranges that they stand for: one port as `eq`, one longer range as `range`, two ranges as
/// `neq P` with the port between them. Each word stands after a space.
pub fn push_ports(out: &mut Vec<u8>, ports: Ports) -> Result<(), AllocError>
    ensures { OnOk result (out.new.items ≡ out.old.items ++ after_words (port_words ports)) }
{
    match ports.ranges() {
        (range, None) => push_span(out, range),
        (first, Some(_)) => push_words(
            out,
            &[Word::Text(b"neq"), Word::Number(u64::from(first.last) + 1)],
        ),
    }
}

/// Appends a protocol after a space: `ip` for every protocol, the names of icmp, tcp and udp, and else its number.
pub fn push_protocol(out: &mut Vec<u8>, protocol: Option<u8>) -> Result<(), AllocError>
    ensures { OnOk result (out.new.items ≡ out.old.items ++ after_words (protocol_words protocol)) }
{
    match protocol {
        None => push_words(out, &[Word::Text(b"ip")]),
        Some(1) => push_words(out, &[Word::Text(b"icmp")]),
        Some(6) => push_words(out, &[Word::Text(b"tcp")]),
        Some(17) => push_words(out, &[Word::Text(b"udp")]),
        Some(number) => push_words(out, &[Word::Number(u64::from(number))]),
    }
}
