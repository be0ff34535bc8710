//! The printed line of a route.
ghost use Rattle.std.specs.Prelude.{◌≡◌, ◌++◌, OnOk, Ok};
ghost use Rattle.asa_ifaces.specs.Answers.{of_text};
ghost use Rattle.asa_ifaces.specs.Interfaces.{Interfaces};
ghost use Rattle.asa_ifaces.specs.Routes.{route_line};
ghost use Rattle.asa_print_text.specs.Words.{spaced};
ghost use Rattle.asa_print_net.specs.Routes as spec;
ghost use Rattle.asa_print_net.specs.Routes.{CanRoute, route_words};

use asa_base::Name;
use asa_ifaces::RouteLine;
use asa_print_text::{Word, push_top};
use asa_text::{Addr, mask_bits};
use std::alloc::AllocError;

/// Appends the line of a route, whose interface has this name, with its distance. Where the route can be
/// configured, the line without its line feed is read as that route.
#[tactic(auto, unfolding(crate::specs::Routes::route_text))]
pub fn push_route(out: &mut Vec<u8>, name: &Name, route: RouteLine) -> Result<(), AllocError>
    ensures text { OnOk result (out.new.items ≡ out.old.items ++ spec.route_text name.now route) }
    ensures back { (i : Interfaces) → CanRoute i name.now route → of_text (route_line i) (spaced (route_words name.now route)) ≡ Ok route }
{
    push_top(
        out,
        b"route",
        &[
            Word::Text(name.bytes()),
            Word::Address(route.prefix.addr),
            Word::Address(Addr(mask_bits(route.prefix.len))),
            Word::Address(route.gateway),
            Word::Number(u64::from(route.distance)),
        ],
    )
}
