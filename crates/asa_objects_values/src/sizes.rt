//! How much a member of a network object or group has.
ghost use Rattle.std.specs.Prelude.{◌≡◌, ◌≤◌, ◌^◌};
ghost use Rattle.asa_objects_values.specs.Sizes as spec;

use asa_base::Member;

/// How many addresses a member has.
pub fn address_count(member: Member) -> u64
    ensures value { result ≡ spec.member_address_count member }
    ensures few { result ≤ 2 ^ 32 }
{
    let range = member.range();
    u64::from(range.last.0) + 1 - u64::from(range.first.0)
}

/// Whether a member is a network.
fn is_subnet(member: Member) -> bool
    ensures { result ≡ spec.is_subnet member }
{
    matches!(member, Member::Subnet(_))
}

/// How many networks a member is: one, or none.
pub fn subnet_count(member: Member) -> u64
    ensures value { result ≡ spec.subnet_count member }
    ensures few { result ≤ 1 }
{
    u64::from(is_subnet(member))
}
