//! That the calls are called at a type, and that the clauses mean what they should.
use crate::{
    MappedRef, NatFault, NatMeaning, RealRef, RuleFields, ServicePart, cases_of, names_of,
    opposite_undoes, rule_pairs, uses,
};
use asa_base::{Addr, Member, Name, Service};
use asa_text::Items;
use std::alloc::{AllocError, Global};
use std::process::Abort;
use std::test::Fail;

/// No name stands for anything, and each interface has the address 0.0.0.1.
#[derive(Clone, Copy, Debug)]
struct NoNames;

impl NatMeaning for NoNames {
    ghost use Rattle.std.specs.Prelude.{[], None, Some};

    ghost meanings = { λ _. record { members = λ _. []; service_range = λ _. None; address_of = λ _. Some (record { 0 = 1 }) } };

    fn members(&self, alloc: Global, _name: &Name) -> Result<Items<Member>, AllocError> {
        Ok(Items::new(alloc))
    }

    fn service_range(&self, _name: &Name) -> Option<Service> {
        None
    }

    fn address_of(&self, _ifc: u8) -> Option<Addr> {
        Some(Addr(1))
    }

    fn address_count(&self, _name: &Name) -> u64 {
        0
    }

    fn prefix_count(&self, _name: &Name) -> u64 {
        0
    }

    fn has_subnet(&self, _name: &Name) -> bool {
        false
    }
}

/// A static rule of the object `N`.
fn static_rule(mapped: MappedRef) -> Result<RuleFields, Fail> {
    let name = Name::new(b"N").ok_or("no name")?;
    Ok(RuleFields {
        section: 2,
        owner: Some(name.copy()),
        real_ifc: Some(1),
        mapped_ifc: Some(0),
        is_static: true,
        real: RealRef::Named(name),
        mapped,
        dest: None,
        service: ServicePart::None,
        unidirectional: false,
        inactive: false,
        route_lookup: false,
    })
}

#[test]
fn an_object_without_addresses_has_no_case_on_the_address_of_an_interface(
    rt: HostRuntime,
) -> Result<(), Fail> {
    let rule = static_rule(MappedRef::Interface)?;
    match cases_of(rt.alloc(), &NoNames, &rule) {
        Ok(_) => return Err("sizes that differ gave cases")?,
        Err(fault) => assert_eq!(rt; fault, NatFault::SizeDiffers { real: 0, mapped: 1 }),
    }
    Ok(())
}

#[test]
fn a_static_rule_has_two_cases(rt: HostRuntime) -> Result<(), Fail> {
    let rule = static_rule(MappedRef::Addr(Addr(u32::MAX)))?;
    opposite_undoes(&NoNames, &rule);
    let name = Name::new(b"N").ok_or("no name")?;
    assert!(rt; uses(&rule, &name));
    assert_eq!(rt; names_of(rt.alloc(), &rule)?.len(), 1);
    assert_eq!(rt; rule_pairs(&NoNames, &rule), 0);
    let Ok((forward, opposite)) = cases_of(rt.alloc(), &NoNames, &rule) else {
        return Err("no cases")?;
    };
    let opposite = opposite.ok_or("no opposite case")?;
    assert_eq!(rt; forward.from, Some(1));
    assert_eq!(rt; opposite.from, Some(0));
    Ok(())
}
