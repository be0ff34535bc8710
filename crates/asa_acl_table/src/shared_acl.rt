//! Access lists that copies of a configuration share.
ghost use Rattle.std.specs.Prelude.{◌≡◌, ◌<◌, ◌≤◌, IfOk, IfSome, OnOk, length};
ghost use Rattle.asa_acl.specs.Acls.{with_line, without_at};
ghost use Rattle.asa_acl_table.specs.Lists.{list_of};

use asa_acl::{Acl, AclFault, AclLine};
use asa_base::Name;
use std::alloc::{AllocError, Global};
use std::marker::Model;
use std::sync::Arc;

/// A list that is copied where one of its owners changes it.
#[derive(Debug, Drop)]
struct OwnedList {
    acl: Acl,
}

impl Model for OwnedList {
    ghost use Rattle.asa_acl.specs.Acls.{AccessLines};

    ghost Value = { AccessLines };

    ghost view = { λ l. l.acl };
}

impl Clone for OwnedList {
    ghost use Rattle.std.specs.Prelude.{◌≡◌};

    ghost is_clone = { λ a b. b ≡ a };

    fn clone(&self) -> Result<OwnedList, AllocError> {
        let acl = self.acl.copy()?;
        Ok(OwnedList { acl })
    }
}

/// An access list. Copies of a configuration share it until one of them changes it.
#[derive(Debug, Drop)]
pub struct SharedAcl {
    list: Arc<OwnedList>,
}

impl Model for SharedAcl {
    ghost use Rattle.std.specs.Arc.{arc_value};
    ghost use Rattle.asa_acl.specs.Acls.{AccessLines};

    ghost Value = { AccessLines };

    ghost view = { λ k. arc_value k.list };
}

impl Clone for SharedAcl {
    ghost use Rattle.std.specs.Prelude.{◌≡◌};

    ghost is_clone = { λ a b. b ≡ a };

    fn clone(&self) -> Result<SharedAcl, AllocError> {
        let list = Arc::try_clone(&self.list)?;
        Ok(SharedAcl { list })
    }
}

/// Puts a line into a list that has room for it.
fn put_line(list: &mut OwnedList, place: Option<u32>, item: AclLine) -> Result<(), AllocError>
    requires counted { IfSome place (λ n. 1 ≤ n) }
    requires room { length list.old.lines < 65536 }
    ensures { OnOk result (list.new ≡ with_line list.old place item) }
{
    match list.acl.insert(place, item) {
        Ok(()) => Ok(()),
        Err(AclFault::TooMany) => unreachable!(),
        Err(AclFault::NoMemory) => Err(AllocError),
    }
}

impl SharedAcl {
    /// A list of one line.
    #[tactic(auto, unfolding(asa_acl::specs::Acls::with_line))]
    pub(crate) fn of(alloc: Global, name: Name, item: AclLine) -> Result<SharedAcl, AllocError>
        ensures { IfOk result (λ k. k ≡ list_of name item) }
    {
        let mut list = OwnedList {
            acl: Acl::new(alloc, name),
        };
        put_line(&mut list, None, item)?;
        let list = Arc::new(alloc, list)?;
        Ok(SharedAcl { list })
    }

    /// The list.
    pub fn acl(&self) -> &Acl
        ensures { result.now ≡ self.now }
    {
        &self.list.acl
    }

    /// Puts a line in.
    pub(crate) fn put(&mut self, place: Option<u32>, item: AclLine) -> Result<(), AllocError>
        requires counted { IfSome place (λ n. 1 ≤ n) }
        requires room { length self.old.lines < 65536 }
        ensures { OnOk result (self.new ≡ with_line self.old place item) }
    {
        let list = Arc::make_mut(&mut self.list)?;
        put_line(list, place, item)
    }

    /// Removes the line at a place.
    pub(crate) fn take(&mut self, place: u32) -> Result<(), AllocError>
        requires { place < length self.old.lines }
        ensures { OnOk result (self.new ≡ without_at self.old place) }
    {
        let list = Arc::make_mut(&mut self.list)?;
        list.acl.remove_at(place);
        Ok(())
    }
}
