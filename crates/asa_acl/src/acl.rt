//! Access lists, and the lines that they hold.
ghost use Rattle.std.specs.Prelude.{◌≡◌, ℕ, ◌+◌, ◌-◌, ◌^◌, ◌<◌, ◌≤◌, ◌↔◌, List, [], length, insert, remove, OnOk, OnErr, IfOk, IfSome, IsErrOf, is_some};
ghost use Rattle.std.specs.Option.{option_copied};
ghost use Rattle.asa_acl.specs.Acls as spec;

use crate::held_line::{HeldLine, place_of_equal, share_lines};
use asa_acl_line::AclLine;
use asa_base::Name;
use std::alloc::{AllocError, Global};
use std::marker::Model;

/// How many lines a list may have.
pub const MOST_LINES: u32 = 65536;

/// Why a line isn't put into a list.
#[derive(Clone, Copy, Debug, PartialEq, Eq)]
pub enum AclFault {
    /// The list has 65,536 lines.
    TooMany,
    /// Memory ran out.
    NoMemory,
}

impl From<AllocError> for AclFault {
    ghost use Rattle.std.specs.Prelude.{◌≡◌};
    ghost use Rattle.asa_acl.specs.declared.acl.AclFault.TheVariants as fault;

    ghost from_gives = { λ _ r. r ≡ fault.NoMemory };

    fn from(_: AllocError) -> AclFault {
        AclFault::NoMemory
    }
}

/// An access list: its name and at most 65,536 lines in order, numbered from 1.
#[derive(Debug, Drop)]
pub struct Acl {
    name: Name,
    lines: Vec<HeldLine>,
    alloc: Global,
}

impl Model for Acl {
    ghost use Rattle.std.specs.Prelude.{◌≤◌, length};
    ghost use Rattle.asa_acl.specs.Acls.{AccessLines};

    ghost Value = { AccessLines };

    ghost view = { λ a. record { name = a.name; lines = a.lines.items } };

    ghost invariant = { λ a. length a.lines.items ≤ 65536 };
}

/// How many of the present lines, of which there are `len`, stand before a new one.
fn lines_before(line: Option<u32>, len: usize) -> usize
    requires { IfSome line (λ n. 1 ≤ n) }
    ensures value { result ≡ spec.lines_before line len }
    ensures within { result ≤ len }
{
    match line {
        None => len,
        Some(n) => len.min((n - 1) as usize),
    }
}

impl Acl {
    /// A list without a line; takes no memory.
    pub fn new(alloc: Global, name: Name) -> Acl
        ensures { result ≡ record { name = name; lines = [] } }
    {
        Acl {
            name,
            lines: Vec::new(alloc),
            alloc,
        }
    }

    /// The name of the list.
    pub fn name(&self) -> &Name
        ensures { result.now ≡ self.now.name }
    {
        &self.name
    }

    /// The lines in order; line n stands at n - 1.
    pub fn lines(&self) -> &[HeldLine]
        ensures value { result.now ≡ self.now.lines }
        ensures few { length result.now ≤ 65536 }
    {
        self.lines.as_slice()
    }

    /// How many lines there are.
    pub fn len(&self) -> u32
        ensures value { result ≡ length self.now.lines }
        ensures few { result ≤ 65536 }
    {
        self.lines.len() as u32
    }

    /// Line n, counted from 1, or None exactly where there is none.
    pub fn get(&self, line: u32) -> Option<&AclLine>
        ensures { option_copied result ≡ spec.line_at line self.now.lines }
    {
        if line == 0 {
            return None;
        }
        let held = self.lines.get((line - 1) as usize)?;
        Some(held.line())
    }

    /// Puts a line before the present line n; without n, and past the end, it goes last. After a refusal the list is as
    /// it was.
    #[tactic(auto, unfolding(crate::specs::Acls::with_line))]
    pub fn insert(&mut self, line: Option<u32>, item: AclLine) -> Result<(), AclFault>
        requires { IfSome line (λ n. 1 ≤ n) }
        ensures ok { OnOk result (self.new ≡ spec.with_line self.old line item) }
        ensures err { OnErr result (self.new ≡ self.old) }
        ensures full { IsErrOf result AclFault.TooMany ↔ (length self.old.lines ≡ 65536) }
    {
        if self.len() >= MOST_LINES {
            return Err(AclFault::TooMany);
        }
        let place = lines_before(line, self.lines.len());
        let held = HeldLine::new(self.alloc, item)?;
        self.put(place, held)?;
        Ok(())
    }

    /// Puts a line where `place` lines stand before it. On want of memory the list is as it was.
    fn put(&mut self, place: usize, held: HeldLine) -> Result<(), AllocError>
        requires room { length self.old.lines < 65536 }
        requires within { place ≤ length self.old.lines }
        ensures ok { OnOk result (self.new ≡ record self.old { lines = insert self.old.lines place held }) }
        ensures err { OnErr result (self.new ≡ self.old) }
    {
        self.lines.reserve(1)?;
        match self.lines.insert(place, held) {
            Ok(()) => Ok(()),
            Err(_) => unreachable!(),
        }
    }

    /// How many lines stand before the first that is equal to this one, where there is one; takes no memory.
    pub fn place_of_equal(&self, item: &AclLine) -> Option<u32>
        ensures value { result ≡ spec.place_of_equal item.now self.now.lines }
        ensures within { IfSome result (λ i. i < length self.now.lines) }
        ensures few { IfSome result (λ i. i < 65536) }
    {
        let place = place_of_equal(self.lines.as_slice(), item)?;
        Some(place as u32)
    }

    /// Removes the line at a place, counted from 0; takes no memory.
    pub fn remove_at(&mut self, place: u32)
        requires { place < length self.old.lines }
        ensures { self.new ≡ spec.without_at self.old place }
    {
        let _line = self.lines.remove(place as usize);
    }

    /// Removes the first line that is equal to this one, and answers whether there was one; takes no memory.
    #[tactic(auto, unfolding(crate::specs::Acls::without_equal))]
    pub fn remove_equal(&mut self, item: &AclLine) -> bool
        ensures found { result ≡ is_some (spec.place_of_equal item.now self.old.lines) }
        ensures left { self.new ≡ spec.without_equal self.old item.now }
    {
        let Some(place) = self.place_of_equal(item) else {
            return false;
        };
        self.remove_at(place);
        true
    }

    /// Whether some line uses the object or group of this name.
    #[tactic(auto, unfolding(crate::specs::Acls::list_uses))]
    pub fn uses(&self, name: &Name) -> bool
        ensures { result ≡ spec.list_uses name.now self.now }
    {
        self.lines.iter().any(|held| held.line().uses(name))
    }

    /// A copy, which shares the lines.
    pub fn copy(&self) -> Result<Acl, AllocError>
        ensures { IfOk result (λ a. a ≡ self.now) }
    {
        Ok(Acl {
            name: self.name.copy(),
            lines: share_lines(self.alloc, self.lines.as_slice())?,
            alloc: self.alloc,
        })
    }
}
