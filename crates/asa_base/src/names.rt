//! Names of interfaces, objects and lists.
ghost use Rattle.std.specs.Prelude.{◌≡◌, ℕ, ◌↔◌, ◌≤◌, ◌<◌, IsTrue, IsSome, IfSome, nat_eq, length};
ghost use Rattle.std.specs.Cmp.{partial_equiv_from_equiv};
ghost use Rattle.std.specs.Cmp.Lexicographic.{pointwise, nat_list_eq_equiv};
ghost use Rattle.std.specs.Cmp.Rules.{hashing};
ghost use Rattle.std.specs.Hash as fed;
ghost use Rattle.std.proofs.Common.{rules};
ghost use Rattle.std.specs.List.{list_all};
ghost use Rattle.asa_base.specs.Names.{has_name_length, is_graphic, is_name};

use arrayvec::ArrayString;
use std::alloc::AllocError;
use std::hash::{Hash, Hasher};
use std::marker::Model;
use std::str;

/// A name: 1 to 64 bytes from 0x21 to 0x7e, which contracts see as these bytes. It takes no memory.
#[derive(Debug, Drop)]
pub struct Name(ArrayString<64>);

impl Model for Name {
    ghost use Rattle.std.specs.Prelude.{List, ℕ, IsTrue};
    ghost use Rattle.asa_base.specs.Names.{is_name};

    ghost Value = { List ℕ };

    ghost view = { λ n. n.0.bytes };

    ghost invariant = { λ n. IsTrue (is_name n.0.bytes) };
}

fn is_graphic_byte(byte: u8) -> bool
    ensures { result ≡ is_graphic byte }
{
    byte >= 33 && byte <= 126
}

fn has_name_length(bytes: &[u8]) -> bool
    ensures { result ≡ has_name_length bytes.now }
{
    !bytes.is_empty() && bytes.len() <= 64
}

fn are_all_graphic(bytes: &[u8]) -> bool
    ensures { result ≡ list_all is_graphic bytes.now }
{
    bytes.iter().all(|b| is_graphic_byte(*b))
}

fn is_name_text(bytes: &[u8]) -> bool
    ensures { result ≡ is_name bytes.now }
{
    has_name_length(bytes) && are_all_graphic(bytes)
}

impl Name {
    /// The name of these bytes, or None exactly where they are no name.
    pub fn new(bytes: &[u8]) -> Option<Name>
        ensures named { IsSome result ↔ IsTrue (is_name bytes.now) }
        ensures value { IfSome result (λ n. n ≡ bytes.now) }
    {
        if !is_name_text(bytes) {
            return None;
        }
        let Ok(text) = str::from_utf8(bytes) else {
            unreachable!()
        };
        match ArrayString::from(text) {
            Ok(name) => Some(Name(name)),
            Err(_) => unreachable!(),
        }
    }

    /// The bytes of the name.
    pub fn bytes(&self) -> &[u8]
        ensures value { result.now ≡ self.now }
        ensures named { IsTrue (is_name result.now) }
    {
        self.0.as_str().as_bytes()
    }

    /// The same name.
    pub fn copy(&self) -> Name
        ensures { result ≡ self.now }
    {
        Name(self.0)
    }
}

impl Clone for Name {
    ghost is_clone = { λ a b. b ≡ a };

    ghost is_infallible = { λ _. Unit {0} };

    fn clone(&self) -> Result<Name, AllocError> {
        Ok(self.copy())
    }
}

impl PartialEq for Name {
    ghost eq = { pointwise nat_eq };

    ghost laws = { partial_equiv_from_equiv nat_list_eq_equiv };

    fn eq(&self, other: &Name) -> bool {
        self.bytes() == other.bytes()
    }
}

impl Eq for Name {
    ghost laws = { nat_list_eq_equiv };
}

impl Hash for Name {
    ghost hash_input = { λ s. fed.str s };

    ghost respects_eq = { Prim.search (hashing, rules) };

    fn hash<H: Hasher>(&self, state: &mut H) {
        self.0.as_str().hash(state);
    }
}
