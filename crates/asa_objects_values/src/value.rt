//! The value of a name: what its block defines, and its members.
ghost use Rattle.std.specs.Prelude.{◌≡◌, [], IfOk, OnOk, OnErr};
ghost use Rattle.std.specs.Option.{option_copied};
ghost use Rattle.asa_objects_values.specs.Definition.{has_item};
ghost use Rattle.asa_objects_values.specs.Drafts.{AreDistinct, AreNew, changed_entry, standing};
ghost use Rattle.asa_objects_values.specs.Tables.{group_of, named};

use crate::item_order::OrderedItems;
use asa_base::Name;
use asa_objects_lines::{BlockKind, GroupKind, Item};
use indexmap::IndexSet;
use std::alloc::{AllocError, Global};
use std::marker::Model;
use std::sync::Arc;

/// What a name stands for: its members in order, none twice.
#[derive(Debug, Drop)]
struct Content {
    block: BlockKind,
    items: OrderedItems,
}

impl Model for Content {
    ghost use Rattle.asa_objects_values.specs.Tables.{Entry};

    ghost Value = { Entry };

    ghost view = { λ c. record { block = c.block; items = c.items } };
}

/// What a name stands for. Copies share the members until one of them changes.
#[derive(Debug, Drop)]
pub struct Stated {
    content: Arc<Content>,
}

impl Model for Stated {
    ghost use Rattle.std.specs.Arc.{arc_value};
    ghost use Rattle.asa_objects_values.specs.Tables.{Entry};

    ghost Value = { Entry };

    ghost view = { λ s. arc_value s.content };
}

/// The form of the members of a name.
pub fn group_of(block: BlockKind) -> GroupKind
    ensures { result ≡ group_of block }
{
    match block {
        BlockKind::NetObject => GroupKind::Network,
        BlockKind::ServiceObject => GroupKind::Service,
        BlockKind::Group(group) => group,
    }
}

/// The name that a member refers to.
pub fn name_in(item: &Item) -> Option<&Name>
    ensures { option_copied result ≡ named item.now }
{
    match item {
        Item::Object(name) | Item::Group(name) => Some(name),
        Item::Network(_)
        | Item::Service(_)
        | Item::Port(_)
        | Item::Protocol(_)
        | Item::IcmpType(_) => None,
    }
}

impl Content {
    /// Takes out the members that go, and adds others at the end. On want of memory all is as before.
    fn change(&mut self, gone: &IndexSet<Item>, added: &OrderedItems) -> Result<(), AllocError>
        requires { AreNew (standing self.old.items gone.now.keys) added.now }
        ensures ok { OnOk result (self.new ≡ changed_entry self.old gone.now.keys added.now) }
        ensures err { OnErr result (self.new ≡ self.old) }
    {
        self.items.change(gone, added)
    }

    fn block(&self) -> BlockKind
        ensures { result ≡ self.now.block }
    {
        self.block
    }

    fn items(&self) -> &OrderedItems
        ensures { result.now ≡ self.now.items }
    {
        &self.items
    }
}

impl Clone for Content {
    ghost use Rattle.std.specs.Prelude.{◌≡◌};

    ghost is_clone = { λ a b. b ≡ a };

    fn clone(&self) -> Result<Content, AllocError> {
        let items = self.items.copy()?;
        Ok(Content {
            block: self.block,
            items,
        })
    }
}

impl Stated {
    /// The value without members.
    pub fn empty(alloc: Global, block: BlockKind) -> Result<Stated, AllocError>
        ensures { IfOk result (λ s. s ≡ record { block = block; items = [] }) }
    {
        let content = Content {
            block,
            items: OrderedItems::new(alloc),
        };
        let content = Arc::new(alloc, content)?;
        Ok(Stated { content })
    }

    /// Takes out the members that go, and adds others at the end: in place where no copy shares the members, else to members
    /// of its own. On want of memory all is as before.
    pub fn change(&mut self, gone: &IndexSet<Item>, added: &OrderedItems) -> Result<(), AllocError>
        requires { AreNew (standing self.old.items gone.now.keys) added.now }
        ensures ok { OnOk result (self.new ≡ changed_entry self.old gone.now.keys added.now) }
        ensures err { OnErr result (self.new ≡ self.old) }
    {
        let content = Arc::make_mut(&mut self.content)?;
        content.change(gone, added)
    }

    /// What its block defines.
    pub fn block(&self) -> BlockKind
        ensures { result ≡ self.now.block }
    {
        self.content.block()
    }

    /// Its members.
    pub fn items(&self) -> &OrderedItems
        ensures { result.now ≡ self.now.items }
    {
        self.content.items()
    }

    /// Whether a member is there.
    pub fn has(&self, item: &Item) -> bool
        ensures value { result ≡ has_item self.now.items item.now }
        ensures distinct { AreDistinct self.now.items }
    {
        self.items().has(item)
    }
}

impl Clone for Stated {
    ghost use Rattle.std.specs.Prelude.{◌≡◌};

    ghost is_clone = { λ a b. b ≡ a };

    fn clone(&self) -> Result<Stated, AllocError> {
        let content = Arc::try_clone(&self.content)?;
        Ok(Stated { content })
    }
}
