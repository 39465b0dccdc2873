//! The processed options of a request, in slots that take no memory of their own.

use crate::options::Item;
use std::marker::Model;

/// How many octets of options a request has at most, behind its header.
pub(crate) const MOST_OPTION_OCTETS: usize = 1076;

/// How many processed options a request has at most: as many FILTERs, of 24 octets each, as there is
/// room for, and each of the other three once.
pub(crate) const MOST_ITEMS: usize = 47;

/// At most [`MOST_ITEMS`] processed options, in the order of the message.
#[derive(Drop)]
pub(crate) struct ItemSlots {
    slots: [Item; MOST_ITEMS],
    count: usize,
}

impl Model for ItemSlots {
    ghost use Rattle.std.specs.Prelude.{◌≤◌, List, take};
    ghost use Rattle.pcp_options.specs.declared.options.Item.{Item};
    ghost use Rattle.pcp_options.specs.declared.slots.TheConstants.{MOST_ITEMS};

    ghost Value = { List Item };

    ghost view = { λ s. take s.count s.slots };

    ghost invariant = { λ s. s.count ≤ MOST_ITEMS };
}

impl ItemSlots {
    ghost use Rattle.std.specs.Prelude.{◌≡◌, ◌<◌, [], ◌∷◌, ◌++◌, length, IfSome};
    ghost use Rattle.std.specs.Option.{option_to_list};
    ghost use Rattle.pcp_options.specs.declared.slots.TheConstants.{MOST_ITEMS};

    /// No option.
    pub(crate) fn none() -> ItemSlots
        ensures { result ≡ [] }
    {
        ItemSlots {
            slots: [Item::PreferFailure; MOST_ITEMS],
            count: 0,
        }
    }

    /// The options, in the order of the message.
    pub(crate) fn items(&self) -> &[Item]
        ensures { result.now ≡ self.now }
    {
        &self.slots[..self.count]
    }

    /// Adds an option at the end, if there is one.
    pub(crate) fn note(&mut self, item: Option<Item>)
        requires { IfSome item (λ _. length self.old < MOST_ITEMS) }
        ensures { self.new ≡ self.old ++ option_to_list item }
    {
        if let Some(item) = item {
            self.push(item);
        }
    }

    /// Adds an option at the end.
    fn push(&mut self, item: Item)
        requires { length self.old < MOST_ITEMS }
        ensures { self.new ≡ self.old ++ item ∷ [] }
    {
        self.slots[self.count] = item;
        self.count += 1;
    }
}
