//! The keys in one order.
ghost use Rattle.std.specs.Prelude.{◌≡◌, [], IfOk, OnOk, OnErr, not};
ghost use Rattle.std.specs.Bool.{OnFalse};
ghost use Rattle.std.specs.List.Sorted.{IsStrictlySortedBy};
ghost use Rattle.quad_index.specs.declared.key.QuadKey.{QuadKey as Key};
ghost use Rattle.quad_index.specs.Order.{placed_cmp, arranged};
ghost use Rattle.quad_index.specs.Ordered.{keeps, with_key, without_key, keys_of, from_key};

use crate::key::QuadKey;
use crate::order::{Order, Placed, arranged, restored};
use crate::steps::Walk;
use delta_base::OutOfMemory;
use std::alloc::Global;
use std::collections::BTreeSet;
use std::marker::Model;

/// An order, and the keys in it.
#[derive(Drop)]
pub(crate) struct Ordered {
    order: Order,
    keys: BTreeSet<Placed>,
}

impl Model for Ordered {
    ghost use Rattle.quad_index.specs.Ordered.{OrderedKeys};

    ghost Value = { OrderedKeys };

    ghost view = { λ a. record { order = a.order; keys = a.keys.keys } };
}

impl Ordered {
    pub(crate) fn new(alloc: Global, order: Order) -> Ordered
        ensures { result ≡ record { order = order; keys = [] } }
    {
        Ordered {
            order,
            keys: BTreeSet::new(alloc),
        }
    }

    pub(crate) fn order(&self) -> Order
        ensures { result ≡ self.now.order }
    {
        self.order
    }

    pub(crate) fn contains(&self, key: &QuadKey) -> bool
        ensures found { result ≡ keeps self.now key.now }
        ensures sorted { IsStrictlySortedBy placed_cmp self.now.keys }
    {
        self.keys.len();
        self.keys.contains(&arranged(self.order, key))
    }

    /// Adds a key, and says whether it is new.
    pub(crate) fn insert(&mut self, key: &QuadKey) -> Result<bool, OutOfMemory>
        ensures added { IfOk result (λ added. added ≡ not (keeps self.old key.now)) }
        ensures ok { OnOk result (self.new ≡ with_key key.now self.old) }
        ensures again { IfOk result (λ added. OnFalse added (self.new ≡ self.old)) }
        ensures err { OnErr result (self.new ≡ self.old) }
    {
        Ok(self.keys.insert(arranged(self.order, key))?)
    }

    pub(crate) fn remove(&mut self, key: &QuadKey)
        ensures removed { self.new ≡ without_key key.now self.old }
        ensures sorted { IsStrictlySortedBy placed_cmp self.old.keys }
    {
        self.keys.len();
        self.keys.remove(&arranged(self.order, key));
    }

    /// All keys, in the order.
    pub(crate) fn all(&self, alloc: Global) -> Result<Vec<QuadKey>, OutOfMemory>
        ensures { IfOk result (λ all. all.items ≡ keys_of self.now) }
    {
        let order = self.order;
        Ok(
            self.keys
                .iter()
                .map(|placed| restored(order, placed))
                .collect(alloc)?,
        )
    }

    /// A walk over the keys, from where this key stands or would stand.
    pub(crate) fn walk(&self, low: &QuadKey) -> Walk<'_>
        ensures left { result ≡ from_key (arranged self.now.order low.now) self.now.keys }
        ensures sorted { IsStrictlySortedBy placed_cmp self.now.keys }
    {
        Walk::new(&self.keys, arranged(self.order, low))
    }

    /// The same keys in another order.
    pub(crate) fn in_order(&self, alloc: Global, order: Order) -> Result<Ordered, OutOfMemory>
        ensures order { IfOk result (λ made. made.order ≡ order) }
        ensures same { IfOk result (λ made. (key : Key) → keeps made key ≡ keeps self.now key) }
    {
        let from = self.order;
        let keys = self
            .keys
            .iter()
            .map(|placed| arranged(order, &restored(from, placed)))
            .collect(alloc)?;
        Ok(Ordered { order, keys })
    }
}
