//! A vector that contracts see as a list.
ghost use Rattle.std.specs.Prelude.{◌≡◌, ◌<◌, ◌++◌, ◌↔◌, [], ◌∷◌, length, map, set, IsTrue, IfOk, OnOk, OnErr};
ghost use Rattle.std.specs.Fn.{CalledAt};
ghost use Rattle.std.specs.List.Retain.{IsFiltered};

use crate::memory::NoMemory;
use std::alloc::Global;
use std::marker::Model;

/// A `Vec` that contracts see as the list of its elements.
#[derive(Debug, Drop)]
pub struct List<T> {
    items: Vec<T>,
}

impl<T> Model for List<T> {
    ghost use Rattle.std.specs.Prelude.{List as Items};
    ghost use Rattle.std.specs.Coded.{coded_list};

    ghost Value = { Items T };

    ghost coded = { coded_list T.code };

    ghost view = { λ it. it.items.items };
}

impl<T> List<T> {
    /// An empty list, which takes no memory.
    pub fn new(alloc: Global) -> Self
        ensures { result ≡ [] }
    {
        List {
            items: Vec::new(alloc),
        }
    }

    /// The list of these elements. It takes the vector over and needs no further memory.
    pub fn from_vec(items: Vec<T>) -> Self
        ensures { result ≡ items.items }
    {
        List { items }
    }

    /// The elements, given back without taking memory.
    pub fn into_vec(self) -> Vec<T>
        ensures { result.items ≡ self }
    {
        let List { items } = self;
        items
    }

    /// The elements in order.
    pub fn as_slice(&self) -> &[T]
        ensures { result.now ≡ self.now }
    {
        self.items.as_slice()
    }

    /// How many elements there are.
    pub fn len(&self) -> usize
        ensures { result ≡ length self.now }
    {
        self.items.len()
    }

    /// Whether there is no element.
    pub fn is_empty(&self) -> bool
        ensures { IsTrue result ↔ (self.now ≡ []) }
    {
        self.items.is_empty()
    }

    /// Adds an element behind the others. `NoMemory` changes nothing.
    pub fn push(&mut self, value: T) -> Result<(), NoMemory>
    where
        T: Drop,
        ensures ok { OnOk result (self.new ≡ self.old ++ value ∷ []) }
        ensures err { OnErr result (self.new ≡ self.old) }
    {
        self.items.push(value)?;
        Ok(())
    }

    /// Adds copies of these elements behind the others. `NoMemory` changes nothing.
    pub fn extend_from_slice(&mut self, more: &[T]) -> Result<(), NoMemory>
    where
        T: Copy,
        ensures ok { OnOk result (self.new ≡ self.old ++ more.now) }
        ensures err { OnErr result (self.new ≡ self.old) }
    {
        self.items.extend_from_slice(more)?;
        Ok(())
    }

    /// Puts a value in the place of the element at an index.
    pub fn set(&mut self, at: usize, value: T)
    where
        T: Drop,
        requires { at < length self.old }
        ensures { self.new ≡ set self.old at value }
    {
        self.items[at] = value;
    }

    /// Keeps the elements that pass the test, in their order. It takes no memory.
    pub fn retain<F: FnMut(&T) -> bool>(&mut self, keep: F)
    where
        T: Drop,
        requires { F.IsAlwaysCallable keep }
        ensures { IsFiltered (CalledAt F.FnMut) keep self.old self.new }
    {
        self.items.retain(keep);
    }

    /// Lets the elements go and keeps their room.
    pub fn clear(&mut self)
    where
        T: Drop,
        ensures { self.new ≡ [] }
    {
        self.items.clear();
    }
}

/// Packets in order, each as its bytes.
#[derive(Debug, Drop)]
pub struct Packets {
    packets: Vec<Vec<u8>>,
}

impl Model for Packets {
    ghost use Rattle.std.specs.Prelude.{List as Items, ℕ, map, Vec};
    ghost use Rattle.std.specs.declared.alloc.Global.{Global};

    ghost Value = { Items (Items ℕ) };

    ghost view = { λ it. map (λ (packet : Vec ℕ Global). packet.items) it.packets.items };
}

impl Packets {
    /// No packets, which takes no memory.
    pub fn new(alloc: Global) -> Self
        ensures { result ≡ [] }
    {
        Packets {
            packets: Vec::new(alloc),
        }
    }

    /// What the packets take their memory from.
    pub fn allocator(&self) -> Global {
        *self.packets.allocator()
    }

    /// The packets of these bytes. It takes the vector over and needs no further memory.
    pub fn from_vec(packets: Vec<Vec<u8>>) -> Self
        ensures { result ≡ map (λ packet. packet.items) packets.items }
    {
        Packets { packets }
    }

    /// The packets' bytes, given back without taking memory.
    pub fn into_vec(self) -> Vec<Vec<u8>>
        ensures { map (λ packet. packet.items) result.items ≡ self }
    {
        let Packets { packets } = self;
        packets
    }

    /// How many packets there are.
    pub fn len(&self) -> usize
        ensures { result ≡ length self.now }
    {
        self.packets.len()
    }

    /// Adds a packet behind the others. `NoMemory` changes nothing.
    pub fn push(&mut self, packet: Vec<u8>) -> Result<(), NoMemory>
        ensures ok { OnOk result (self.new ≡ self.old ++ packet.items ∷ []) }
        ensures err { OnErr result (self.new ≡ self.old) }
    {
        self.packets.push(packet)?;
        Ok(())
    }
}
