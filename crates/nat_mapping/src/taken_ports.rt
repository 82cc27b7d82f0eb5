//! Marks of the ports that rows have at an address.
ghost use Rattle.std.specs.Prelude.{◌≡◌, ◌==◌, ◌||◌, ℕ, List, false, IfOk};
ghost use Rattle.aftr_base.specs.declared.value.Ip4.{Ip4};
ghost use Rattle.aftr_base.specs.declared.value.Proto.{Proto};
ghost use Rattle.nat_mapping.specs.Rows.{Mapping, MarksPorts, is_marked, least_free};

use aftr_base::NoMemory;
use std::alloc::Global;
use std::marker::Model;

// how many ports an address has for one protocol
const PORTS: usize = 65_536;

/// Marks of ports: `Table::search` marks those of one address that rows of one protocol have there. The marks before take no
/// pass to be gone.
#[derive(Drop)]
pub struct TakenPorts {
    // by port, the generation that it was marked in last
    stamps: Vec<u32>,
    // a port has a mark where its stamp is this one
    generation: u32,
}

impl Model for TakenPorts {
    ghost use Rattle.std.specs.Prelude.{◌≡◌, ◌≤◌, ◌==◌, All, Bool, List, ℕ, length, map};

    ghost Value = { List Bool };

    ghost view = { λ t. map (λ (stamp : ℕ). stamp == t.generation) t.stamps.items };

    ghost invariant = { λ t. (length t.stamps.items ≡ 65536)
        × All (λ (stamp : ℕ). stamp ≤ t.generation) t.stamps.items };
}

impl TakenPorts {
    /// No port with a mark. `NoMemory` comes where 65,536 stamps get no room.
    pub fn new(alloc: Global) -> Result<Self, NoMemory>
        ensures { IfOk result (λ taken. (port : ℕ) → is_marked taken port ≡ false) }
    {
        let stamps = vec![in alloc; 0; PORTS]?;
        Ok(TakenPorts {
            stamps,
            generation: 1,
        })
    }

    /// The least port from `first` to `last`, both included, that has no mark. Where the marks are of the ports that rows have
    /// at an address, it is the least one that is free there. Where `first` is greater there is none.
    pub fn least_free(&self, first: u16, last: u16) -> Option<u16>
        ensures { (proto : Proto) (addr : Ip4) (rows : List Mapping) → MarksPorts self.now proto addr rows
            → result ≡ least_free proto addr first last rows }
    {
        for port in first..=last {
            if !self.is_taken(port) {
                return Some(port);
            }
        }
        None
    }

    fn is_taken(&self, port: u16) -> bool
        ensures { result ≡ is_marked self.now port }
    {
        self.stamps[usize::from(port)] == self.generation
    }

    // lets all marks be gone
    pub(crate) fn begin(&mut self)
        ensures { (port : ℕ) → is_marked self.new port ≡ false }
    {
        if self.generation < u32::MAX {
            self.generation += 1;
        } else {
            self.stamps.fill(0);
            self.generation = 1;
        }
    }

    pub(crate) fn mark(&mut self, port: u16)
        ensures { (p : ℕ) → is_marked self.new p ≡ (is_marked self.old p || port == p) }
    {
        self.stamps[usize::from(port)] = self.generation;
    }
}
