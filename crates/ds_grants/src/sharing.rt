//! Which processes may have what was shared from the entries of each.
ghost use Rattle.std.specs.Prelude.{◌≡◌, ℕ, ◌+◌, ◌<◌, ◌≤◌, true, false, length, slice_set, IfOk};
ghost use Rattle.ds_grants.specs.Inner.Origins.{Has, receivers_at, KeepsReceivers, KeepsOthers, MayHave};

use crate::origins::{EVERYONE, Origins};
use ds_mem::OutOfMemory;
use ds_policy::EntryPlace;
use std::alloc::{AllocError, Global};
use std::marker::Model;

/// For each process, by its number, the addresses from which something may have been shared. No
/// process has number 0.
#[derive(Drop)]
pub(crate) struct Sharing {
    origins: Vec<Origins>,
}

impl Model for Sharing {
    ghost use Rattle.std.specs.Prelude.{List};
    ghost use Rattle.ds_grants.specs.Inner.Origins.{OriginsState};

    ghost Value = { List OriginsState };

    ghost view = { λ s. s.origins.items };
}

impl Clone for Sharing {
    ghost is_clone = { λ x y. y ≡ x };

    fn clone(&self) -> Result<Self, AllocError> {
        let alloc = *self.origins.allocator();
        Ok(Sharing {
            origins: Vec::from_clones(alloc, self.origins.as_slice())?,
        })
    }
}

impl Sharing {
    /// That of so many processes, none of which has shared anything.
    pub(crate) fn none(alloc: Global, processes: usize) -> Result<Sharing, OutOfMemory>
        requires { processes ≤ 100 }
        ensures { IfOk result (λ s. length s ≡ processes + 1) }
    {
        match no_origins(alloc, processes + 1) {
            Ok(origins) => Ok(Sharing { origins }),
            Err(_) => Err(OutOfMemory),
        }
    }

    /// The processes that may have what was shared from the entry of a process at an address.
    pub(crate) fn receivers(&self, process: u32, addr: u32) -> u128
        ensures { result ≡ receivers_at self.now process addr }
    {
        match self.origins.get(process as usize) {
            Some(origins) => origins.receivers(addr),
            None => EVERYONE,
        }
    }

    /// Whether something may have been shared from any entry of a process.
    pub(crate) fn has_shared(&self, process: u32) -> bool
        ensures { result ≡ false → (a : ℕ) → receivers_at self.now process a ≡ 0 }
    {
        match self.origins.get(process as usize) {
            Some(origins) => origins.are_any(),
            None => true,
        }
    }

    /// From now on these processes may have what was shared from a place too, if there is one.
    pub(crate) fn add(&mut self, place: Option<EntryPlace>, receivers: u128)
        ensures added { MayHave self.new place receivers }
        ensures kept { KeepsReceivers self.old self.new }
    {
        if let Some(place) = place {
            self.add_at(place.process, place.address, receivers);
        }
    }

    /// The processes that may have what was shared from the entry of a process at an address. From now on
    /// nothing is known to have been shared from there.
    pub(crate) fn take(&mut self, process: u32, addr: u32) -> u128
        ensures receivers { result ≡ receivers_at self.old process addr }
        ensures others { KeepsOthers process addr self.old self.new }
    {
        let place = process as usize;
        if place < self.origins.len() {
            return self.origins[place].take(addr);
        }
        EVERYONE
    }

    /// Whether there was no room to know another address of a process.
    pub(crate) fn has_overflowed(&self, process: u32) -> bool
        ensures { result ≡ true → process < length self.now }
    {
        match self.origins.get(process as usize) {
            Some(origins) => origins.has_overflowed(),
            None => false,
        }
    }

    /// Knows these addresses of a process instead.
    pub(crate) fn replace(&mut self, process: u32, origins: Origins)
        requires { process < length self.old }
        ensures { self.new ≡ slice_set self.old process origins }
    {
        self.origins[process as usize] = origins;
    }

    fn add_at(&mut self, process: u32, addr: u32, receivers: u128)
        ensures added { (q : ℕ) → Has receivers q → Has (receivers_at self.new process addr) q }
        ensures kept { KeepsReceivers self.old self.new }
    {
        let place = process as usize;
        if place < self.origins.len() {
            self.origins[place].add(addr, receivers);
        }
    }
}

/// For each of so many processes no address.
fn no_origins(alloc: Global, processes: usize) -> Result<Vec<Origins>, AllocError>
    ensures { IfOk result (λ origins. length origins.items ≡ processes) }
{
    let mut origins = Vec::with_capacity(alloc, processes)?;
    for _ in 0..processes {
        origins.push(Origins::none())?;
    }
    Ok(origins)
}

/// The set of one process.
pub(crate) fn only(process: u32) -> u128
    requires { process < 128 }
    ensures { Has result process }
{
    1 << process
}
