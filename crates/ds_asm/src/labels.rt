//! The labels of a source.
ghost use Rattle.std.specs.Prelude.{◌≡◌, ◌∷◌, [], IfOk, not, false, true, is_some};
ghost use Rattle.ds_asm.specs.Inner.Assembling.{Holds, held_address};
ghost use Rattle.ds_asm.specs.Assembly as assembly;

use std::alloc::{AllocError, Global};
use std::collections::BTreeMap;

/// Labels with their addresses.
#[derive(Drop)]
pub(crate) struct Labels<'a> {
    addresses: BTreeMap<&'a [u8], u32>,
}

impl<'a> Labels<'a> {
    /// No labels.
    pub(crate) fn new(alloc: Global) -> Labels<'a>
        ensures { Holds result [] }
    {
        Labels {
            addresses: BTreeMap::new(alloc),
        }
    }

    /// The address of a label.
    pub(crate) fn address_of(&self, name: &'a [u8]) -> Option<u32>
        ensures { result ≡ held_address self.now name.now }
    {
        self.addresses.get(&name).copied()
    }

    /// Adds a label if its name is new, and says whether it is.
    pub(crate) fn add(&mut self, name: &'a [u8], address: u32) -> Result<bool, AllocError>
        ensures new { IfOk result (λ is_new.
            is_new ≡ not (is_some (held_address self.old name.now))) }
        ensures left { IfOk result (λ is_new. is_new ≡ false → self.new ≡ self.old) }
        ensures added { IfOk result (λ is_new. is_new ≡ true → (labels : assembly.Labels)
            → Holds self.old labels → Holds self.new ((name.now, address) ∷ labels)) }
    {
        if self.address_of(name).is_some() {
            return Ok(false);
        }
        self.addresses.insert(name, address)?;
        Ok(true)
    }
}
