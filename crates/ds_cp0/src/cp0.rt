//! The registers of the system coprocessor.
ghost use Rattle.std.specs.Prelude.{◌≡◌, Some};
ghost use Rattle.ds_cp0.specs.System.{at_start, vector, with_address, entered, returned, reads, after_write, asid_of, is_user, is_pending};

use crate::exception::Exception;
use crate::register;
use crate::words::{
    cause_after, epc_of, popped, pushed, vector, with_base, with_page, with_requests, with_vpn,
    writable_index, writable_status,
};
use ds_word::bit;
use std::marker::Model;

/// What PRId reads.
const REVISION: u32 = 0x230;

/// The registers, which contracts see as the record of their words. Random and the requests of
/// the devices are not kept here, and read 0.
#[derive(Clone, Debug, Drop)]
pub struct Cp0 {
    index: u32,
    entry_lo: u32,
    context: u32,
    bad_vaddr: u32,
    entry_hi: u32,
    status: u32,
    cause: u32,
    epc: u32,
}

impl Model for Cp0 {
    ghost use Rattle.ds_cp0.specs.System.{System};

    ghost Value = { System };

    ghost view = { λ c. record {
      index = c.index;
      entry_lo = c.entry_lo;
      context = c.context;
      bad_vaddr = c.bad_vaddr;
      entry_hi = c.entry_hi;
      status = c.status;
      cause = c.cause;
      epc = c.epc;
    } };
}

impl Cp0 {
    /// All registers zero but PRId.
    pub fn new() -> Cp0
        ensures { result ≡ at_start }
    {
        Cp0 {
            index: 0,
            entry_lo: 0,
            context: 0,
            bad_vaddr: 0,
            entry_hi: 0,
            status: 0,
            cause: 0,
            epc: 0,
        }
    }

    /// The address space, 0 to 63.
    #[inline(always)]
    pub fn asid(&self) -> u8
        ensures { result ≡ asid_of self.now }
    {
        ((self.entry_hi >> 6) & 0x3f) as u8
    }

    /// Whether the processor is in user mode.
    #[inline(always)]
    pub fn user(&self) -> bool
        ensures { result ≡ is_user self.now }
    {
        (self.status >> 1) & 1 == 1
    }

    /// Whether an interrupt is to be taken, where the devices ask for one by IP2 (the system
    /// register) and IP3 (the clock).
    #[inline(always)]
    pub fn pending(&self, ip2: bool, ip3: bool) -> bool
        ensures { result ≡ is_pending self.now ip2 ip3 }
    {
        let mask = (self.status >> 8) & 0xff;
        let requests = ((self.cause >> 8) & 3) + bit(2, ip2) + bit(3, ip3);
        self.status & 1 == 1 && mask & requests != 0
    }

    /// What the register reads; 0 for a number that names none.
    #[inline(always)]
    pub fn read(&self, n: u8) -> u32
        ensures { result ≡ reads self.now n }
    {
        match n {
            register::INDEX => self.index,
            register::ENTRY_LO => self.entry_lo,
            register::CONTEXT => self.context,
            register::BAD_VADDR => self.bad_vaddr,
            register::ENTRY_HI => self.entry_hi,
            register::STATUS => self.status,
            register::CAUSE => self.cause,
            register::EPC => self.epc,
            register::PRID => REVISION,
            _ => 0,
        }
    }

    /// Writes the bits of the register that can be written.
    #[inline(always)]
    pub fn write(&mut self, n: u8, v: u32)
        ensures { self.new ≡ after_write self.old n v }
    {
        match n {
            register::INDEX => self.index = writable_index(v),
            register::ENTRY_LO => self.entry_lo = v & 0xffff_ff00,
            register::CONTEXT => self.context = with_base(self.context, v),
            register::ENTRY_HI => self.entry_hi = v & 0xffff_ffc0,
            register::STATUS => self.status = writable_status(v),
            register::CAUSE => self.cause = with_requests(self.cause, v),
            _ => {}
        }
    }

    /// Enters the exception, and answers the address of its handler.
    #[inline(always)]
    pub fn enter(&mut self, exception: Exception) -> u32
        ensures state { self.new ≡ entered self.old exception }
        ensures vector { result ≡ vector exception }
    {
        self.status = pushed(self.status);
        self.cause = cause_after(self.cause, &exception);
        self.epc = epc_of(&exception);
        if let Some(addr) = exception.addr {
            self.put_address(&exception, addr);
        }
        vector(&exception)
    }

    /// Returns to the mode before the exception.
    pub fn rfe(&mut self)
        ensures { self.new ≡ returned self.old }
    {
        self.status = popped(self.status);
    }

    /// Keeps the address that was refused.
    #[inline(always)]
    fn put_address(&mut self, exception: &Exception, addr: u32)
        ensures { self.new ≡ with_address self.old exception.now (Some addr) }
    {
        self.bad_vaddr = addr;
        if exception.code.is_translation() {
            self.context = with_page(self.context, addr);
            self.entry_hi = with_vpn(self.entry_hi, addr);
        }
    }
}
