//! Why the processor left the program, as the coprocessor's registers tell it.
ghost use Rattle.std.specs.Prelude.{◌≡◌, ◌==◌, ◌<◌, ◌≤◌, ◌^◌, length, IfSome};
ghost use Rattle.ds_grants.specs.State.{frame_of_page, page_state};
ghost use Rattle.ds_grants.specs.Sound.{NamesPages};
ghost use Rattle.ds_refinement.specs.Told.{code_in, is_delayed, own_in, kind_told, size_told, size_at, told};
ghost use Rattle.ds_kernel.specs.Inner.Places.{place_in_memory};

use crate::parts::Parts;
use ds_cp0::register;
use ds_isa::{Kind, Size, access_size};
use ds_policy::{Access, Verdict};
use ds_refinement::Cause;
use ds_tlb::Lookaside;
use ds_word::wrapping_sum;

/// The exception code of a system call.
const SYSTEM_CALL: u8 = 8;

impl<L: Lookaside> Parts<L> {
    /// The exception's code.
    fn code(&self) -> u8
        ensures { result ≡ code_in self.now.core.system }
    {
        ((self.core.cp0.read(register::CAUSE) >> 2) & 0xf) as u8
    }

    /// Whether a call left the program.
    #[inline(always)]
    pub(crate) fn is_call(&self) -> bool
        ensures { result ≡ (code_in self.now.core.system == 8) }
    {
        self.code() == SYSTEM_CALL
    }

    /// Whether the instruction stood in the slot of a branch.
    pub(crate) fn is_delayed(&self) -> bool
        ensures { result ≡ is_delayed self.now.core.system }
    {
        (self.core.cp0.read(register::CAUSE) >> 31) & 1 == 1
    }

    /// The address of the unit: in a slot that of its branch.
    pub(crate) fn unit_address(&self) -> u32
        ensures { result ≡ self.now.core.system.epc }
    {
        self.core.cp0.read(register::EPC)
    }

    /// The address of the instruction itself.
    pub(crate) fn own_address(&self) -> u32
        ensures { result ≡ own_in self.now.core.system }
    {
        let unit = self.unit_address();
        if self.is_delayed() {
            wrapping_sum(unit, 4)
        } else {
            unit
        }
    }

    /// The address that was refused.
    pub(crate) fn bad_address(&self) -> u32
        ensures { result ≡ self.now.core.system.bad_vaddr }
    {
        self.core.cp0.read(register::BAD_VADDR)
    }

    /// The kind of the access that was refused.
    fn kind(&self) -> Kind
        ensures { result ≡ kind_told self.now.core.system }
    {
        let code = self.code();
        if code == 1 || code == 3 || code == 5 {
            Kind::Store
        } else if self.bad_address() == self.own_address() {
            Kind::Fetch
        } else {
            Kind::Load
        }
    }

    /// The frame in which a page lies, of those that memory has.
    pub fn frame_of(&self, page: u32) -> u32
        requires { page < self.now.monitor.grants.frames }
        ensures value { result ≡ frame_of_page self.now.monitor.grants page }
        ensures within { result < 1426 }
    {
        let _table = self.monitor.grants.table();
        self.monitor.grants.frame_of_page(page)
    }

    /// Where the instruction of a process at an address lies in memory, if the table lets the
    /// process fetch it.
    fn place_in_memory(&self, process: u32, address: u32) -> Option<u32>
        requires above { 0 < process }
        requires within { process ≤ length self.now.monitor.grants.table }
        ensures value { result ≡ place_in_memory self.now.monitor.grants process address }
        ensures inside { IfSome result (λ place. place < 2 ^ 23) }
        ensures pages { NamesPages self.now.monitor.grants }
    {
        let access = Access {
            kind: Kind::Fetch,
            size: Size::Word,
        };
        match self.monitor.grants.table().decide(process, access, address) {
            Verdict::Allowed { page, offset } => Some(self.frame_of(page) * 4096 + offset),
            Verdict::Denied { .. } => None,
        }
    }

    /// The size that the instruction of a process at an address asks for.
    fn size_at(&mut self, process: u32, address: u32) -> Size
        requires above { 0 < process }
        requires within { process ≤ length self.old.monitor.grants.table }
        requires memory { length self.old.bus.memory ≡ 2 ^ 23 }
        ensures value { result
            ≡ size_at (page_state self.old.monitor.grants self.old.bus.memory) process address }
        ensures same { self.new ≡ self.old }
    {
        match self.place_in_memory(process, address) {
            Some(place) => {
                let instr = self.bus.fetch(place);
                access_size(&instr).unwrap_or(Size::Word)
            }
            None => Size::Word,
        }
    }

    /// The size of the access that was refused, as far as the table is to be asked about it.
    fn size(&mut self, process: u32) -> Size
        requires above { 0 < process }
        requires within { process ≤ length self.old.monitor.grants.table }
        requires memory { length self.old.bus.memory ≡ 2 ^ 23 }
        ensures value { result ≡ size_told self.old.core.system
            (size_at (page_state self.old.monitor.grants self.old.bus.memory) process
            (own_in self.old.core.system)) }
        ensures same { self.new ≡ self.old }
    {
        let code = self.code();
        let own = self.own_address();
        if code <= 3 {
            return Size::Byte;
        }
        if code != 5 && self.bad_address() == own {
            return Size::Word;
        }
        self.size_at(process, own)
    }

    /// Why the processor left the program of a process. Only at an address that may not be used is
    /// the instruction itself looked at, for the size of its access.
    pub fn cause(&mut self, process: u32) -> Cause
        requires above { 0 < process }
        requires within { process ≤ length self.old.monitor.grants.table }
        requires memory { length self.old.bus.memory ≡ 2 ^ 23 }
        ensures told { result ≡ told self.old.core.system
            (page_state self.old.monitor.grants self.old.bus.memory) process }
        ensures same { self.new ≡ self.old }
    {
        let code = self.code();
        if code == SYSTEM_CALL {
            return Cause::Call;
        }
        if code == 0 || code > 5 {
            return Cause::Fault { code };
        }
        let kind = self.kind();
        let size = self.size(process);
        Cause::Access {
            access: Access { kind, size },
        }
    }
}
