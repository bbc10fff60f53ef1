//! The grants on which a file is replayed, with the memory, the page tables in it, the address spaces
//! and the translation buffer beside them.
ghost use Rattle.std.specs.Prelude.{◌≡◌, ◌<◌, ◌≤◌, true, length, IfSome, Some};
ghost use Rattle.ds_policy.specs.Pages.{entry_at};

use crate::parts::grants::frames::{FIRST_FRAME, Frames, PAGES, named_pages, note_pages};
use crate::parts::grants::policies::policy_of;
use crate::parts::grants::verbs::Call;
use crate::parts::processor::new_buffer;
use ds_asid::Asids;
use ds_asm::Image;
use ds_grants::{GrantFault, Grants};
use ds_mem::Memory;
use ds_policy::{Entry as TableEntry, Grant, Policy, Right};
use ds_tables::Tables;
use ds_tlb::{Entry, Lookaside};
use std::alloc::Global;

/// The most processes.
pub const PROCESSES: u32 = 100;

/// The mode of a give by which the receiver gets a copy.
pub const COPY: u32 = 3;

/// What a file is replayed on.
#[derive(Drop)]
pub struct Replay<L> {
    pub grants: Grants,
    frames: u32,
    named: u32,
    pub lying: Frames,
    pub memory: Memory,
    pub tables: Tables,
    pub spaces: Asids,
    pub buffer: L,
    ghost places: { grants.frames ≡ frames },
    ghost names: { grants.named ≡ named },
}

impl<L: Lookaside> Replay<L> {
    /// Grants of so many processes, no more than 100, that have none; none where there is no memory for
    /// them. There are no more than 1,024 frames for pages, and no more names than frames.
    pub fn new(alloc: Global, processes: u32, frames: u32, named: u32) -> Option<Replay<L>>
        requires slots { L.SLOTS ≡ 64 }
        requires wired { L.WIRED ≡ 8 }
    {
        let processes = processes.min(PROCESSES) as usize;
        let frames = frames.min(PAGES as u32);
        let named = named.min(frames);
        let memory = Memory::new(alloc).ok()?;
        let grants = Grants::empty(alloc, processes, frames, named).ok()?;
        Some(Replay {
            grants,
            frames,
            named,
            lying: Frames::new(),
            memory,
            tables: Tables::new(processes),
            spaces: Asids::new(),
            buffer: new_buffer(),
        })
    }

    /// Grants of the policy of a text with blanks in place of the ends of its lines; none where there is no
    /// such policy, or no memory for it.
    pub fn of_text(alloc: Global, text: &str) -> Option<Replay<L>>
        requires slots { L.SLOTS ≡ 64 }
        requires wired { L.WIRED ≡ 8 }
    {
        let policy = policy_of(alloc, text)?;
        Replay::of_policy(alloc, &policy)
    }

    /// Grants of a policy none of whose pages has a source; none of another policy, or where there is no
    /// memory for them.
    fn of_policy(alloc: Global, policy: &Policy) -> Option<Replay<L>>
        requires slots { L.SLOTS ≡ 64 }
        requires wired { L.WIRED ≡ 8 }
    {
        if !policy.sources().is_empty() {
            return None;
        }
        let images: [Image; 0] = [];
        let mut tables = Tables::new(policy.processes().len());
        let mut spaces = Asids::new();
        let mut buffer = new_buffer();
        let mut memory = Memory::new(alloc).ok()?;
        let grants = Grants::new(
            alloc,
            policy,
            images.as_slice(),
            &mut memory,
            &mut tables,
            &mut spaces,
            &mut buffer,
        )
        .ok()?;
        Some(Replay {
            grants,
            frames: policy.frames(),
            named: policy.pages().len() as u32,
            lying: Frames::new(),
            memory,
            tables,
            spaces,
            buffer,
        })
    }

    /// Whether there is such a process.
    pub fn is_within(&self, process: u32) -> bool
        ensures low { result ≡ true → 0 < process }
        ensures high { result ≡ true → process ≤ length self.now.grants.table }
        ensures few { result ≡ true → process ≤ 100 }
    {
        process > 0 && process as usize <= self.grants.table().processes()
    }

    /// The entries of a process, none where there is no such process.
    pub fn entries(&self, process: u32) -> &[TableEntry] {
        if self.is_within(process) {
            self.grants.table().entries(process)
        } else {
            &[]
        }
    }

    /// The outcome of a call; none where nobody can call so. Where it gave a copy, that lies where its page
    /// lies.
    pub fn call(&mut self, call: Call, operands: [u32; 6]) -> Option<Result<(), GrantFault>> {
        let [a, b, c, d, e, _] = operands;
        let outcome = self.outcome(call, operands)?;
        if matches!(call, Call::Give) && e == COPY && outcome.is_ok() {
            self.note_copy(a, b, c, d);
        }
        Some(outcome)
    }

    /// The outcome of a call on the grants; none where nobody can call so.
    fn outcome(&mut self, call: Call, operands: [u32; 6]) -> Option<Result<(), GrantFault>> {
        let [a, b, c, d, e, f] = operands;
        let (named, is_within, right) = (self.named, self.is_within(a), right_of(d));
        let (grants, memory, tables) = (&mut self.grants, &mut self.memory, &mut self.tables);
        let (spaces, buffer) = (&mut self.spaces, &mut self.buffer);
        let outcome = match call {
            Call::Grant if c < named && d <= 1 && e <= 1 && right != Right::Nothing => {
                grants.grant(a, b, c, right, e == 1, f, memory, tables, spaces, buffer)
            }
            Call::Give if is_within => {
                grants.give(a, b, c, d, e, memory, tables, spaces, buffer)
            }
            Call::Split => return self.split(a, b),
            Call::Take => grants.take(a, b, c, memory, tables, spaces, buffer),
            Call::Drop if c == 1 || c == 0 && is_within => {
                grants.drop_page(a, b, c == 1, memory, tables, spaces, buffer)
            }
            Call::Revoke => grants.revoke(a, b, c, memory, tables, spaces, buffer),
            Call::Narrow => grants.narrow(a, b, memory, tables, spaces, buffer),
            Call::End if is_within => {
                grants.end_process(a, memory, tables, spaces, buffer);
                Ok(())
            }
            Call::Expire => {
                grants.expire(
                    u64::from(b) << 32 | u64::from(a),
                    memory,
                    tables,
                    spaces,
                    buffer,
                );
                Ok(())
            }
            _ => return None,
        };
        Some(outcome)
    }

    /// The page at an address was copied to another; none where there is no page.
    fn note_copy(&mut self, caller: u32, address: u32, receiver: u32, to: u32) -> Option<()> {
        let from = self.entry(caller, address)?;
        let copy = self.entry(receiver, to)?;
        self.lying.copy(from.page?, copy.page?);
        Some(())
    }

    /// The page at an address gets a frame of its own, before the first store to it; none where the
    /// process may not store there.
    fn split(&mut self, process: u32, address: u32) -> Option<Result<(), GrantFault>> {
        let grant = self.entry(process, address)?;
        if !matches!(grant.right, Right::Write) {
            return None;
        }
        if let Some(page) = grant.page {
            let live = self.live_pages();
            self.lying.split(page, &live);
        }
        self.grants.break_copy(
            process,
            address,
            &mut self.memory,
            &mut self.tables,
            &mut self.spaces,
            &mut self.buffer,
        );
        Some(Ok(()))
    }

    /// The number of a process that comes on the processor: its own, or else the next. None where
    /// there is no such process.
    pub fn enter(&mut self, process: u32) -> Option<u8> {
        if !self.is_within(process) {
            return None;
        }
        let number = match self.spaces.of(process) {
            Some(number) => number,
            None => self.spaces.take(process, &mut self.buffer),
        };
        Some(number)
    }

    /// The frame in which the grants say that a page lies, if there is such a page.
    pub fn frame(&self, page: u32) -> Option<u32> {
        if page >= self.frames {
            return None;
        }
        self.grants.frame_of_page(page).checked_sub(FIRST_FRAME)
    }

    /// Which pages live: those that have names, and those that entries name.
    fn live_pages(&self) -> [bool; PAGES] {
        let mut live = named_pages(self.named);
        for process in 1..=PROCESSES {
            note_pages(&mut live, self.entries(process));
        }
        live
    }

    /// What is granted to a process at an address.
    pub fn entry(&self, process: u32, address: u32) -> Option<Grant>
        ensures { IfSome result (λ grant. (0 < process)
            × (entry_at self.now.grants.table process address ≡ Some grant)) }
    {
        if !self.is_within(process) {
            return None;
        }
        self.grants.table().entry(process, address)
    }

    /// Lets a process come on the processor, and puts what it is granted at an address into the slot
    /// that Random names, where the buffer has nothing for it; whether it did.
    pub fn fill(&mut self, process: u32, address: u32) -> bool {
        let vpn = address >> 12;
        let Some(asid) = self.enter(process) else {
            return false;
        };
        let Some(grant) = self.entry(process, address) else {
            return false;
        };
        if grant.page.is_none() || self.buffer.find(vpn, asid).is_some() {
            return false;
        }
        let hi = vpn.wrapping_mul(4096) | (u32::from(asid) << 6);
        let entry = Entry::of_words(hi, self.lying.word_of(grant));
        self.buffer.write_random(entry);
        self.buffer.tick();
        true
    }
}

/// The right of a number: 1 to write, or else to read.
fn right_of(number: u32) -> Right {
    if number == 1 {
        Right::Write
    } else {
        Right::Read
    }
}
