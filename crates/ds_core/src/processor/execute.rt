//! One decoded instruction, as the table of instructions means it.
ghost use Rattle.std.specs.Prelude.{◌≡◌, ◌%◌, ◌||◌, ◌==◌};
ghost use Rattle.ds_word.specs.Word.{is_negative};
ghost use Rattle.ds_core.specs.Effect.{executed};

use super::Core;
use super::flow::jump_target;
use crate::event::Event;
use ds_cp0::ExceptionCode;
use ds_dev::Bus;
use ds_isa::Instr;
use ds_tlb::Lookaside;
use ds_word::{
    checked_difference, checked_sum, div_signed, div_unsigned, is_negative, mul_signed,
    mul_unsigned, shift_left, shift_right_arithmetic, shift_right_logical, sign16, signed_less,
    upper, wrapping_difference, wrapping_sum,
};

/// Whether a word is negative or zero.
#[inline(always)]
pub fn is_at_most_zero(word: u32) -> bool
    ensures { result ≡ (is_negative word || (word == 0)) }
{
    is_negative(word) || word == 0
}

/// The low five bits of a word, by which a variable shift goes.
#[inline(always)]
pub fn places(word: u32) -> u8
    ensures { result ≡ word % 32 }
{
    (word % 32) as u8
}

impl<L: Lookaside> Core<L> {
    /// Carries out an instruction.
    #[inline(always)]
    pub(super) fn execute(&mut self, instr: Instr, bus: &mut Bus) -> Event
        requires { L.SLOTS ≡ 64 }
        ensures { (record { event = result; core = self.new; bus = bus.new })
            ≡ executed self.old bus.old instr }
    {
        match instr {
            Instr::Sll { rd, rt, shamt } => self.retire(rd, shift_left(self.read(rt), shamt)),
            Instr::Srl { rd, rt, shamt } => {
                self.retire(rd, shift_right_logical(self.read(rt), shamt))
            }
            Instr::Sra { rd, rt, shamt } => {
                self.retire(rd, shift_right_arithmetic(self.read(rt), shamt))
            }
            Instr::Sllv { rd, rt, rs } => {
                self.retire(rd, shift_left(self.read(rt), places(self.read(rs))))
            }
            Instr::Srlv { rd, rt, rs } => {
                self.retire(
                    rd,
                    shift_right_logical(self.read(rt), places(self.read(rs))),
                )
            }
            Instr::Srav { rd, rt, rs } => {
                self.retire(
                    rd,
                    shift_right_arithmetic(self.read(rt), places(self.read(rs))),
                )
            }
            Instr::Jr { rs } => self.branch_to(None, self.read(rs)),
            Instr::Jalr { rd, rs } => self.branch_to(Some(rd), self.read(rs)),
            Instr::Syscall { .. } => self.trap(ExceptionCode::SystemCall),
            Instr::Break { .. } => self.trap(ExceptionCode::Breakpoint),
            Instr::Mfhi { rd } => self.retire(rd, self.hi),
            Instr::Mthi { rs } => self.retire_hi_lo(self.read(rs), self.lo),
            Instr::Mflo { rd } => self.retire(rd, self.lo),
            Instr::Mtlo { rs } => self.retire_hi_lo(self.hi, self.read(rs)),
            Instr::Mult { rs, rt } => {
                let (hi, lo) = mul_signed(self.read(rs), self.read(rt));
                self.retire_hi_lo(hi, lo)
            }
            Instr::Multu { rs, rt } => {
                let (hi, lo) = mul_unsigned(self.read(rs), self.read(rt));
                self.retire_hi_lo(hi, lo)
            }
            Instr::Div { rs, rt } => {
                let (hi, lo) = div_signed(self.read(rs), self.read(rt));
                self.retire_hi_lo(hi, lo)
            }
            Instr::Divu { rs, rt } => {
                let (hi, lo) = div_unsigned(self.read(rs), self.read(rt));
                self.retire_hi_lo(hi, lo)
            }
            Instr::Add { rd, rs, rt } => {
                self.retire_or_trap(rd, checked_sum(self.read(rs), self.read(rt)))
            }
            Instr::Addu { rd, rs, rt } => {
                self.retire(rd, wrapping_sum(self.read(rs), self.read(rt)))
            }
            Instr::Sub { rd, rs, rt } => {
                self.retire_or_trap(rd, checked_difference(self.read(rs), self.read(rt)))
            }
            Instr::Subu { rd, rs, rt } => {
                self.retire(rd, wrapping_difference(self.read(rs), self.read(rt)))
            }
            Instr::And { rd, rs, rt } => self.retire(rd, self.read(rs) & self.read(rt)),
            Instr::Or { rd, rs, rt } => self.retire(rd, self.read(rs) | self.read(rt)),
            Instr::Xor { rd, rs, rt } => self.retire(rd, self.read(rs) ^ self.read(rt)),
            Instr::Nor { rd, rs, rt } => self.retire(rd, !(self.read(rs) | self.read(rt))),
            Instr::Slt { rd, rs, rt } => {
                self.retire(rd, u32::from(signed_less(self.read(rs), self.read(rt))))
            }
            Instr::Sltu { rd, rs, rt } => {
                self.retire(rd, u32::from(self.read(rs) < self.read(rt)))
            }
            Instr::Bltz { rs, immediate } => self.branch(is_negative(self.read(rs)), immediate),
            Instr::Bgez { rs, immediate } => self.branch(!is_negative(self.read(rs)), immediate),
            Instr::Bltzal { rs, immediate } => {
                self.link_and_branch(is_negative(self.read(rs)), immediate)
            }
            Instr::Bgezal { rs, immediate } => {
                self.link_and_branch(!is_negative(self.read(rs)), immediate)
            }
            Instr::J { target } => self.branch_to(None, jump_target(self.pc, target)),
            Instr::Jal { target } => self.branch_to(Some(31), jump_target(self.pc, target)),
            Instr::Beq { rs, rt, immediate } => {
                self.branch(self.read(rs) == self.read(rt), immediate)
            }
            Instr::Bne { rs, rt, immediate } => {
                self.branch(self.read(rs) != self.read(rt), immediate)
            }
            Instr::Blez { rs, immediate } => self.branch(is_at_most_zero(self.read(rs)), immediate),
            Instr::Bgtz { rs, immediate } => {
                self.branch(!is_at_most_zero(self.read(rs)), immediate)
            }
            Instr::Addi { rt, rs, immediate } => {
                self.retire_or_trap(rt, checked_sum(self.read(rs), sign16(immediate)))
            }
            Instr::Addiu { rt, rs, immediate } => {
                self.retire(rt, wrapping_sum(self.read(rs), sign16(immediate)))
            }
            Instr::Slti { rt, rs, immediate } => {
                self.retire(rt, u32::from(signed_less(self.read(rs), sign16(immediate))))
            }
            Instr::Sltiu { rt, rs, immediate } => {
                self.retire(rt, u32::from(self.read(rs) < sign16(immediate)))
            }
            Instr::Andi { rt, rs, immediate } => {
                self.retire(rt, self.read(rs) & u32::from(immediate))
            }
            Instr::Ori { rt, rs, immediate } => {
                self.retire(rt, self.read(rs) | u32::from(immediate))
            }
            Instr::Xori { rt, rs, immediate } => {
                self.retire(rt, self.read(rs) ^ u32::from(immediate))
            }
            Instr::Lui { rt, immediate } => self.retire(rt, upper(immediate)),
            Instr::Lb { rt, rs, immediate } => self.load_byte(rt, rs, immediate, bus),
            Instr::Lh { rt, rs, immediate } => self.load_half(rt, rs, immediate, bus),
            Instr::Lwl { rt, rs, immediate } => self.load_left(rt, rs, immediate, bus),
            Instr::Lw { rt, rs, immediate } => self.load_whole(rt, rs, immediate, bus),
            Instr::Lbu { rt, rs, immediate } => self.load_byte_unsigned(rt, rs, immediate, bus),
            Instr::Lhu { rt, rs, immediate } => self.load_half_unsigned(rt, rs, immediate, bus),
            Instr::Lwr { rt, rs, immediate } => self.load_right(rt, rs, immediate, bus),
            Instr::Sb { rt, rs, immediate } => self.store_byte(rt, rs, immediate, bus),
            Instr::Sh { rt, rs, immediate } => self.store_half(rt, rs, immediate, bus),
            Instr::Swl { rt, rs, immediate } => self.store_left(rt, rs, immediate, bus),
            Instr::Sw { rt, rs, immediate } => self.store_whole(rt, rs, immediate, bus),
            Instr::Swr { rt, rs, immediate } => self.store_right(rt, rs, immediate, bus),
            Instr::Mfc0 { rt, rd } => self.mfc0(rt, rd, bus),
            Instr::Mtc0 { rt, rd } => self.mtc0(rt, rd, bus),
            Instr::Tlbr => self.tlbr(bus),
            Instr::Tlbwi => self.tlbwi(bus),
            Instr::Tlbwr => self.tlbwr(bus),
            Instr::Tlbp => self.tlbp(bus),
            Instr::Rfe => self.rfe(bus),
            Instr::Cop { unit, word } => self.cop(unit, word, bus),
            Instr::Reserved(_) => self.trap(ExceptionCode::ReservedInstruction),
        }
    }
}
