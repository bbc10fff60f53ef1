//! What an exception tells: each law is the contract of a function with an empty body.
ghost use Rattle.std.specs.Prelude.{◌≡◌, ℕ, ◌<◌, ◌≤◌, ◌^◌, true, Some, Ok, Err};
ghost use Rattle.ds_isa.specs.declared.instr.Size.{Size};
ghost use Rattle.ds_isa.specs.declared.instr.Size.TheVariants.{Byte, Word};
ghost use Rattle.ds_isa.specs.declared.instr.Kind.{Kind};
ghost use Rattle.ds_isa.specs.declared.instr.Kind.TheVariants.{Fetch, Load, Store};
ghost use Rattle.ds_isa.specs.Access.{is_aligned};
ghost use Rattle.ds_policy.specs.Pages.{Table, decide};
ghost use Rattle.ds_amap.specs.declared.map.Physical.{Physical};
ghost use Rattle.ds_amap.specs.declared.map.Fault.{Fault};
ghost use Rattle.ds_cp0.specs.declared.exception.Exception.{Exception};
ghost use Rattle.ds_cp0.specs.Codes.{code_number};
ghost use Rattle.ds_cp0.specs.System.{System, entered, asid_of};
ghost use Rattle.ds_core.specs.Core.{CoreState};
ghost use Rattle.ds_core.specs.Access.{reached};
ghost use Rattle.ds_refinement.specs.Told.{code_in, is_delayed, own_in, kind_told, size_told};
ghost use Rattle.ds_refinement.specs.Inner.Told.{system_after};

/// After any exception Cause tells its code and whether its instruction stood in a slot, EPC with
/// BD where that instruction stands, and BadVAddr the address, if there is one; the address space
/// stays.
pub fn an_exception_is_told()
    ensures code { (s : System) (e : Exception) → code_in (entered s e) ≡ code_number e.code }
    ensures slot { (s : System) (e : Exception) → is_delayed (entered s e) ≡ e.slot }
    ensures own { (s : System) (e : Exception) → e.pc < 2 ^ 32 → own_in (entered s e) ≡ e.pc }
    ensures address { (s : System) (e : Exception) (address : ℕ) → e.addr ≡ Some address
        → (entered s e).bad_vaddr ≡ address }
    ensures space { (s : System) (e : Exception) → asid_of (entered s e) ≡ asid_of s }
{}

/// A refused load is told as a load, if its instruction was fetched, and the table answers what is
/// told as it answers the load itself.
pub fn a_refused_load_is_told()
    ensures kind { (c : CoreState) (size : Size) (address : ℕ) (fault : Fault) (place : Physical)
        → c.pc < 2 ^ 32
        → reached c Load size address ≡ Err fault → reached c Fetch Word c.pc ≡ Ok place
        → kind_told (system_after c Load address fault) ≡ Load }
    ensures answer { (c : CoreState) (size : Size) (address : ℕ) (fault : Fault) (place : Physical)
        (t : Table) (p : ℕ) → c.pc < 2 ^ 32
        → reached c Load size address ≡ Err fault → reached c Fetch Word c.pc ≡ Ok place
        → decide t p (kind_told (system_after c Load address fault))
        (size_told (system_after c Load address fault) size) address
        ≡ decide t p Load size address }
{}

/// A refused store is told as a store, wherever it goes, and the table answers what is told as it
/// answers the store itself.
pub fn a_refused_store_is_told()
    ensures kind { (c : CoreState) (address : ℕ) (fault : Fault)
        → kind_told (system_after c Store address fault) ≡ Store }
    ensures answer { (c : CoreState) (size : Size) (address : ℕ) (fault : Fault) (t : Table) (p : ℕ)
        → reached c Store size address ≡ Err fault
        → decide t p (kind_told (system_after c Store address fault))
        (size_told (system_after c Store address fault) size) address
        ≡ decide t p Store size address }
{}

/// A refused fetch is told as a fetch, in a slot and outside, and the table answers what is told as
/// it answers the fetch itself, whatever size is given for the instruction that was not fetched.
pub fn a_refused_fetch_is_told()
    ensures kind { (c : CoreState) (fault : Fault) → c.pc < 2 ^ 32
        → reached c Fetch Word c.pc ≡ Err fault
        → kind_told (system_after c Fetch c.pc fault) ≡ Fetch }
    ensures answer { (c : CoreState) (size : Size) (fault : Fault) (t : Table) (p : ℕ)
        → c.pc < 2 ^ 32 → reached c Fetch Word c.pc ≡ Err fault
        → decide t p (kind_told (system_after c Fetch c.pc fault))
        (size_told (system_after c Fetch c.pc fault) size) c.pc
        ≡ decide t p Fetch Word c.pc }
{}

/// A refused access has a code from 1 to 5. Up to 3 its address suits its size, and at such an
/// address the table answers an access of a byte as one of that size.
pub fn the_buffer_refuses_aligned_addresses()
    ensures least { (c : CoreState) (access : Kind) (address : ℕ) (fault : Fault)
        → 1 ≤ code_in (system_after c access address fault) }
    ensures most { (c : CoreState) (access : Kind) (address : ℕ) (fault : Fault)
        → code_in (system_after c access address fault) ≤ 5 }
    ensures aligned { (c : CoreState) (access : Kind) (size : Size) (address : ℕ) (fault : Fault)
        → reached c access size address ≡ Err fault
        → code_in (system_after c access address fault) ≤ 3 → is_aligned size address ≡ true }
    ensures byte { (t : Table) (p : ℕ) (access : Kind) (size : Size) (address : ℕ)
        → is_aligned size address ≡ true
        → decide t p access Byte address ≡ decide t p access size address }
{}
