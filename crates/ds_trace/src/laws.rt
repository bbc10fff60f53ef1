//! What a trace does not show.
ghost use Rattle.std.specs.Prelude.{◌≡◌, ℕ, Bool};
ghost use Rattle.ds_pagemap.specs.Machine.{State, process_of, touched};
ghost use Rattle.ds_pagemap.specs.Boundary.{boundary};
ghost use Rattle.ds_trace.specs.Counts.{Counted};
ghost use Rattle.ds_trace.specs.Ends.{end_text};
ghost use Rattle.ds_words.specs.declared.view.View.{View};
ghost use Rattle.ds_trace.specs.Halves.{half_counts, half_text};

/// A touch of the process that runs, before a half turn and after it, changes no line and no count,
/// and no line of the end.
pub fn a_touch_changes_no_line()
    ensures lines { (v : View) (k : Counted) (a b : Bool) (m t : State)
        → half_text v k (touched a m) (touched b t) ≡ half_text v k m t }
    ensures counts { (v : View) (k : Counted) (a b : Bool) (m t : State)
        → half_counts v k (touched a m) (touched b t) ≡ half_counts v k m t }
    ensures end { (v : View) (k : Counted) (b : Bool) (m : State)
        → end_text v k (touched b m) ≡ end_text v k m }
{}

/// A boundary leaves each process its registers and its address.
pub fn a_boundary_leaves_registers()
    ensures registers { (m : State) (p : ℕ)
        → (process_of (boundary m) p).registers ≡ (process_of m p).registers }
    ensures address { (m : State) (p : ℕ)
        → (process_of (boundary m) p).pc ≡ (process_of m p).pc }
{}
