//! Where there are reasons.
ghost use Rattle.std.specs.Prelude.{◌≡◌, ◌≤◌, ◌==◌, ◌+◌, ◌%◌, ℕ, is_err, is_some};
ghost use Rattle.ds_asm.specs.Assembly.{branch_field, jump_field, origin};
ghost use Rattle.ds_asm.specs.Lines.{line_of};
ghost use Rattle.ds_source_reasons.specs.Ranges.{cause_in};
ghost use Rattle.ds_source_reasons.specs.Inner.Reasons.{range_reason_of};
ghost use Rattle.ds_source_reasons.specs.Reasons.{reason_of};

/// The law that a line has a reason exactly where the assembler answers a cause.
#[tactic(auto, unfolding(crate::specs::Reasons::reason_of))]
pub fn a_reason_is_a_syntax_fault(line: &[u8])
    ensures { is_some (reason_of line.now) ≡ is_err (line_of line.now) }
{}

/// The law that the statement of a line has a reason exactly where the assembler can read it and
/// has a cause to refuse it at its place, in bytes from the beginning of the image.
pub fn a_range_reason_is_a_range_fault(place: u64, line: &[u8])
    ensures { is_some (range_reason_of place line.now) ≡ is_some (cause_in place (line_of line.now)) }
{}

/// The law that in an image of 64 KiB a branch or a jump at a place of it reaches each label of it
/// that stands at a multiple of four, and no other: there is no other reason for a target.
pub fn a_target_is_reached_at_multiples_of_four()
    ensures branch { (place label : ℕ) → place ≤ 65536 → label ≤ 65536
        → is_some (branch_field (origin + place + 4) (origin + label)) ≡ ((origin + label) % 4 == 0) }
    ensures jump { (place label : ℕ) → place ≤ 65536 → label ≤ 65536
        → is_some (jump_field (origin + place + 4) (origin + label)) ≡ ((origin + label) % 4 == 0) }
{}
