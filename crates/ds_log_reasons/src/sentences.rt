//! What is told of a line of the log: what the process did, what decided, and how it is mended.
ghost use Rattle.std.specs.Prelude.{◌≡◌, ◌≤◌, ◌-◌, ◌++◌, ◌==◌, not, OnOk, codes, decimal, length, map, option_map, slice_get};
ghost use Rattle.ds_policy.specs.Pages.{found};
ghost use Rattle.ds_listing.specs.Pages.{place_of_address, plain_pages};
ghost use Rattle.ds_listing.specs.Texts.{text_of};
ghost use Rattle.ds_log_reasons.specs.Sentences.{alone_text, at_text, by_text, command_text, decided_text, denial_text, did_text, giver_text, granted_page, policy_line_text, meaning_line, mend_line, name_text, near_text, nearest_by, nearest_text, rule_number_text, or_address, page_text, process_text, reason_for, refused_text, rule_line, rule_text, policy_rule_said, slot_text, what_text, word_branch};
ghost use Rattle.ds_log_reasons.specs.Inner.Sentences.{known_placed, sighted};

use crate::entries::{grant_at, nearest};
use crate::reason::{Reason, denial_reason_of};
use crate::values::{operands_for, push_values};
use crate::words::{command_mend, command_words, mend_words, reason_words};
use ds_check::{AssembledSources, Items, item_place};
use ds_isa::{Late, decode, is_branch};
use ds_listing::{PageLines, push_address_place, push_word};
use ds_log::Denied;
use ds_policy::{Entry, Grant, Policy, PolicyPage, PolicyRule, Rule};
use ds_text::sheet::{push_decimal, push_hex};
use std::alloc::{AllocError, Global};

/// What the words for a line of the log are taken from.
#[derive(Clone, Copy)]
pub struct Texts<'a> {
    /// The text of the policy.
    pub text: &'a [u8],
    /// The policy that was read from it.
    pub policy: &'a Policy,
    pub sources: AssembledSources<'a>,
}

/// The same, where the lines of the sources have been found.
#[derive(Clone, Copy)]
pub struct Known<'a> {
    /// The text of the policy.
    pub text: &'a [u8],
    /// The policy that was read from it.
    pub policy: &'a Policy,
    /// Its pages, with the lines of their sources.
    pub pages: &'a [Option<PageLines<'a>>],
}

/// What a line of the log says of a denial, but for its time.
#[derive(Clone, Copy, Debug, PartialEq, Eq)]
pub struct Denial {
    pub process: u32,
    pub pc: u32,
    pub kind: Denied,
    pub addr: u32,
    pub rule: Rule,
    pub code: u32,
}

/// What is seen of a process whose unit was stopped.
#[derive(Clone, Copy)]
pub struct Sight<'a> {
    /// The address of the unit.
    pub unit: u32,
    /// The word of the instruction that was denied, where the process may fetch it.
    pub word: Option<u32>,
    /// The registers before that instruction.
    pub general: [u32; 32],
    /// The register whose load is late then.
    pub late: Option<Late>,
    /// The entries of the process when the unit began.
    pub entries: &'a [Entry],
    /// Register 2 after the unit: what a call was answered.
    pub answer: u32,
}

/// Adds bytes.
fn push_bytes(sheet: &mut Vec<u8>, bytes: &[u8]) -> Result<(), AllocError>
    ensures { OnOk result (sheet.new.items ≡ sheet.old.items ++ bytes.now) }
{
    sheet.extend_from_slice(bytes)
}

/// Adds a number in decimal digits.
fn push_short(sheet: &mut Vec<u8>, number: u32) -> Result<(), AllocError>
    ensures { OnOk result (sheet.new.items ≡ sheet.old.items ++ decimal number) }
{
    push_decimal(sheet, u64::from(number))
}

/// Which page is granted.
fn granted_page(granted: Option<Grant>) -> Option<u32>
    ensures { result ≡ granted_page granted }
{
    granted?.page
}

/// Adds where an address within the page of this number stands in its source; where it stands in none,
/// the address.
#[tactic(auto, using(crate::proofs::Slots::no_place, crate::proofs::Slots::some_place))]
fn push_place(
    sheet: &mut Vec<u8>,
    pages: &[Option<PageLines<'_>>],
    page: Option<u32>,
    pc: u32,
) -> Result<(), AllocError>
    ensures { OnOk result (sheet.new.items
        ≡ sheet.old.items ++ or_address pc (place_of_address (plain_pages pages.now) page pc)) }
{
    let before = sheet.len();
    push_address_place(sheet, pages, page, pc)?;
    if sheet.len() == before {
        return push_hex(sheet, pc);
    }
    Ok(())
}

/// Adds where an address of a process with these entries stands in its source; where it stands in
/// none, the address.
#[tactic(auto, unfolding(crate::specs::Sentences::at_text))]
fn push_at<'a>(
    sheet: &mut Vec<u8>,
    known: Known<'a>,
    entries: &[Entry],
    pc: u32,
) -> Result<(), AllocError>
    ensures { OnOk result (sheet.new.items
        ≡ sheet.old.items ++ at_text (known_placed known.entry) entries.now pc) }
{
    let page = granted_page(grant_at(entries, pc - pc % 4096));
    push_place(sheet, known.pages, page, pc)
}

/// Adds the slot's branch, where an instruction is not that of its unit.
#[tactic(auto, unfolding(crate::specs::Sentences::slot_text))]
fn push_slot<'a>(
    sheet: &mut Vec<u8>,
    known: Known<'a>,
    entries: &[Entry],
    unit: u32,
    slot: bool,
) -> Result<(), AllocError>
    ensures { OnOk result (sheet.new.items
        ≡ sheet.old.items ++ slot_text (known_placed known.entry) entries.now unit slot) }
{
    if slot {
        sheet.extend_from_slice(b", in the slot of ")?;
        push_at(sheet, known, entries, unit)
    } else {
        Ok(())
    }
}

/// Adds the text of a word.
fn push_text(sheet: &mut Vec<u8>, alloc: Global, word: u32) -> Result<(), AllocError>
    ensures { OnOk result (sheet.new.items ≡ sheet.old.items ++ text_of word) }
{
    let mut text = String::new(alloc);
    push_word(&mut text, word)?;
    sheet.extend_from_slice(text.as_bytes())
}

/// Adds an instruction with what it read.
#[tactic(auto, unfolding(crate::specs::Sentences::did_text))]
fn push_did(
    sheet: &mut Vec<u8>,
    alloc: Global,
    kind: Denied,
    word: Option<u32>,
    general: &[u32; 32],
    late: Option<Late>,
) -> Result<(), AllocError>
    ensures { OnOk result
        (sheet.new.items ≡ sheet.old.items ++ did_text kind word general.now late) }
{
    match word {
        Some(word) => {
            sheet.extend_from_slice(b": ")?;
            push_text(sheet, alloc, word)?;
            push_values(sheet, general, late, operands_for(kind, &decode(word)))
        }
        None => sheet.extend_from_slice(b": no instruction was fetched"),
    }
}

/// Adds which process it was.
#[tactic(auto, unfolding(crate::specs::Sentences::process_text))]
fn push_process(sheet: &mut Vec<u8>, process: u32) -> Result<(), AllocError>
    ensures { OnOk result (sheet.new.items ≡ sheet.old.items ++ process_text process) }
{
    sheet.extend_from_slice(b"    process ")?;
    push_short(sheet, process)?;
    sheet.extend_from_slice(b" at ")
}

/// Adds the line that says what the process did.
#[tactic(auto, unfolding(crate::specs::Sentences::what_text))]
fn push_what<'a>(
    sheet: &mut Vec<u8>,
    alloc: Global,
    known: Known<'a>,
    denial: Denial,
    sight: Sight<'a>,
) -> Result<(), AllocError>
    ensures { OnOk result (sheet.new.items
        ≡ sheet.old.items ++ what_text (known_placed known.entry) denial (sighted sight.entry)) }
{
    let slot = sight.unit != denial.pc;
    push_process(sheet, denial.process)?;
    push_at(sheet, known, sight.entries, denial.pc)?;
    push_slot(sheet, known, sight.entries, sight.unit, slot)?;
    push_did(
        sheet,
        alloc,
        denial.kind,
        sight.word,
        &sight.general,
        sight.late,
    )?;
    sheet.extend_from_slice(b"\n")
}

/// The line of a policy's text in which the rule of a number begins.
fn rule_line(policy: &[u8], number: u32) -> Option<u64>
    ensures { result ≡ rule_line policy.now number }
{
    if policy.len() > 16777216 {
        return None;
    }
    match item_place(policy, Items::Rules, number, None) {
        Some(place) => Some(place.line),
        None => None,
    }
}

/// Adds a line of the policy, where it is known.
fn push_line(sheet: &mut Vec<u8>, line: Option<u64>) -> Result<(), AllocError>
    ensures { OnOk result (sheet.new.items ≡ sheet.old.items ++ policy_line_text line) }
{
    match line {
        Some(line) => {
            sheet.extend_from_slice(b" (line ")?;
            push_decimal(sheet, line)?;
            sheet.extend_from_slice(b" of the policy)")
        }
        None => Ok(()),
    }
}

/// Adds the rule or the command of a number.
#[tactic(auto, unfolding(crate::specs::Sentences::rule_number_text))]
fn push_number(sheet: &mut Vec<u8>, policy: &[u8], number: u32) -> Result<(), AllocError>
    ensures { OnOk result (sheet.new.items ≡ sheet.old.items ++ rule_number_text policy.now number) }
{
    if number > 1000 {
        push_command(sheet, number - 1000)
    } else {
        push_rule(sheet, policy, number)
    }
}

/// Adds the command of a number.
fn push_command(sheet: &mut Vec<u8>, number: u32) -> Result<(), AllocError>
    ensures { OnOk result (sheet.new.items ≡ sheet.old.items ++ command_text number) }
{
    push_bytes(sheet, b"command ")?;
    push_short(sheet, number)?;
    push_bytes(sheet, b" of the input")
}

/// Adds the rule of a number, with its line in the policy.
fn push_rule(sheet: &mut Vec<u8>, policy: &[u8], number: u32) -> Result<(), AllocError>
    ensures { OnOk result (sheet.new.items ≡ sheet.old.items ++ rule_text policy.now number) }
{
    sheet.extend_from_slice(b"rule ")?;
    push_short(sheet, number)?;
    push_line(sheet, rule_line(policy, number))
}

/// Adds the name of a page, if it has one.
fn push_page(sheet: &mut Vec<u8>, pages: &[PolicyPage], page: Option<u32>) -> Result<(), AllocError>
    ensures { OnOk result (sheet.new.items ≡ sheet.old.items ++ page_text pages.now page) }
{
    match page {
        Some(page) => push_name(sheet, pages, page),
        None => Ok(()),
    }
}

fn push_name(sheet: &mut Vec<u8>, pages: &[PolicyPage], page: u32) -> Result<(), AllocError>
    ensures { OnOk result
        (sheet.new.items ≡ sheet.old.items ++ name_text (slice_get pages.now page)) }
{
    match pages.get(page as usize) {
        Some(page) => {
            sheet.extend_from_slice(b", page ")?;
            sheet.extend_from_slice(page.name.as_str().as_bytes())
        }
        None => Ok(()),
    }
}

/// Adds the process that gave an entry, if one did.
fn push_giver(sheet: &mut Vec<u8>, giver: u32) -> Result<(), AllocError>
    ensures { OnOk result (sheet.new.items ≡ sheet.old.items ++ giver_text giver) }
{
    if giver == 0 {
        return Ok(());
    }
    sheet.extend_from_slice(b", given by process ")?;
    push_short(sheet, giver)
}

/// Adds that there is no rule, and the nearest entry.
#[tactic(auto, unfolding(crate::specs::Sentences::nearest_text))]
fn push_nearest(
    sheet: &mut Vec<u8>,
    policy: &[u8],
    entries: &[Entry],
    address: u32,
) -> Result<(), AllocError>
    ensures { OnOk result
        (sheet.new.items ≡ sheet.old.items ++ nearest_text policy.now address entries.now) }
{
    push_neighbour(sheet, policy, nearest(entries, address))
}

/// Adds that there is no rule, and this entry, if there is one.
fn push_neighbour(
    sheet: &mut Vec<u8>,
    policy: &[u8],
    entry: Option<Entry>,
) -> Result<(), AllocError>
    ensures { OnOk result (sheet.new.items ≡ sheet.old.items ++ nearest_by policy.now entry) }
{
    match entry {
        Some(entry) => push_near(sheet, policy, entry),
        None => push_alone(sheet),
    }
}

/// Adds that there is no rule, and this entry.
fn push_near(sheet: &mut Vec<u8>, policy: &[u8], entry: Entry) -> Result<(), AllocError>
    ensures { OnOk result (sheet.new.items ≡ sheet.old.items ++ near_text policy.now entry) }
{
    push_bytes(sheet, b"no rule; the nearest entry is at ")?;
    push_hex(sheet, entry.address)?;
    push_bytes(sheet, b", by ")?;
    push_number(sheet, policy, entry.grant.rule)
}

/// Adds that there is no rule, and no entry.
fn push_alone(sheet: &mut Vec<u8>) -> Result<(), AllocError>
    ensures { OnOk result (sheet.new.items ≡ sheet.old.items ++ alone_text) }
{
    push_bytes(sheet, b"no rule; the process has no entry at all")
}

/// Adds which entry decided, at the page of an address.
#[tactic(auto, unfolding(crate::specs::Sentences::decided_text))]
fn push_decided<'a>(
    sheet: &mut Vec<u8>,
    known: Known<'a>,
    entries: &[Entry],
    page: u32,
    granted: Option<Grant>,
) -> Result<(), AllocError>
    ensures { OnOk result (sheet.new.items
        ≡ sheet.old.items ++ decided_text (known_placed known.entry) entries.now page granted) }
{
    match granted {
        Some(grant) => {
            push_number(sheet, known.text, grant.rule)?;
            push_page(sheet, known.policy.pages(), grant.page)?;
            push_giver(sheet, grant.giver)
        }
        None => push_nearest(sheet, known.text, entries, page),
    }
}

/// Adds the line that says what decided, and why.
#[tactic(auto, unfolding(crate::specs::Sentences::by_text))]
fn push_by<'a>(
    sheet: &mut Vec<u8>,
    known: Known<'a>,
    entries: &[Entry],
    denial: Denial,
    reason: Reason,
) -> Result<(), AllocError>
    ensures { OnOk result (sheet.new.items
        ≡ sheet.old.items ++ by_text (known_placed known.entry) entries.now denial reason) }
{
    let page = denial.addr - denial.addr % 4096;
    sheet.extend_from_slice(b"    by ")?;
    match denial.rule {
        Rule::Number(_) => push_decided(sheet, known, entries, page, grant_at(entries, page))?,
        Rule::K | Rule::A | Rule::I => sheet.extend_from_slice(b"the processor")?,
    }
    sheet.extend_from_slice(b": ")?;
    sheet.extend_from_slice(reason_words(reason))?;
    sheet.extend_from_slice(b"\n")
}

/// What the policy's rule of an entry's number says, if there is one.
fn policy_rule_said(rules: &[PolicyRule], granted: Option<Grant>) -> Option<PolicyRule>
    ensures { result ≡ policy_rule_said rules.now granted }
{
    match granted {
        Some(grant) => rules.get(grant.rule.saturating_sub(1) as usize).copied(),
        None => None,
    }
}

/// Whether a word is a branch.
fn word_branch(word: Option<u32>) -> bool
    ensures { result ≡ word_branch word }
{
    match word {
        Some(word) => is_branch(&decode(word)),
        None => false,
    }
}

/// Why something was denied, by what was there.
fn reason_for<'a>(rules: &[PolicyRule], denial: Denial, sight: Sight<'a>) -> Reason
    ensures { result ≡ reason_for rules.now denial (sighted sight.entry) }
{
    let granted = grant_at(sight.entries, denial.addr - denial.addr % 4096);
    denial_reason_of(
        denial.kind,
        denial.rule,
        denial.code,
        sight.answer,
        granted,
        policy_rule_said(rules, granted),
        word_branch(sight.word),
    )
}

/// Adds what is told of a denial: three lines.
#[tactic(auto, unfolding(crate::specs::Sentences::denial_text))]
pub fn push_denial<'a>(
    sheet: &mut Vec<u8>,
    alloc: Global,
    known: Known<'a>,
    denial: Denial,
    sight: Sight<'a>,
) -> Result<(), AllocError>
    ensures { OnOk result (sheet.new.items
        ≡ sheet.old.items ++ denial_text (known_placed known.entry) denial (sighted sight.entry)) }
{
    let reason = reason_for(known.policy.rules(), denial, sight);
    push_what(sheet, alloc, known, denial, sight)?;
    push_by(sheet, known, sight.entries, denial, reason)?;
    push_mend(sheet, mend_words(reason))
}

/// Adds the line that says how something is mended.
fn push_mend(sheet: &mut Vec<u8>, words: &[u8]) -> Result<(), AllocError>
    ensures { OnOk result (sheet.new.items ≡ sheet.old.items ++ mend_line words.now) }
{
    push_bytes(sheet, b"    to mend: ")?;
    push_bytes(sheet, words)?;
    push_bytes(sheet, b"\n")
}

/// Adds the line that says what the number of a command's refusal means.
#[tactic(auto, unfolding(crate::specs::Sentences::meaning_line))]
fn push_meaning(sheet: &mut Vec<u8>, command: u32, words: &[u8]) -> Result<(), AllocError>
    ensures { OnOk result
        (sheet.new.items ≡ sheet.old.items ++ meaning_line command words.now) }
{
    sheet.extend_from_slice(b"    ")?;
    push_command(sheet, command)?;
    sheet.extend_from_slice(b": ")?;
    sheet.extend_from_slice(words)?;
    sheet.extend_from_slice(b"\n")
}

/// Adds what is told of a refused command: two lines.
#[tactic(auto, unfolding(crate::specs::Sentences::refused_text))]
pub fn push_refused(sheet: &mut Vec<u8>, command: u32, number: u32) -> Result<(), AllocError>
    ensures { OnOk result (sheet.new.items ≡ sheet.old.items ++ refused_text command number) }
{
    push_meaning(sheet, command, command_words(number))?;
    push_mend(sheet, command_mend(number))
}
