//! What is worth a look in a policy and the images of its sources.
ghost use Rattle.std.specs.Prelude.{◌≡◌, ◌≤◌, ◌<◌, ◌+◌, ◌++◌, ◌∷◌, [], OnOk, IfOk, length, option_map, ◌==◌, bytes_eq, is_some, position, nat_le, ◌*◌};
ghost use Rattle.std.specs.List.{list_any};
ghost use Rattle.ds_policy.specs.FirstTable.{table_of};
ghost use Rattle.ds_policy.specs.Grants.{has_right, is_some_right, is_write};
ghost use Rattle.ds_policy.specs.Pages.{names, page_address, entry_at};
ghost use Rattle.ds_policy.specs.PolicyParts.{sources_of};
ghost use Rattle.ds_check.specs.PolicyNotes.{gives_write, image_by_name, is_past_end, names_page, page_notes, pages_notes, policy_notes, process_notes, processes_notes, source_is_past_end};

use ds_asm::Image;
use ds_policy::{
    Grant, OutOfMemory, Policy, PolicyPage, PolicyProcess, PolicyRule, Right, Source, Table, Text,
};
use std::alloc::{AllocError, Global};

/// What is worth a look in a policy. Processes count from 1 and pages from 0.
#[derive(Clone, Copy, Debug, PartialEq, Eq)]
pub enum PolicyNote {
    /// The start of this process is no multiple of four.
    StartOffFour(u32),
    /// This process may not read the page in which it starts.
    StartNotGranted(u32),
    /// The part of this page begins at the end of its image, or past it.
    PartPastEnd(u32),
    /// No rule names this page.
    UnusedPage(u32),
    /// This page has a part of a source, and a rule lets a process write it.
    WritableCode(u32),
}

/// What is worth a look in a policy: of each process and then of each page, in their order. The images
/// are those of the policy's sources, in the order of their names; of a source without an image it is
/// not said where it ends.
pub fn policy_notes(
    alloc: Global,
    policy: &Policy,
    images: &[Image],
) -> Result<Vec<PolicyNote>, OutOfMemory>
    ensures { IfOk result (λ v. v.items ≡ policy_notes policy.now images.now) }
{
    let mut notes = Vec::new(alloc);
    let table = Table::new(alloc, policy)?;
    push_processes(&mut notes, &table, policy.processes())?;
    push_pages(&mut notes, policy, images)?;
    Ok(notes)
}

fn push_processes(
    notes: &mut Vec<PolicyNote>,
    table: &Table,
    processes: &[PolicyProcess],
) -> Result<(), AllocError>
    requires few { length processes.now ≤ 100 }
    requires each { length table.now ≡ length processes.now }
    ensures { OnOk result
        (notes.new.items ≡ notes.old.items ++ processes_notes table.now 1 processes.now) }
{
    for (index, process) in processes.iter().enumerate() {
        push_process(notes, table, index as u32 + 1, process.start)?;
    }
    Ok(())
}

fn push_process(
    notes: &mut Vec<PolicyNote>,
    table: &Table,
    process: u32,
    start: u32,
) -> Result<(), AllocError>
    requires low { 0 < process }
    requires high { process ≤ length table.now }
    ensures { OnOk result
        (notes.new.items ≡ notes.old.items ++ process_notes table.now process start) }
{
    if start % 4 != 0 {
        push(notes, PolicyNote::StartOffFour(process))?;
    }
    if !is_granted(table.entry(process, start - start % 4096)) {
        push(notes, PolicyNote::StartNotGranted(process))?;
    }
    Ok(())
}

fn push(notes: &mut Vec<PolicyNote>, note: PolicyNote) -> Result<(), AllocError>
    ensures { OnOk result (notes.new.items ≡ notes.old.items ++ note ∷ []) }
{
    notes.push(note)?;
    Ok(())
}

/// Whether something is granted there, and be it to read alone.
fn is_granted(grant: Option<Grant>) -> bool
    ensures { result ≡ has_right grant }
{
    match grant {
        Some(grant) => !matches!(grant.right, Right::Nothing),
        None => false,
    }
}

fn push_pages(
    notes: &mut Vec<PolicyNote>,
    policy: &Policy,
    images: &[Image],
) -> Result<(), AllocError>
    ensures { OnOk result (notes.new.items
        ≡ notes.old.items ++ pages_notes policy.now images.now 0 policy.now.pages) }
{
    prove!(policy.frames() <= 1024);
    for (index, page) in policy.pages().iter().enumerate() {
        push_page(notes, policy, images, index as u32, page)?;
    }
    Ok(())
}

fn push_page(
    notes: &mut Vec<PolicyNote>,
    policy: &Policy,
    images: &[Image],
    number: u32,
    page: &PolicyPage,
) -> Result<(), AllocError>
    ensures { OnOk result (notes.new.items
        ≡ notes.old.items ++ page_notes policy.now images.now number page.now) }
{
    if is_past_end(policy.sources(), images, &page.source) {
        push(notes, PolicyNote::PartPastEnd(number))?;
    }
    if !is_named(policy.rules(), number) {
        push(notes, PolicyNote::UnusedPage(number))?;
    }
    if page.source.is_some() && is_written(policy.rules(), number) {
        push(notes, PolicyNote::WritableCode(number))?;
    }
    Ok(())
}

/// Whether a part begins where its image has no bytes.
fn is_past_end(names: &[Text<64>], images: &[Image], source: &Option<Source>) -> bool
    ensures { result ≡ source_is_past_end names.now images.now source.now }
{
    let Some(source) = source else {
        return false;
    };
    match image_by_name(names, images, source.name.as_str()) {
        Some(image) => image.len() <= 4096 * source.part as usize,
        None => false,
    }
}

/// The image of the source of this name, if there is one.
fn image_by_name<'a>(names: &[Text<64>], images: &'a [Image], name: &str) -> Option<&'a Image>
    ensures { option_map (λ i. i.now) result ≡ image_by_name names.now images.now name.now }
{
    match place_of_name(names, name) {
        Some(place) => images.get(place),
        None => None,
    }
}

fn place_of_name(names: &[Text<64>], name: &str) -> Option<usize>
    ensures { result ≡ position (λ n. bytes_eq n name.now) names.now }
{
    names.iter().position(|n| n.as_str() == name)
}

fn is_named(rules: &[PolicyRule], page: u32) -> bool
    ensures { result ≡ list_any (names_page page) rules.now }
{
    rules.iter().any(|rule| rule.page == Some(page))
}

fn is_written(rules: &[PolicyRule], page: u32) -> bool
    ensures { result ≡ list_any (gives_write page) rules.now }
{
    rules.iter().any(|rule| rule.page == Some(page) && rule.right == Right::Write)
}
