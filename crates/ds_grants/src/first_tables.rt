//! The page tables that a policy begins with.
ghost use Rattle.std.specs.Prelude.{◌≡◌, ◌⊎◌, ℕ, ◌<◌, ◌≤◌, ◌^◌, length, replicate, [], Some, IfSome};
ghost use Rattle.std.specs.List.{All};
ghost use Rattle.ds_mem.specs.Memory.{frame_of};
ghost use Rattle.ds_policy.specs.PolicyFacts.{IsGoodRule, HasFewRegions};
ghost use Rattle.ds_policy.specs.FirstTable.{granted_by, with_rules};
ghost use Rattle.ds_tables.specs.Places.{region_of};
ghost use Rattle.ds_tables.specs.Inner.Places.{opened};
ghost use Rattle.ds_tables.specs.Tables.{HasEmptyTable};
ghost use Rattle.ds_tables.specs.Inner.Tables.{with_entry};
ghost use Rattle.ds_grants.specs.State.{GrantsState};
ghost use Rattle.ds_grants.specs.Inner.State.{place_of_page};
ghost use Rattle.ds_grants.specs.Inner.First.{first_place, AreInOrder};
ghost use Rattle.ds_grants.specs.Words.{word_of_grant};
ghost use Rattle.ds_grants.specs.Represented.{TablesHaveWords};

use crate::layout::Place;
use crate::page_tables::word_of_right;
use ds_mem::Memory;
use ds_policy::PolicyRule;
use ds_tables::Tables;

/// The page tables of so many processes, with the words of the rules.
pub(crate) fn first_tables(rules: &[PolicyRule], processes: usize, memory: &mut Memory) -> Tables
    requires processes { processes ≤ 100 }
    requires good { All (IsGoodRule processes 1024) rules.now }
    requires regions { HasFewRegions rules.now }
    ensures words { HasEmptyTable memory.old → (g : GrantsState)
        → g.table ≡ with_rules (replicate processes []) 1 rules.now → AreInOrder g
        → TablesHaveWords memory.new result g }
    ensures elsewhere { (f : ℕ) → (f < 2) ⊎ (402 ≤ f)
        → frame_of memory.new f ≡ frame_of memory.old f }
{
    let mut tables = Tables::new(processes);
    for rule in rules {
        write_rule(rule, memory, &mut tables);
    }
    tables
}

/// Writes the word of a rule.
fn write_rule(rule: &PolicyRule, memory: &mut Memory, tables: &mut Tables)
    requires { IfSome rule.now.page (λ q. q < 1024) }
    ensures tables { tables.new
        ≡ opened tables.old rule.now.process (region_of rule.now.address) }
    ensures memory { (g : GrantsState) → place_of_page g rule.now.page ≡ first_place rule.now.page
        → memory.new
        ≡ with_entry memory.old tables.old rule.now.process rule.now.address
        (word_of_grant g (Some (granted_by 0 rule.now))) }
    ensures elsewhere { (f : ℕ) → (f < 2) ⊎ (402 ≤ f)
        → frame_of memory.new f ≡ frame_of memory.old f }
    ensures size { length memory.old ≡ 2 ^ 23 }
{
    let _first = memory.word(0);
    let word = word_of_right(rule.right, first_place(rule.page));
    let _ = tables.put_entry(memory, rule.process, rule.address, word);
}

/// The frame of a page's number, in which no other page may lie, if there is a page.
fn first_place(page: Option<u32>) -> Option<Place>
    ensures { result ≡ first_place page }
{
    match page {
        Some(page) => Some(Place {
            frame: page,
            shared: false,
        }),
        None => None,
    }
}
