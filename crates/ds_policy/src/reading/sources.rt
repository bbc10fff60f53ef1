//! The sources of a policy's pages.
ghost use Rattle.std.specs.Prelude.{◌≡◌, IfOk, OnOk};
ghost use Rattle.ds_policy.specs.PolicyParts.{sources_of};
ghost use Rattle.ds_policy.specs.Inner.PolicyParts.{with_source};
ghost use Rattle.ds_policy.specs.Inner.Names.{AreHeld};

use crate::names::Names;
use crate::policy::{PolicyPage, Source};
use crate::text::Text;
use std::alloc::{AllocError, Global};

/// The distinct names of the pages' sources, in the order of first mention.
pub fn sources_of(alloc: Global, pages: &[PolicyPage]) -> Result<Vec<Text<64>>, AllocError>
    ensures { IfOk result (λ v. v.items ≡ sources_of pages.now) }
{
    let mut sources = Vec::new(alloc);
    let mut names = Names::new(alloc);
    for page in pages {
        add_source(&mut sources, &mut names, &page.source)?;
    }
    Ok(sources)
}

/// Adds a source's name, where it is new. The names are those of the sources.
fn add_source<'a>(
    sources: &mut Vec<Text<64>>,
    names: &mut Names<'a>,
    source: &'a Option<Source>,
) -> Result<(), AllocError>
    requires { AreHeld names.old sources.old.items }
    ensures added { OnOk result (sources.new.items ≡ with_source sources.old.items source.now) }
    ensures held { OnOk result (AreHeld names.new sources.new.items) }
{
    match source {
        Some(source) => {
            let name = source.name.as_str();
            if names.number_named(name.as_bytes()).is_none() {
                names.insert(name.as_bytes(), sources.len())?;
                sources.push(Text::of(name))?;
            }
            Ok(())
        }
        None => Ok(()),
    }
}
