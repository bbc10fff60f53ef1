//! The first pass: where labels stand, and whether everything fits.
ghost use Rattle.std.specs.Prelude.{◌≡◌, ◌≢◌, ◌≤◌, ◌∷◌, Some, None, Ok, option_map, IfOk, IfErr};
ghost use Rattle.ds_asm.specs.Inner.Assembling.{IsLaid, Holds, Comes, Takes};
ghost use Rattle.ds_asm.specs.Assembly.{empty_layout, labelled, sized, laid_line, laid_lines, lines_of};
ghost use Rattle.ds_asm.specs.Assembly as assembly;
ghost use Rattle.ds_asm.specs.Faults.{labels_past};
ghost use Rattle.ds_asm.specs.Lines.{line_of};
ghost use Rattle.ds_asm.specs.Inner.Plain.{plain_statement};

use crate::cause::{Cause, Stop};
use crate::fault::AsmFault;
use crate::labels::Labels;
use crate::line::{MOST_BYTES, Statement, line_of};
use crate::source::first_line;
use std::alloc::Global;

/// Where the image begins.
pub const ORIGIN: u32 = 0x40_0000;

/// Where the labels stand, and how long the image is, as far as lines were taken.
#[derive(Drop)]
pub(crate) struct Layout<'a> {
    pub(crate) labels: Labels<'a>,
    pub(crate) size: u32,
}

/// The layout of a source, or its first fault of the first pass.
pub(crate) fn layout_of(alloc: Global, text: &[u8]) -> Result<Layout<'_>, AsmFault>
    ensures { Comes (λ m l. IsLaid m l) result (laid_lines 1 empty_layout (lines_of text.now)) }
{
    let mut layout = Layout::new(alloc);
    let mut number = 0u64;
    let mut rest = text;
    while !rest.is_empty() {
        let (line, after) = first_line(rest);
        number += 1;
        match layout.add_line(line) {
            Ok(()) => rest = after,
            Err(stop) => return Err(stop.fault(number)),
        }
    }
    Ok(layout)
}

impl<'a> Layout<'a> {
    /// No lines of a source were taken.
    pub(crate) fn new(alloc: Global) -> Layout<'a>
        ensures { IsLaid result empty_layout }
    {
        Layout {
            labels: Labels::new(alloc),
            size: 0,
        }
    }

    /// Takes a line.
    pub(crate) fn add_line(&mut self, line: &'a [u8]) -> Result<(), Stop>
        requires { self.old.size ≤ 65536 }
        ensures said { (l : assembly.Layout) → IsLaid self.old l
            → Takes (λ _ m. IsLaid self.new m) result (laid_line (line_of line.now) l) }
        ensures fits { IfOk result (λ _. self.new.size ≤ 65536) }
        ensures left { IfErr result (λ stop. stop ≢ Stop.Memory → (l : assembly.Layout)
            → IsLaid self.old l → Holds self.new.labels (labels_past (line_of line.now) l)) }
    {
        let line = match line_of(line) {
            Ok(line) => line,
            Err(cause) => return Err(Stop::Refused(Cause::Syntax(cause))),
        };
        self.add_label(line.label)?;
        self.size = sized(self.size, line.statement)?;
        Ok(())
    }

    /// Adds a label, where there is one, at the end of the image so far.
    fn add_label(&mut self, label: Option<&'a [u8]>) -> Result<(), Stop>
        requires { self.old.size ≤ 65536 }
        ensures said { (labels : assembly.Labels) → Holds self.old.labels labels
            → Takes (λ _ more. Holds self.new.labels more) result
            (labelled self.old.size (option_map (λ t. t.now) label.entry) labels) }
        ensures size { self.new.size ≡ self.old.size }
        ensures left { IfErr result (λ stop. stop ≢ Stop.Memory → self.new ≡ self.old) }
    {
        let name = match label {
            Some(name) => name,
            None => return Ok(()),
        };
        let is_new = self.labels.add(name, ORIGIN + self.size)?;
        if !is_new {
            return Err(Stop::Refused(Cause::DoubleLabel));
        }
        Ok(())
    }
}

/// The size of the image with a statement, where there is one.
fn sized(at: u32, statement: Option<Statement<'_>>) -> Result<u32, Cause>
    requires { at ≤ 65536 }
    ensures said { result ≡ sized at (option_map plain_statement statement.entry) }
    ensures fits { IfOk result (λ s. s ≤ 65536) }
{
    let statement = match statement {
        Some(statement) => statement,
        None => return Ok(at),
    };
    if let Some(cause) = statement.cause_at(u64::from(at)) {
        return Err(cause);
    }
    let end = u64::from(at) + statement.size();
    if end > u64::from(MOST_BYTES) {
        return Err(Cause::TooLong);
    }
    Ok(end as u32)
}
