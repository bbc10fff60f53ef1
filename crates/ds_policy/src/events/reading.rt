//! The reading of an input, line by line.
ghost use Rattle.std.specs.Prelude.{◌≡◌, ◌≤◌, ◌==◌, length, unwrap_or, OnOk, OnErr, true};
ghost use Rattle.ds_policy.specs.Inner.Refusal.{IsRead};
ghost use Rattle.ds_policy.specs.InputLayout.{layout_cause};
ghost use Rattle.ds_policy.specs.InputText.{with_event, follows, is_skipped, with_words, with_line, reason_at};

use crate::events::cause::{InputCause, InputReason};
use crate::events::event::{Event, TimedEvent};
use crate::events::layout::layout_cause;
use crate::events::line::{timed_event_of, words_of};
use crate::events::list::EventList;
use crate::names::NamedPages;
use crate::unread::Unread;
use std::alloc::{AllocError, Global};

impl EventList {
    /// Adds what the line of this number says.
    #[tactic(auto, unfolding(crate::specs::InputText::with_line))]
    pub(crate) fn add_line(
        &mut self,
        alloc: Global,
        pages: &NamedPages<'_>,
        number: u64,
        line: &[u8],
    ) -> Result<(), Unread<InputReason>>
        requires { length pages.now ≤ 1024 }
        ensures { IsRead (λ u. self.new) result (with_line pages.now self.old number line.now) }
    {
        if is_skipped(line) {
            return Ok(());
        }
        match self.add_words(alloc, pages, line) {
            Ok(()) => Ok(()),
            Err(Unread::Reason(cause)) => Err(Unread::Reason(reason_at(number, line, cause))),
            Err(Unread::Memory) => Err(Unread::Memory),
        }
    }

    /// Adds what the words of a line say. It is called apart, so that a line that is skipped takes no
    /// room for an event.
    #[inline(never)]
    #[tactic(auto, using(crate::proofs::InputWords::eight_words_tell))]
    fn add_words(
        &mut self,
        alloc: Global,
        pages: &NamedPages<'_>,
        line: &[u8],
    ) -> Result<(), Unread<InputCause>>
        requires { length pages.now ≤ 1024 }
        ensures { IsRead (λ u. self.new) result (with_words pages.now self.old line.now) }
    {
        let words = words_of(alloc, line)?;
        match timed_event_of(pages, &words) {
            Ok(event) => {
                if !self.follows(event.time) {
                    return Err(Unread::Reason(self.order_cause(event.time)));
                }
                self.add(&event)?;
                Ok(())
            }
            Err(cause) => Err(Unread::Reason(cause)),
        }
    }

    /// Adds an event.
    fn add(&mut self, event: &TimedEvent) -> Result<(), AllocError>
        requires { follows self.old event.now.time ≡ true }
        ensures added { OnOk result (self.new
            ≡ with_event self.old event.now.time event.now.event) }
        ensures kept { OnErr result (self.new ≡ self.old) }
    {
        match &event.event {
            Event::Order(command) => self.add_command(event.time, *command),
            Event::Input { line, keys } => self.add_characters(event.time, *line, keys.as_slice()),
        }
    }
}

fn is_skipped(line: &[u8]) -> bool
    ensures { result ≡ is_skipped line.now }
{
    line.is_empty() || line[0] == b'#'
}

/// Why the line of this number is refused: for what stands between its words, or else for this cause.
fn reason_at(number: u64, line: &[u8], cause: InputCause) -> InputReason
    ensures { result ≡ reason_at number line.now cause }
{
    InputReason {
        line: number,
        cause: layout_cause(line).unwrap_or(cause),
    }
}
