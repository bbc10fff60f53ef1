//! Words of memory that are wanted at the end of a run on the bare machine, and the texts that write
//! them.
ghost use Rattle.std.specs.Prelude.{◌≡◌, ◌≤◌, ◌+◌, ◌++◌, ◌∷◌, ◌↔◌, [], IfSome, IsTrue, List, None, map};
ghost use Rattle.std.specs.List.{All};
ghost use Rattle.ds_words.specs.Spans.{IsSpan, WriteSpans, WritesSpan, spans_in, written_span};

use crate::windows::{digits_of, window_address};

/// Words of memory.
#[derive(Clone, Copy, Debug, PartialEq, Eq)]
pub struct Span {
    /// The physical address of the first word.
    pub address: u32,
    /// How many words there are.
    pub count: u32,
}

/// How many spans there may be.
const MOST: usize = 8;

/// At most eight spans, in their order.
#[derive(Clone, Copy, Debug, PartialEq, Eq)]
pub struct Spans {
    /// Those before `count` are the spans.
    all: [Span; MOST],
    count: usize,
}

impl Spans {
    /// No span.
    pub fn none() -> Spans
        ensures { spans_in result ≡ [] }
    {
        let none = Span {
            address: 0,
            count: 0,
        };
        Spans {
            all: [none; MOST],
            count: 0,
        }
    }

    /// These and one more, where there is room.
    pub fn with(mut self, span: Span) -> Option<Spans>
        ensures some { IfSome result (λ more. spans_in more ≡ spans_in self ++ span ∷ []) }
        ensures none { result ≡ None → 8 ≤ self.count }
        ensures one { IfSome result (λ more. more.count ≡ self.count + 1) }
        ensures few { IfSome result (λ more. more.count ≤ 8) }
    {
        if self.count >= MOST {
            return None;
        }
        self.all[self.count] = span;
        self.count += 1;
        Some(self)
    }

    /// The spans.
    pub fn as_slice(&self) -> &[Span]
        ensures { result.now ≡ spans_in self.now }
    {
        &self.all[..self.count.min(MOST)]
    }
}

/// How many bytes of memory there are.
const MEMORY: u64 = 0x80_0000;

/// What a text `ADDRESS:COUNT` writes, whether or not there may be such a span.
fn written_span(text: &str) -> Option<Span>
    ensures { result ≡ written_span text.now }
{
    let (address, count) = text.split_once(':')?;
    Some(Span {
        address: window_address(address.as_bytes())?,
        count: digits_of(10, 10, count.as_bytes())?,
    })
}

/// Whether there may be such a span.
fn is_span(span: Span) -> bool
    ensures { IsTrue result ↔ IsSpan span }
{
    let end = u64::from(span.address) + 4 * u64::from(span.count);
    span.address % 4 == 0 && span.count >= 1 && span.count <= 1024 && end <= MEMORY
}

/// The span that a text writes.
fn span_of(text: &str) -> Option<Span>
    ensures some { IfSome result (λ span. WritesSpan text.now span) }
    ensures none { result ≡ None → (span : Span) → ¬ WritesSpan text.now span }
{
    let span = written_span(text)?;
    if is_span(span) { Some(span) } else { None }
}

/// The spans that texts write, where there are at most eight.
pub(crate) fn spans_of(texts: &[&str]) -> Option<Spans>
    ensures some { IfSome result (λ spans. WriteSpans (map (λ t. t.now) texts.now)
        (spans_in spans)) }
    ensures good { IfSome result (λ spans. All IsSpan (spans_in spans)) }
    ensures none { result ≡ None → (spans : List Span)
        → ¬ WriteSpans (map (λ t. t.now) texts.now) spans }
{
    let mut spans = Spans::none();
    for text in texts {
        spans = spans.with(span_of(text)?)?;
    }
    Some(spans)
}
