//! Words of a process's memory that are wanted at the end of a run, and the texts that write them.
ghost use Rattle.std.specs.Prelude.{◌≡◌, ◌≤◌, ◌+◌, ◌++◌, ◌∷◌, ◌↔◌, [], IfSome, IsTrue, List, None, map};
ghost use Rattle.std.specs.List.{All};
ghost use Rattle.ds_words.specs.Windows.{IsWindow, WriteWindows, WritesWindow, window_address, digits_of, windows_in, written_window};

use ds_word::number_of_digits;

/// Words of a process's memory.
#[derive(Clone, Copy, Debug, PartialEq, Eq)]
pub struct Window {
    /// The number of the process, from 1 to 100.
    pub process: u32,
    /// The address of the first word, a multiple of four.
    pub address: u32,
    /// How many words there are, from 1 to 1,024. The last ends at 2^32 or below.
    pub count: u32,
}

/// How many windows there may be.
const MOST: usize = 8;

/// At most eight windows, in their order.
#[derive(Clone, Copy, Debug, PartialEq, Eq)]
pub struct Windows {
    /// Those before `count` are the windows.
    all: [Window; MOST],
    count: usize,
}

impl Windows {
    /// No window.
    pub fn none() -> Windows
        ensures { windows_in result ≡ [] }
    {
        let none = Window {
            process: 0,
            address: 0,
            count: 0,
        };
        Windows {
            all: [none; MOST],
            count: 0,
        }
    }

    /// These and one more, where there is room.
    fn with(mut self, window: Window) -> Option<Windows>
        ensures some { IfSome result (λ more. windows_in more ≡ windows_in self ++ window ∷ []) }
        ensures none { result ≡ None → 8 ≤ self.count }
        ensures one { IfSome result (λ more. more.count ≡ self.count + 1) }
        ensures few { IfSome result (λ more. more.count ≤ 8) }
    {
        if self.count >= MOST {
            return None;
        }
        self.all[self.count] = window;
        self.count += 1;
        Some(self)
    }

    /// The windows.
    pub fn as_slice(&self) -> &[Window]
        ensures { result.now ≡ windows_in self.now }
    {
        &self.all[..self.count.min(MOST)]
    }
}

/// The number that digits of a base write: one or more, and at most so many.
pub(crate) fn digits_of(base: u64, most: usize, text: &[u8]) -> Option<u32>
    requires { base ≤ 16 }
    ensures { result ≡ digits_of base most text.now }
{
    if text.is_empty() || text.len() > most {
        return None;
    }
    Some(number_of_digits(base, u64::from(u32::MAX), text)? as u32)
}

/// The address that a text writes: one to eight hexadecimal digits, with `0x` before them or without.
pub(crate) fn window_address(text: &[u8]) -> Option<u32>
    ensures { result ≡ window_address text.now }
{
    match text.strip_prefix(b"0x".as_slice()) {
        Some(digits) => digits_of(16, 8, digits),
        None => digits_of(16, 8, text),
    }
}

/// What a text `P:ADDRESS:COUNT` writes, whether or not there may be such a window.
fn written_window(text: &str) -> Option<Window>
    ensures { result ≡ written_window text.now }
{
    let (process, rest) = text.split_once(':')?;
    let (address, count) = rest.split_once(':')?;
    Some(Window {
        process: digits_of(10, 10, process.as_bytes())?,
        address: window_address(address.as_bytes())?,
        count: digits_of(10, 10, count.as_bytes())?,
    })
}

/// Whether there may be such a window.
fn is_window(window: Window) -> bool
    ensures { IsTrue result ↔ IsWindow window }
{
    let end = u64::from(window.address) + 4 * u64::from(window.count);
    window.process >= 1
        && window.process <= 100
        && window.address % 4 == 0
        && window.count >= 1
        && window.count <= 1024
        && end <= 0x1_0000_0000
}

/// The window that a text writes.
fn window_of(text: &str) -> Option<Window>
    ensures some { IfSome result (λ window. WritesWindow text.now window) }
    ensures none { result ≡ None → (window : Window) → ¬ WritesWindow text.now window }
{
    let window = written_window(text)?;
    if is_window(window) {
        Some(window)
    } else {
        None
    }
}

/// The windows that texts write, where there are at most eight.
pub fn windows_of(texts: &[&str]) -> Option<Windows>
    ensures some { IfSome result (λ windows. WriteWindows (map (λ t. t.now) texts.now)
        (windows_in windows)) }
    ensures good { IfSome result (λ windows. All IsWindow (windows_in windows)) }
    ensures none { result ≡ None → (windows : List Window)
        → ¬ WriteWindows (map (λ t. t.now) texts.now) windows }
{
    let mut windows = Windows::none();
    for text in texts {
        windows = windows.with(window_of(text)?)?;
    }
    Some(windows)
}
