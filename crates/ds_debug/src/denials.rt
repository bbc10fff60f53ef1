//! What a line of the log tells of a denial, as a signal.
ghost use Rattle.std.specs.Prelude.{◌≡◌};
ghost use Rattle.ds_debug.specs.Denials.{after_three, seventh_word, signal_by, signal_told};

use ds_packets::cut_at;

/// What comes after three words.
fn after_three(line: &[u8]) -> &[u8]
    ensures { result.now ≡ after_three line.now }
{
    let (_, line) = cut_at(line, b' ');
    let (_, line) = cut_at(line, b' ');
    let (_, line) = cut_at(line, b' ');
    line
}

/// The seventh word of a line: of a denial the code of its exception.
fn seventh_word(line: &[u8]) -> &[u8]
    ensures { result.now ≡ seventh_word line.now }
{
    let (word, _) = cut_at(after_three(after_three(line)), b' ');
    word
}

/// The signal of an exception, by the digits of its code.
fn signal_by(code: &[u8]) -> Option<u8>
    ensures { result ≡ signal_by code.now }
{
    if code == b"1".as_slice() || code == b"2".as_slice() || code == b"3".as_slice() {
        Some(11)
    } else if code == b"4".as_slice() || code == b"5".as_slice() {
        Some(10)
    } else if code == b"10".as_slice() || code == b"11".as_slice() {
        Some(4)
    } else if code == b"9".as_slice() {
        Some(5)
    } else if code == b"12".as_slice() {
        Some(8)
    } else if code == b"8".as_slice() {
        Some(12)
    } else {
        None
    }
}

/// The signal of what the first line that came to the log denies, if it denies something.
pub(crate) fn signal_told(grown: &[u8]) -> Option<u8>
    ensures { result ≡ signal_told grown.now }
{
    let (line, _) = cut_at(grown, b'\n');
    signal_by(seventh_word(line))
}
