//! Texts that are like another, as a word is that was mistyped.
ghost use Rattle.std.specs.Prelude.{◌≡◌, ◌≤◌, drop, length};
ghost use Rattle.std.specs.Str.{str_eq_ignore_ascii_case};
ghost use Rattle.ds_source_reasons.specs.Likeness.{common_front, differs_by_one, is_like, is_same_but_one};

/// Whether two texts differ by upper and lower case alone, or by one byte, which is another or is
/// missing in one of them.
#[tactic(auto, unfolding(crate::specs::Likeness::is_like))]
pub fn is_like(a: &[u8], b: &[u8]) -> bool
    ensures { result ≡ is_like a.now b.now }
{
    is_same_in_any_case(a, b) || differs_by_one(a, b)
}

fn is_same_in_any_case(a: &[u8], b: &[u8]) -> bool
    ensures { result ≡ str_eq_ignore_ascii_case a.now b.now }
{
    a.eq_ignore_ascii_case(b)
}

fn differs_by_one(a: &[u8], b: &[u8]) -> bool
    ensures { result ≡ differs_by_one a.now b.now }
{
    is_same_but_one(common_front(a, b), a, b)
}

/// Whether two texts are the same after one byte of either, or of both, that follows a front of this
/// length.
fn is_same_but_one(front: usize, a: &[u8], b: &[u8]) -> bool
    requires { front ≤ length a.now }
    ensures { result ≡ is_same_but_one front a.now b.now }
{
    let next = front + 1;
    afterwards(next, a) == afterwards(next, b)
        || afterwards(next, a) == afterwards(front, b)
        || afterwards(front, a) == afterwards(next, b)
}

/// What stands behind so many bytes of a text; nothing where it has no more.
fn afterwards(count: usize, text: &[u8]) -> &[u8]
    ensures { result.now ≡ drop count text.now }
{
    if count < text.len() {
        &text[count..]
    } else {
        &[]
    }
}

/// How many bytes two texts have in common at their beginnings.
fn common_front(a: &[u8], b: &[u8]) -> usize
    ensures exact { result ≡ common_front a.now b.now }
    ensures within { result ≤ length a.now }
{
    let mut count = 0;
    while count < a.len() && count < b.len() && a[count] == b[count] {
        count += 1;
    }
    count
}
