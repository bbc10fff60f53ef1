//! The numbers of a line.

/// The most numbers of a line.
pub const MOST: usize = 64;

/// The numbers that a line has after the name of its step, and 0 after them.
#[derive(Clone, Copy)]
pub struct Numbers {
    pub all: [u32; MOST],
    pub count: usize,
}

impl Numbers {
    /// None.
    pub fn new() -> Numbers {
        Numbers {
            all: [0; MOST],
            count: 0,
        }
    }

    /// Those that the line has.
    pub fn given(&self) -> &[u32] {
        self.all.get(..self.count).unwrap_or(&[])
    }
}

/// The numbers of a text with blanks between them; none where a word is no number, or where there are
/// too many. All are in hexadecimal digits where that is said.
pub fn numbers_of(text: &str, in_hexadecimal: bool) -> Option<Numbers> {
    let mut numbers = Numbers::new();
    for word in text.split_whitespace() {
        let count = numbers.count;
        if count >= MOST {
            return None;
        }
        numbers.all[count] = number(word, in_hexadecimal)?;
        numbers.count = count + 1;
    }
    Some(numbers)
}

/// Words that stand for numbers: of each kind the first is 0.
static WORDS: [(&str, u32); 15] = [
    ("read", 0),
    ("write", 1),
    ("keep", 0),
    ("give", 1),
    ("own", 0),
    ("command", 1),
    ("kernel", 0),
    ("user", 1),
    ("fetch", 0),
    ("load", 1),
    ("store", 2),
    ("byte", 0),
    ("half", 1),
    ("word", 2),
    ("part", 3),
];

/// A number in hexadecimal digits, of which an address has eight, one in decimal digits, or that of a
/// word.
fn number(word: &str, in_hexadecimal: bool) -> Option<u32> {
    for (name, number) in &WORDS {
        if *name == word {
            return Some(*number);
        }
    }
    if in_hexadecimal || word.len() == 8 {
        u32::from_str_radix(word, 16).ok()
    } else {
        word.parse::<u32>().ok()
    }
}
