//! What a word is: its instruction, the registers that it uses, and whether it fits a row.
ghost use Rattle.std.specs.Prelude.{◌≡◌, ℕ};
ghost use Rattle.ds_isa.specs.Instruction.{instruction_of};

use crate::parts::numbers::{MOST, Numbers};
use crate::parts::told::{Answer, Token, number_or};
use crate::parts::verbs::Row;
use ds_asm::{AsmFault, SourceFault, assemble};
use ds_isa::{Instr, decode, encode, is_branch, links, reads, writes};
use ds_listing::source_of_words;
use ds_pages::Operation;
use std::alloc::Global;

/// What is asked about words.
#[derive(Clone, Copy)]
pub enum Question {
    /// The instruction of a word.
    Decoded,
    /// The registers that its instruction uses.
    Registers,
    /// The operation of its instruction.
    Operation,
    /// What words are that fit no row.
    Rowless,
    /// How many words that are drawn are those of their instructions.
    Back,
    /// How many words that are drawn come out of their source again.
    Sourced,
}

/// The words of questions, and how many numbers stand after each.
pub static WORDS: [Row<Question>; 6] = [
    ("decoded", 1, 1, Question::Decoded),
    ("registers", 1, 1, Question::Registers),
    ("operation", 1, 1, Question::Operation),
    ("rowless", 1, MOST, Question::Rowless),
    ("back", 7, 7, Question::Back),
    ("sourced", 7, 7, Question::Sourced),
];

/// What is answered to a question about words; none where there is no memory for it, too.
pub fn answer(alloc: Global, question: Question, numbers: &Numbers) -> Option<Answer> {
    let words = numbers.given();
    let word = *words.first()?;
    Some(match question {
        Question::Decoded => told_instruction(word),
        Question::Registers => registers_of(word),
        Question::Operation => Answer::of(&[Token::Operation(Operation::of(decode(word)).kind)]),
        Question::Rowless => kind_of_all(words, told(kind_of(word))),
        Question::Back => back(drawn(alloc, words)?.as_slice()),
        Question::Sourced => sourced(alloc, drawn(alloc, words)?.as_slice())?,
    })
}

/// The instruction of a word, and the word again where encoding does not give it back.
fn told_instruction(word: u32) -> Answer {
    let instr = decode(word);
    let mut answer = Answer::of(&[Token::Instruction(instr)]);
    let again = encode(&instr);
    if again != word {
        answer.push(&[Token::Word("as"), Token::Hex(again)]);
    }
    answer
}

/// Words that are drawn. Given are the number from which they are drawn, how many there are, how far each number is
/// shifted right and then left, the bits that are set, what is added to these after so many words each, and that many.
fn drawn(alloc: Global, given: &[u32]) -> Option<Vec<u32>> {
    let [first, count, right, left, bits, step, each] = given else {
        return None;
    };
    if *right > 31 || *left > 31 || *each == 0 {
        return None;
    }
    let mut words = Vec::new(alloc);
    let mut drawn = *first;
    for number in 0..*count {
        drawn = drawn.wrapping_mul(1_664_525).wrapping_add(1_013_904_223);
        let set = bits.wrapping_add(step.wrapping_mul(number / *each));
        words.push(drawn >> *right << *left | set).ok()?;
    }
    Some(words)
}

/// How many words encoding gives back.
fn back(words: &[u32]) -> Answer {
    let mut came = 0u32;
    for word in words {
        came = came.saturating_add(u32::from(encode(&decode(*word)) == *word));
    }
    Answer::hex(came)
}

/// How many words of an image are those of whose source it is, or the first line for which it is too long; none
/// where that is refused otherwise.
fn sourced(alloc: Global, words: &[u32]) -> Option<Answer> {
    let source = source_of_words(alloc, words).ok()?;
    match assemble(alloc, source.as_bytes()) {
        Ok(image) => Some(Answer::hex(count_alike(image.bytes(), words))),
        Err(AsmFault::Source(SourceFault::TooLong(line))) => {
            let line = Token::Number(u32::try_from(line).ok()?);
            Some(Answer::of(&[Token::Word("TooLong"), line]))
        }
        Err(_) => None,
    }
}

/// How many words stand in bytes where they stand in a list.
fn count_alike(bytes: &[u8], words: &[u32]) -> u32 {
    let mut alike = 0u32;
    for (four, word) in bytes.chunks(4).zip(words.iter()) {
        alike = alike.saturating_add(u32::from(four == word.to_le_bytes().as_slice()));
    }
    alike
}

/// The registers that an instruction reads in rs and in rt, what it writes, where it links, and
/// whether it is a branch or jump.
fn registers_of(word: u32) -> Answer {
    let instr = decode(word);
    let sources = reads(&instr);
    Answer::of(&[
        register(sources.rs),
        register(sources.rt),
        register(writes(&instr)),
        register(links(&instr)),
        Token::Word(if is_branch(&instr) { "branch" } else { "other" }),
    ])
}

/// A register's number, or - for none.
fn register(number: Option<u8>) -> Token {
    number_or(number.map(u32::from), "-")
}

/// Whether a word fits a row of the table.
#[derive(Clone, Copy)]
enum Kind {
    /// It is an instruction.
    Row,
    /// It is one of this coprocessor.
    Coprocessor(u8),
    /// It is reserved.
    Reserved,
}

/// Whether a word that encoding gives back fits a row.
fn kind_of(word: u32) -> Kind
    ensures reserved { result ≡ Kind.Reserved → instruction_of word ≡ Instr.Reserved word }
    ensures coprocessor { (unit : ℕ) → result ≡ Kind.Coprocessor unit
        → instruction_of word ≡ Instr.Cop unit word }
{
    let instr = decode(word);
    let comes_back = encode(&instr) == word;
    match instr {
        Instr::Reserved(kept) if comes_back && kept == word => Kind::Reserved,
        Instr::Cop { unit, word: kept } if comes_back && kept == word => Kind::Coprocessor(unit),
        _ => Kind::Row,
    }
}

/// A kind in words.
fn told(kind: Kind) -> &'static str {
    match kind {
        Kind::Row => "a row",
        Kind::Coprocessor(unit) => COPROCESSORS[unit as usize % 4],
        Kind::Reserved => "reserved",
    }
}

/// What words of each coprocessor are.
static COPROCESSORS: [&str; 4] = [
    "coprocessor 0",
    "coprocessor 1",
    "coprocessor 2",
    "coprocessor 3",
];

/// What the words are if all are of a kind, or else the first that is not.
fn kind_of_all(words: &[u32], kind: &'static str) -> Answer {
    for word in words {
        let other = told(kind_of(*word));
        if other != kind {
            return Answer::of(&[
                Token::Word(kind),
                Token::Word("but"),
                Token::Hex(*word),
                Token::Word("is"),
                Token::Word(other),
            ]);
        }
    }
    Answer::said(kind)
}
