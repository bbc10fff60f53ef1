//! Answers, as the files of cases write them.

use ds_cp0::ExceptionCode;
use ds_isa::Instr;
use ds_pages::OperationKind;
use std::fmt;

/// The most words of an answer.
const MOST: usize = 256;

/// A word of an answer.
#[derive(Clone, Copy)]
pub enum Token {
    /// A word as it stands.
    Word(&'static str),
    /// A number in decimal digits.
    Number(u32),
    /// A number in eight hexadecimal digits.
    Hex(u32),
    /// The cause of an exception.
    Cause(ExceptionCode),
    /// An instruction.
    Instruction(Instr),
    /// The kind of an operation.
    Operation(OperationKind),
}

impl fmt::Display for Token {
    fn fmt<W: fmt::Write>(&self, f: &mut fmt::Formatter<W>) -> fmt::Result {
        match self {
            Token::Word(word) => f.write_str(word),
            Token::Number(number) => write!(f, "{number}"),
            Token::Hex(number) => write!(f, "{number:08x}"),
            Token::Cause(code) => write!(f, "{code:?}"),
            Token::Instruction(instr) => write!(f, "{instr:?}"),
            Token::Operation(kind) => write!(f, "{kind:?}"),
        }
    }
}

/// A number in decimal digits, or a word for none.
pub fn number_or(number: Option<u32>, word: &'static str) -> Token {
    match number {
        Some(number) => Token::Number(number),
        None => Token::Word(word),
    }
}

/// What comes of a case: words with a blank between.
#[derive(Clone, Copy)]
pub struct Answer {
    tokens: [Token; MOST],
    count: usize,
}

impl Answer {
    /// An answer of these words.
    pub fn of(tokens: &[Token]) -> Answer {
        let mut answer = Answer {
            tokens: [Token::Number(0); MOST],
            count: 0,
        };
        answer.push(tokens);
        answer
    }

    /// An answer of one word.
    pub fn said(word: &'static str) -> Answer {
        Answer::of(&[Token::Word(word)])
    }

    /// An answer of one number in hexadecimal digits.
    pub fn hex(number: u32) -> Answer {
        Answer::of(&[Token::Hex(number)])
    }

    /// This answer, or a word where it has none.
    pub fn or(self, word: &'static str) -> Answer {
        if self.count == 0 {
            Answer::said(word)
        } else {
            self
        }
    }

    /// Adds words, as far as there is room.
    pub fn push(&mut self, tokens: &[Token]) {
        for token in tokens {
            if self.count < MOST {
                self.tokens[self.count] = *token;
                self.count += 1;
            }
        }
    }
}

impl fmt::Display for Answer {
    fn fmt<W: fmt::Write>(&self, f: &mut fmt::Formatter<W>) -> fmt::Result {
        let mut between = "";
        for place in 0..MOST {
            if place < self.count {
                write!(f, "{between}{}", self.tokens[place])?;
                between = " ";
            }
        }
        Ok(())
    }
}
