//! A writer that stops anywhere.
use std::io;
use std::io::Write;

/// What a writer answers that takes no more.
#[derive(Clone, Copy)]
pub enum End {
    Error,
    Zero,
}

/// A writer that takes so many bytes at once, and so many in all.
#[derive(Drop)]
pub struct Limited {
    pub held: Vec<u8>,
    pub at_once: usize,
    pub room: usize,
    pub end: End,
}

impl Write for Limited {
    fn write(&mut self, buf: &[u8]) -> io::Result<usize> {
        let count = buf.len().min(self.at_once).min(self.room);
        if count == 0 {
            return match self.end {
                End::Error => Err(io::Error::from(io::ErrorKind::BrokenPipe)),
                End::Zero => Ok(0),
            };
        }
        self.held.extend_from_slice(&buf[..count])?;
        self.room -= count;
        Ok(count)
    }

    fn flush(&mut self) -> io::Result<()> {
        Ok(())
    }
}
