//! Readers and writers that fail, or never end.

use std::io::{Error, ErrorKind, Read, Result, Write};

/// Gives so many bytes at each read at most, and behind `left` reads answers an error.
#[derive(Drop)]
pub struct Breaking<'a> {
    /// What it gives.
    pub text: &'a [u8],
    /// How many bytes it gives at most.
    pub most: usize,
    /// How many reads give something before the error.
    pub left: u32,
    /// What the error is.
    pub error: ErrorKind,
}

impl<'a> Breaking<'a> {
    /// Gives so many bytes at each read at most.
    pub fn into_pieces(text: &'a [u8], most: usize) -> Breaking<'a> {
        Breaking {
            text,
            most,
            left: u32::MAX,
            error: ErrorKind::Other,
        }
    }
}

impl Read for Breaking<'_> {
    fn read(&mut self, buf: &mut [u8]) -> Result<usize> {
        if self.left == 0 {
            return Err(Error::from(self.error));
        }
        self.left -= 1;
        let most = self.most.min(buf.len());
        let (mut front, rest) = self.text.split_at(self.text.len().min(most));
        self.text = rest;
        front.read(buf)
    }
}

/// Takes so many bytes at each write at most. Behind `left` more calls it takes none, or answers an error.
#[derive(Drop)]
pub struct Filling {
    /// What it has taken.
    pub held: Vec<u8>,
    /// How many bytes it takes at a write.
    pub most: usize,
    /// How many calls it goes along with.
    pub left: u32,
    /// Whether it answers an error behind them.
    pub answers_an_error: bool,
}

impl Write for Filling {
    fn write(&mut self, buf: &[u8]) -> Result<usize> {
        if self.left == 0 {
            return if self.answers_an_error {
                Err(Error::from(ErrorKind::Other))
            } else {
                Ok(0)
            };
        }
        self.left -= 1;
        let count = buf.len().min(self.most);
        let (taken, _) = buf.split_at(count);
        self.held.extend_from_slice(taken)?;
        Ok(count)
    }

    fn flush(&mut self) -> Result<()> {
        if self.left == 0 {
            return Err(Error::from(ErrorKind::Other));
        }
        self.left -= 1;
        Ok(())
    }
}

/// Gives one space at each read, and never ends.
#[derive(Drop)]
pub struct Spaces;

impl Read for Spaces {
    fn read(&mut self, buf: &mut [u8]) -> Result<usize> {
        match buf.first_mut() {
            Some(place) => {
                *place = b' ';
                Ok(1)
            }
            None => Ok(0),
        }
    }
}
