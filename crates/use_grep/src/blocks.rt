//! Reads a file in blocks of whole lines.

ghost use Rattle.std.specs.Prelude.{◌≡◌, ◌≤◌, ◌+◌, IfOk, vec_len};

use memchr::memrchr;
use std::alloc::{AllocError, Global};
use std::io;
use std::io::Read;
use thiserror::Error;

// The number of bytes that are read at a time. A block is longer than its last line by at most this
// number.
const BYTES_PER_READ: usize = 1 << 17;

/// Why there is no next block.
#[derive(Debug, Drop, Error)]
pub enum BlockError {
    /// The file could not be read.
    #[error("{0}")]
    Read(io::Error),
    /// A line exceeds the maximum length.
    #[error("a line is longer than --max-line")]
    TooLong,
    /// An allocation for the line failed.
    #[error("out of memory")]
    Memory,
}

impl From<AllocError> for BlockError {
    fn from(_: AllocError) -> BlockError {
        BlockError::Memory
    }
}

/// The lines of a reader, in blocks of whole lines. Only one block is in memory.
#[derive(Drop)]
pub struct Blocks<R: Read + Drop> {
    reader: R,
    longest: u64,
    end_of_line: u8,
    buffer: Vec<u8>,
    // The offset at which the returned lines end, the offset after their last line break, and the
    // number of bytes that were read.
    end: usize,
    taken: usize,
    filled: usize,
    ghost end_is_taken: { end ≤ taken },
    ghost taken_was_read: { taken ≤ filled },
    ghost read_fits: { filled ≤ vec_len buffer },
}

impl<R: Read + Drop> Blocks<R> {
    /// Creates a reader of blocks. A line ends with `end_of_line`, and has at most `longest` bytes.
    ///
    /// # Errors
    ///
    /// `AllocError` if an allocation fails.
    pub fn new(
        alloc: Global,
        reader: R,
        longest: u64,
        end_of_line: u8,
    ) -> Result<Blocks<R>, AllocError> {
        Ok(Blocks {
            reader,
            longest,
            end_of_line,
            buffer: vec![in alloc; 0; BYTES_PER_READ]?,
            end: 0,
            taken: 0,
            filled: 0,
        })
    }

    /// Reads the next block, and returns whether there is one.
    ///
    /// # Errors
    ///
    /// `Read` if the reader fails, `TooLong` if a line is too long, and `Memory` if an allocation
    /// fails.
    pub fn advance(&mut self) -> Result<bool, BlockError> {
        self.move_unread_bytes_to_front();
        for _ in 0..u64::MAX {
            let before = self.filled;
            if self.read_more()? == 0 {
                return Ok(self.take_final_block());
            }
            if let Some(at) = memrchr(self.end_of_line, &self.buffer[before..self.filled]) {
                self.taken = before + at + 1;
                self.end = before + at;
                return Ok(true);
            }
        }
        Ok(false)
    }

    /// Returns the lines of the block. The last one has no line break.
    pub fn lines(&self) -> &[u8] {
        &self.buffer[..self.end]
    }

    // Moves the bytes that were not yet returned to the front of the buffer.
    fn move_unread_bytes_to_front(&mut self) {
        self.buffer.copy_within(self.taken..self.filled, 0);
        let left = self.filled - self.taken;
        self.end = 0;
        self.taken = 0;
        self.filled = left;
    }

    // Makes a block of the bytes that remain at the end of the file. Returns whether there are any.
    fn take_final_block(&mut self) -> bool {
        self.taken = self.filled;
        self.end = self.filled;
        self.filled > 0
    }

    // Reads more bytes into the buffer, and returns their number. It is 0 at the end of the file.
    fn read_more(&mut self) -> Result<usize, BlockError>
        ensures { IfOk result (λ n. self.new.filled ≡ self.old.filled + n) }
    {
        if self.filled as u64 > self.longest {
            return Err(BlockError::TooLong);
        }
        self.double_buffer_if_full()?;
        let room = &mut self.buffer[self.filled..];
        let most = room.len().min(BYTES_PER_READ);
        match self.reader.read(&mut room[..most]) {
            Ok(count) => {
                self.filled += count;
                Ok(count)
            }
            Err(why) => Err(BlockError::Read(why)),
        }
    }

    // Doubles the buffer if it is full.
    fn double_buffer_if_full(&mut self) -> Result<(), AllocError>
        ensures { self.new.filled ≡ self.old.filled }
    {
        if self.filled == self.buffer.len() {
            let more = self.buffer.len().saturating_mul(2);
            self.buffer.resize(more, 0)?;
        }
        Ok(())
    }
}
