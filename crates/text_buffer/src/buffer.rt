//! Text that is put together from short pieces.
ghost use Rattle.std.specs.Prelude.{◌≡◌, ◌++◌, [], IfOk, OnOk, decimal, length};

use itoa::{Buffer, write_digits};
use std::alloc::{AllocError, Global};
use std::marker::Model;
use std::mem;

/// Text that is put together from short pieces. The room for it is filled beforehand, so that a piece costs one
/// comparison and its copy, half of what it costs a `Vec`. A contract sees the bytes of the text.
#[derive(Drop)]
pub struct TextBuffer {
    /// The text, and the room behind it.
    bytes: Vec<u8>,
    /// Where the text ends.
    end: usize,
}

impl Model for TextBuffer {
    ghost use Rattle.std.specs.Prelude.{ℕ, ◌≤◌, List, length, take};

    ghost Value = { List ℕ };

    ghost view = { λ text. take text.end text.bytes.items };

    ghost invariant = { λ text. text.end ≤ length text.bytes.items };
}

impl TextBuffer {
    /// Nothing. Takes no memory.
    pub fn new(alloc: Global) -> TextBuffer
        ensures { result ≡ [] }
    {
        TextBuffer {
            bytes: Vec::new(alloc),
            end: 0,
        }
    }

    /// Nothing, with room for so many bytes.
    pub fn with_room(alloc: Global, room: usize) -> Result<TextBuffer, AllocError>
        ensures { IfOk result (λ text. text ≡ []) }
    {
        let mut text = TextBuffer::new(alloc);
        text.make_room(room)?;
        Ok(text)
    }

    /// Makes room for so many bytes more. Takes memory, and fills it, only where there is no such room.
    pub fn make_room(&mut self, room: usize) -> Result<(), AllocError>
        ensures { self.new ≡ self.old }
    {
        if room <= self.bytes.len() - self.end {
            return Ok(());
        }
        self.bytes.truncate(self.end);
        self.bytes.reserve(room)?;
        let room = self.bytes.capacity();
        self.bytes.resize(room, 0)
    }

    /// Where it takes its memory.
    pub fn allocator(&self) -> Global {
        *self.bytes.allocator()
    }

    /// The bytes.
    pub fn bytes(&self) -> &[u8]
        ensures { result.now ≡ self.now }
    {
        &self.bytes[..self.end]
    }

    /// The bytes alone.
    pub fn into_bytes(self) -> Vec<u8>
        ensures { result.items ≡ self }
    {
        let TextBuffer { mut bytes, end } = self;
        bytes.truncate(end);
        bytes
    }

    /// The bytes alone, after which nothing is here, and no room.
    pub fn take_bytes(&mut self) -> Vec<u8>
        ensures taken { result.items ≡ self.old }
        ensures emptied { self.new ≡ [] }
    {
        let alloc = self.allocator();
        mem::replace(self, TextBuffer::new(alloc)).into_bytes()
    }

    /// Nothing, with the room of what was here.
    pub fn clear(&mut self)
        ensures { self.new ≡ [] }
    {
        self.end = 0;
    }

    /// Puts a piece at the end. Linear in the piece, and amortised where there is no room for it.
    pub fn push(&mut self, piece: &[u8]) -> Result<(), AllocError>
        ensures { OnOk result (self.new ≡ self.old ++ piece.now) }
    {
        if self.bytes.len() - self.end < piece.len() {
            return self.push_and_grow(piece);
        }
        let end = self.end + piece.len();
        self.bytes[self.end..end].copy_from_slice(piece);
        self.end = end;
        Ok(())
    }

    /// Puts a number at the end in decimal digits, which are written where they stay.
    pub fn push_number(&mut self, number: u64) -> Result<(), AllocError>
        ensures { OnOk result (self.new ≡ self.old ++ decimal number) }
    {
        let digits = digits_of(number);
        if self.bytes.len() - self.end < digits {
            return self.push_and_grow(Buffer::new().format(number).as_bytes());
        }
        self.end += digits;
        write_digits(number, &mut self.bytes, self.end);
        Ok(())
    }

    /// Puts a piece at the end where there is no room for it.
    fn push_and_grow(&mut self, piece: &[u8]) -> Result<(), AllocError>
        ensures { OnOk result (self.new ≡ self.old ++ piece.now) }
    {
        self.bytes.truncate(self.end);
        self.bytes.extend_from_slice(piece)?;
        self.end = self.bytes.len();
        let room = self.bytes.capacity();
        self.bytes.resize(room, 0)
    }
}

/// How many decimal digits a number has.
fn digits_of(number: u64) -> usize
    ensures { result ≡ length (decimal number) }
{
    match number.checked_ilog10() {
        Some(power) => power as usize + 1,
        None => 1,
    }
}
