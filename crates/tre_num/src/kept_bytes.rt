// The bytes of a table, as they came.
ghost use Rattle.std.specs.Prelude.{◌≡◌, [], ◌++◌, ◌∷◌, false, map, IsOk, OnErr, OnOk, Some};
ghost use Rattle.std.specs.Io.{ReadsAtMost};
ghost use Rattle.std.specs.Io.KnownBytes.{ReadConsumes};
ghost use Rattle.tre_num.specs.Kept.{IsInFirst, is_read, left_of};

use std::alloc::{AllocError, Global};
use std::collections::VecDeque;
use std::io::{self, Read};
use std::marker::Model;

/// Bytes in the pieces in which they came. Each piece is kept in memory of its own size, which is
/// free again once it is read.
#[derive(Drop)]
pub(crate) struct KeptBytes {
    pieces: VecDeque<Vec<u8>>,
    // How many bytes of the first piece were read.
    place: usize,
}

impl Model for KeptBytes {
    ghost use Rattle.std.specs.Prelude.{ℕ, List, map};
    ghost use Rattle.tre_num.specs.Kept.{IsInFirst, left_of};

    ghost Value = { List ℕ };

    ghost view = { λ p. left_of p.place (map (λ piece. piece.items) p.pieces.items) };

    ghost invariant = { λ p. IsInFirst p.place (map (λ piece. piece.items) p.pieces.items) };
}

impl KeptBytes {
    /// No bytes.
    pub(crate) fn new(alloc: Global) -> KeptBytes
        ensures { result ≡ [] }
    {
        KeptBytes {
            pieces: VecDeque::new(alloc),
            place: 0,
        }
    }

    /// Puts a piece behind the others.
    pub(crate) fn push(&mut self, alloc: Global, piece: &[u8]) -> Result<(), AllocError>
        ensures { OnOk result (self.new ≡ self.old ++ piece.now) }
    {
        push_copy(&mut self.pieces, alloc, piece)
    }
}

impl Read for KeptBytes {
    ghost remaining = { λ bytes. Some bytes };

    fn read(&mut self, buf: &mut [u8]) -> io::Result<usize>
        ensures bound { ReadsAtMost result buf.new }
        ensures bytes { ReadConsumes (Some self.old) (Some self.new) result buf.new }
        ensures never_fails { IsOk result }
    {
        free_front(&mut self.pieces, &mut self.place);
        match self.pieces.front() {
            Some(piece) => {
                let mut left = &piece[self.place..];
                let count = left.read(buf)?;
                self.place += count;
                Ok(count)
            }
            None => Ok(0),
        }
    }
}

// Puts a copy of the piece behind the others.
fn push_copy(pieces: &mut VecDeque<Vec<u8>>, alloc: Global, piece: &[u8]) -> Result<(), AllocError>
    ensures pushed { OnOk result (map (λ piece. piece.items) pieces.new.items
        ≡ map (λ piece. piece.items) pieces.old.items ++ piece.now ∷ []) }
    ensures same { OnErr result (pieces.new.items ≡ pieces.old.items) }
{
    pieces.push_back(Vec::from_slice(alloc, piece)?)?;
    Ok(())
}

// Frees the pieces in front that were read to their ends.
fn free_front(pieces: &mut VecDeque<Vec<u8>>, place: &mut usize)
    requires { IsInFirst place.old (map (λ piece. piece.items) pieces.old.items) }
    ensures within { IsInFirst place.new (map (λ piece. piece.items) pieces.new.items) }
    ensures left { left_of place.new (map (λ piece. piece.items) pieces.new.items)
        ≡ left_of place.old (map (λ piece. piece.items) pieces.old.items) }
    ensures unread { is_read place.new (map (λ piece. piece.items) pieces.new.items) ≡ false }
{
    while is_read(pieces, *place) {
        pieces.pop_front();
        *place = 0;
    }
}

// Whether the first piece was read to its end.
fn is_read(pieces: &VecDeque<Vec<u8>>, place: usize) -> bool
    ensures { result ≡ is_read place (map (λ piece. piece.items) pieces.now.items) }
{
    match pieces.front() {
        Some(piece) => piece.len() == place,
        None => false,
    }
}
