ghost use Rattle.std.specs.Prelude.{◌≡◌, ℕ, ◌+◌, ◌<◌, ◌≤◌, List, [], ◌++◌, length, IfOk, IfSome, OnOk, OnErr};
ghost use Rattle.std.specs.Io.KnownBytes.{Consumes, IsAtEnd};
ghost use Rattle.sig_io.specs.Causes.{Rose};
ghost use Rattle.sig_io.specs.Transfer.{Takes};

use crate::traits::Source;
use std::alloc::Global;
use thiserror::Error;

/// The most bytes that one read asks for.
const PIECE: usize = 4096;

/// Why not all of a source was read.
#[derive(Clone, Copy, Debug, PartialEq, Eq, Error)]
pub enum ReadError {
    #[error("the input can't be read")]
    ReadFault,
    #[error("the input is too large")]
    TooLarge,
    #[error("out of memory")]
    NoMemory,
}

/// Reads a source to its end, which is to come within `limit` bytes.
///
/// The first read that fails ends it, and so does the byte after the limit. Want of memory may end it
/// at any point.
pub fn read_all<S: Source>(alloc: Global, source: &mut S, limit: u64) -> Result<Vec<u8>, ReadError>
    requires { limit ≤ 16777216 }

    ensures all { IfOk result (λ bytes. IfSome (S.left source.old) (λ left. bytes.items ≡ left)) }
    ensures end { OnOk result (IsAtEnd (S.left source.new)) }
    ensures within { IfOk result (λ bytes. length bytes.items ≤ limit) }
    ensures kept { OnOk result (S.faults source.new ≡ S.faults source.old) }

    ensures fault { result ≡ Err ReadError.ReadFault → Rose (S.faults source.old) (S.faults source.new)
        × Takes (S.left source.old) (S.left source.new) (λ count. count ≤ limit) }
    ensures too_large { result ≡ Err ReadError.TooLarge → (S.faults source.new ≡ S.faults source.old)
        × Takes (S.left source.old) (S.left source.new) (λ count. count ≡ limit + 1) }
    ensures memory { result ≡ Err ReadError.NoMemory → (S.faults source.new ≡ S.faults source.old)
        × Takes (S.left source.old) (S.left source.new) (λ count. count ≤ limit + 1) }
    ensures later { S.faults source.old ≤ S.faults source.new }
{
    let most = limit as usize;
    let mut bytes = Vec::new(alloc);
    'pieces: while bytes.len() <= most {
        let room = PIECE.min(most - bytes.len() + 1);
        if read_piece(source, room, &mut bytes)? == 0 {
            return Ok(bytes);
        }
    }
    Err(ReadError::TooLarge)
}

/// Reads once, at most `room` bytes, and puts what came at the end of `bytes`.
fn read_piece<S: Source>(
    source: &mut S,
    room: usize,
    bytes: &mut Vec<u8>,
) -> Result<usize, ReadError>
    requires some { 0 < room }
    requires few { room ≤ 4096 }

    ensures piece { IfOk result (λ count. (piece : List ℕ) × (length piece ≡ count) × (count ≤ room)
        × (bytes.new.items ≡ bytes.old.items ++ piece)
        × Consumes (S.left source.old) (S.left source.new) piece
        × (count ≡ 0 → IsAtEnd (S.left source.new))) }
    ensures kept { OnOk result (S.faults source.new ≡ S.faults source.old) }
    ensures fault { result ≡ Err ReadError.ReadFault → Rose (S.faults source.old) (S.faults source.new)
        × Consumes (S.left source.old) (S.left source.new) [] }
    ensures memory { result ≡ Err ReadError.NoMemory → (S.faults source.new ≡ S.faults source.old)
        × Takes (S.left source.old) (S.left source.new) (λ count. count ≤ room) }
    ensures few { (result ≡ Err ReadError.TooLarge) → ⊥ }
    ensures later { S.faults source.old ≤ S.faults source.new }
{
    let mut piece = [0; PIECE];
    let count = source
        .read(&mut piece[..room])
        .map_err(|_| ReadError::ReadFault)?;
    bytes
        .extend_from_slice(&piece[..count])
        .map_err(|_| ReadError::NoMemory)?;
    Ok(count)
}
