ghost use Rattle.std.specs.Prelude.{◌≡◌, ◌==◌, ◌<◌, ◌^◌, true, map, IfOk};
ghost use Rattle.std.specs.List.{list_all, list_any};
ghost use Rattle.sig_hist.specs.Sources.{is_among, room_of, writers_of};
ghost use Rattle.sig_hist.specs.Counting.{allowances_of, starting, IsPlace};

use crate::plans::Allowance;
use sig_diff::NoMemory;
use std::alloc::Global;

/// A writer of a source.
#[derive(Debug, Clone, Copy, PartialEq, Eq)]
pub struct Writer {
    pub allowance: Allowance,
    /// How many entries it may still make, its leave among them: none once it has left.
    pub left: u32,
}

/// How many entries writers may make with these allowances.
pub fn room_of(allow: &[Allowance]) -> u32
    requires { room_of allow.now < 2 ^ 32 }
    ensures { result ≡ room_of allow.now }
{
    let mut room = 0;
    'allow: for allowance in allow {
        room += allowance.edits + 1;
    }
    room
}

/// The writers with these allowances, before they have made an edit.
pub fn writers_of(alloc: Global, allow: &[Allowance]) -> Result<Vec<Writer>, NoMemory>
    requires { room_of allow.now < 2 ^ 32 }
    ensures { IfOk result (λ writers. writers.items ≡ map starting allow.now) }
{
    let mut writers = Vec::with_capacity(alloc, allow.len())?;
    'allow: for allowance in allow {
        writers.push(Writer {
            allowance: *allowance,
            left: allowance.edits + 1,
        })?;
    }
    Ok(writers)
}

/// Whether one of the writers has this number.
pub fn has_number(writers: &[Writer], number: u32) -> bool
    ensures { result ≡ list_any (λ writer. writer.allowance.writer == number) writers.now }
{
    writers
        .iter()
        .any(|writer| writer.allowance.writer == number)
}

/// The place of the writer with a number.
pub fn place_of(writers: &[Writer], number: u32) -> usize
    requires { is_among number (writers_of (allowances_of writers.now)) ≡ true }
    ensures { IsPlace number writers.now result }
{
    let mut place = 0;
    while writers[place].allowance.writer != number {
        place += 1;
    }
    place
}

/// Whether all writers have left.
pub fn have_left(writers: &[Writer]) -> bool
    ensures { result ≡ list_all (λ writer. writer.left == 0) writers.now }
{
    writers.iter().all(|writer| writer.left == 0)
}
