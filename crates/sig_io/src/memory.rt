ghost use Rattle.std.specs.Prelude.{◌≡◌, ◌<◌, ◌≤◌, ◌+◌, ◌-◌, ◌^◌, ◌⊎◌, ◌↔◌, min, [], length, Contains, Some, IsErr, IfOk};
ghost use Rattle.std.specs.Io.{ReadsAtMost, WritesAtMost};
ghost use Rattle.std.specs.Io.KnownBytes.{ReadConsumes, WriteAppends};
ghost use Rattle.sig_io.specs.Causes.{HasCause};

use crate::traits::{Failed, Sink, Source};
use std::alloc::{AllocError, Global};
use std::marker::Model;

/// Bytes in memory as a source: at most `piece` bytes come in a call, and the calls with the numbers in
/// `fails`, counted from 1, fail.
#[derive(Debug, Drop)]
pub struct Bytes {
    content: Vec<u8>,
    taken: usize,
    piece: usize,
    fails: Vec<u64>,
    calls: u64,
    faults: u64,
}

impl Model for Bytes {
    ghost use Rattle.std.specs.Prelude.{◌<◌, ◌≤◌, drop, vec_len};
    ghost use Rattle.sig_io.specs.Transfer.{Feed};

    ghost Value = { Feed };

    ghost view = { λ b. record {
      left = drop b.taken b.content.items;
      piece = b.piece;
      fails = b.fails.items;
      calls = b.calls;
      faults = b.faults;
    } };

    ghost invariant = { λ b. (b.taken ≤ vec_len b.content) × (0 < b.piece) };
}

impl Bytes {
    pub fn new(content: Vec<u8>, piece: usize, fails: Vec<u64>) -> Bytes
        requires { 0 < piece }
        ensures left { result.left ≡ content.items }
        ensures piece { result.piece ≡ piece }
        ensures fails { result.fails ≡ fails.items }
        ensures fresh { (result.calls ≡ 0) × (result.faults ≡ 0) }
    {
        Bytes {
            content,
            taken: 0,
            piece,
            fails,
            calls: 0,
            faults: 0,
        }
    }
}

impl Source for Bytes {
    ghost left = { λ bytes. Some bytes.left };

    ghost faults = { λ bytes. bytes.faults };

    fn read(&mut self, buf: &mut [u8]) -> Result<usize, Failed>
        ensures bound { ReadsAtMost result buf.new }
        ensures bytes { ReadConsumes (Some self.old.left) (Some self.new.left) result buf.new }
        ensures cause { HasCause self.old.faults self.new.faults result }

        // The calls that fail are those named, and each other gives as many bytes as it can.
        ensures calls { self.new.calls ≡ min (self.old.calls + 1) (2 ^ 64 - 1) }
        ensures fails { IsErr result ↔ Contains self.old.fails self.new.calls }
        ensures most { IfOk result (λ count.
            count ≡ min (min (length self.old.left) self.old.piece) (length buf.old)) }
        ensures stays { (self.new.piece ≡ self.old.piece) × (self.new.fails ≡ self.old.fails) }
    {
        self.calls = self.calls.saturating_add(1);
        if self.fails.contains(&self.calls) {
            self.faults = self.faults.saturating_add(1);
            return Err(Failed);
        }
        let rest = &self.content[self.taken..];
        let count = rest.len().min(self.piece).min(buf.len());
        buf[..count].copy_from_slice(&rest[..count]);
        self.taken += count;
        Ok(count)
    }
}

/// A page in memory as a sink: it has room for some bytes and takes at most `piece` of them in a call.
/// The calls with the numbers in `fails`, counted from 1, fail, and so does one that meets a full page.
#[derive(Debug, Drop)]
pub struct Page {
    content: Vec<u8>,
    room: usize,
    piece: usize,
    fails: Vec<u64>,
    calls: u64,
    faults: u64,
}

impl Model for Page {
    ghost use Rattle.std.specs.Prelude.{◌<◌, ◌≤◌, vec_len, vec_capacity};
    ghost use Rattle.sig_io.specs.Transfer.{Sheet};

    ghost Value = { Sheet };

    ghost view = { λ p. record {
      written = p.content.items;
      room = p.room;
      piece = p.piece;
      fails = p.fails.items;
      calls = p.calls;
      faults = p.faults;
    } };

    ghost invariant = { λ p.
        (vec_len p.content ≤ p.room) × (p.room ≤ vec_capacity p.content) × (0 < p.piece) };
}

impl Page {
    pub fn new(
        alloc: Global,
        room: usize,
        piece: usize,
        fails: Vec<u64>,
    ) -> Result<Page, AllocError>
        requires { 0 < piece }
        ensures { IfOk result (λ page. page ≡ record {
          written = [];
          room = room;
          piece = piece;
          fails = fails.items;
          calls = 0;
          faults = 0;
        }) }
    {
        Ok(Page {
            content: Vec::with_capacity(alloc, room)?,
            room,
            piece,
            fails,
            calls: 0,
            faults: 0,
        })
    }

    /// What was written so far.
    pub fn as_slice(&self) -> &[u8]
        ensures { result.now ≡ self.now.written }
    {
        self.content.as_slice()
    }
}

impl Sink for Page {
    ghost written = { λ page. Some page.written };

    ghost faults = { λ page. page.faults };

    fn write(&mut self, buf: &[u8]) -> Result<usize, Failed>
        ensures bound { WritesAtMost result buf.now }
        ensures progress { IfOk result (λ count. 0 < length buf.now → 0 < count) }
        ensures bytes { WriteAppends (Some self.old.written) (Some self.new.written) result buf.now }
        ensures cause { HasCause self.old.faults self.new.faults result }

        // The calls that fail are those named and those that meet a full page, and each other takes as
        // many bytes as it can.
        ensures calls { self.new.calls ≡ min (self.old.calls + 1) (2 ^ 64 - 1) }
        ensures fails { IsErr result ↔ (Contains self.old.fails self.new.calls
            ⊎ (0 < length buf.now) × (self.old.room ≤ length self.old.written)) }
        ensures most { IfOk result (λ count. count
            ≡ min (min (length buf.now) self.old.piece) (self.old.room - length self.old.written)) }
        ensures stays { (self.new.room ≡ self.old.room) × (self.new.piece ≡ self.old.piece)
            × (self.new.fails ≡ self.old.fails) }
    {
        self.calls = self.calls.saturating_add(1);
        let count = buf
            .len()
            .min(self.piece)
            .min(self.room - self.content.len());
        if self.fails.contains(&self.calls) || count < buf.len().min(1) {
            self.faults = self.faults.saturating_add(1);
            return Err(Failed);
        }
        match self.content.extend_from_slice(&buf[..count]) {
            Ok(()) => Ok(count),
            Err(_) => unreachable!(),
        }
    }
}
