//! Files as a shelf.
ghost use Rattle.std.specs.Prelude.{◌≡◌, ◌≢◌, ◌+◌, ◌<◌, ◌≤◌, length, take, drop, vec_len, IfOk, IfSome, OnOk, OnErr};
ghost use Rattle.std.specs.Io.{StartsWith, appended_bytes};
ghost use Rattle.std.specs.Io.KnownBytes.{Consumes, IsAtEnd};
ghost use Rattle.dp_edge.specs.Shelf.{OnTooLong};

use dp_edge::{Shelf, ShelfFail};
use std::alloc::Global;
use std::fs;
use std::io::{self, Read};
use std::marker::Model;
use std::rt::Files;

/// So many bytes are asked for at a time.
const BLOCK: usize = 65_536;

/// The files that the system has under their paths. It tells contracts nothing of them.
#[derive(Drop)]
pub struct FileShelf<'a, R: Files> {
    rt: &'a R,
    faults: u64,
    taken: u64,
}

impl<'a, R: Files> Model for FileShelf<'a, R> {
    ghost use Rattle.dp_system.specs.FileShelf.{ShelfCounts};

    ghost Value = { ShelfCounts };

    ghost view = { λ shelf. record { faults = shelf.faults; taken = shelf.taken } };
}

impl<'a, R: Files> FileShelf<'a, R> {
    ghost use Rattle.std.specs.Prelude.{◌≡◌};
    ghost use Rattle.dp_system.specs.FileShelf.{ShelfCounts};

    /// The files, with no fault met and no byte taken.
    pub fn new(rt: &'a R) -> FileShelf<'a, R>
        ensures { result ≡ record { faults = 0; taken = 0 } }
    {
        FileShelf {
            rt,
            faults: 0,
            taken: 0,
        }
    }
}

// Reads once, into what follows the first bytes. Nothing comes only at the end.
fn read_at<F: Read>(file: &mut F, bytes: &mut [u8], at: usize) -> io::Result<usize>
    requires { at < length bytes.old }
    ensures within { IfOk result (λ n. at + n ≤ length bytes.new) }
    ensures front { take at bytes.new ≡ take at bytes.old }
    ensures taken { IfOk result (λ n. Consumes (F.remaining file.old) (F.remaining file.new) (take n (drop at bytes.new))) }
    ensures end { IfOk result (λ n. n ≡ 0 → IsAtEnd (F.remaining file.new)) }
{
    file.read(&mut bytes[at..])
}

// Reads once, at most a block and at most so many bytes, and appends what came. Nothing comes only at the end.
fn take_block<F: Read>(file: &mut F, bytes: &mut Vec<u8>, most: usize) -> Result<usize, ShelfFail>
    requires { 0 < most }
    ensures count { IfOk result (λ n. (n ≤ most) × (vec_len bytes.new ≡ vec_len bytes.old + n)) }
    ensures err { OnErr result (vec_len bytes.new ≡ vec_len bytes.old) }
    ensures not_too_long { result ≢ Err ShelfFail.TooLong }

    // What a file that tells its bytes has lost was appended.
    ensures appends { StartsWith bytes.new.items bytes.old.items }
    ensures bytes { OnOk result (Consumes (F.remaining file.old) (F.remaining file.new) (appended_bytes bytes.old.items bytes.new.items)) }
    ensures end { IfOk result (λ n. n ≡ 0 → IsAtEnd (F.remaining file.new)) }
{
    let at = bytes.len();
    bytes.resize(at + most.min(BLOCK), 0)?;
    match read_at(file, bytes.as_mut_slice(), at) {
        Ok(n) => {
            bytes.truncate(at + n);
            Ok(n)
        }
        Err(_) => {
            bytes.truncate(at);
            Err(ShelfFail::Failed)
        }
    }
}

// Reads up to the end, or one byte more than there is room for. Each turn but the last takes at least one byte.
fn take_all<F: Read>(file: &mut F, bytes: &mut Vec<u8>, room: u32) -> Result<(), ShelfFail>
    requires { vec_len bytes.old ≡ 0 }
    ensures ok { OnOk result (vec_len bytes.new ≤ room) }
    ensures too_long { OnTooLong result (vec_len bytes.new ≡ room + 1) }

    // A file that tells its bytes is read whole.
    ensures whole { OnOk result (IfSome (F.remaining file.old) (λ content. bytes.new.items ≡ content)) }
{
    let limit = room as usize + 1;
    'turns: while bytes.len() < limit {
        let missing = limit - bytes.len();
        if take_block(file, bytes, missing)? == 0 {
            return Ok(());
        }
    }
    Err(ShelfFail::TooLong)
}

impl<'a, R: Files> Shelf for FileShelf<'a, R> {
    ghost use Rattle.std.specs.Prelude.{None};

    ghost contents = { λ _. None };

    ghost failed_names = { λ _. None };

    ghost faults = { λ shelf. shelf.faults };

    ghost taken = { λ shelf. shelf.taken };

    fn read(&mut self, alloc: Global, name: &str, room: u32) -> Result<Vec<u8>, ShelfFail> {
        let Ok(mut file) = fs::open(self.rt, name) else {
            self.faults += 1;
            return Err(ShelfFail::Failed);
        };
        let mut bytes = Vec::new(alloc);
        let end = take_all(&mut file, &mut bytes, room);
        self.taken = self.taken.saturating_add(bytes.len() as u64);
        match end {
            Ok(()) => Ok(bytes),
            Err(fail) => {
                if fail == ShelfFail::Failed {
                    self.faults += 1;
                }
                Err(fail)
            }
        }
    }
}
