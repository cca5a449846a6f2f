//! Files on disk. They count their faults, and tell no content: no contract can say what a file gives.
ghost use Rattle.std.specs.Prelude.{◌≡◌, []};
ghost use Rattle.px_sock.specs.Untold.{untold_files};

use px_link::{Bytes, Fault, Files};
use std::alloc::Global;
use std::io::Read;
use std::marker::Model;
use std::{fs, io, rt};

/// Files on disk. Contracts see their count, and the name of the last that failed.
pub struct RealFiles<'a, R> {
    rt: &'a R,
    last_failed: Bytes,
    faults: u64,
}

impl<R> Drop for RealFiles<'_, R> {
    fn drop(self) {
        let RealFiles {
            rt: _,
            last_failed: _,
            faults: _,
        } = self;
    }
}

impl<'a, R> Model for RealFiles<'a, R> {
    ghost use Rattle.px_sock.specs.Untold.{FilesSeen, untold_files};

    ghost Value = { FilesSeen };

    ghost view = { λ f. untold_files f.faults f.last_failed };
}

impl<'a, R: rt::Files> RealFiles<'a, R> {
    /// Files of which no read failed yet.
    pub fn new(alloc: Global, rt: &'a R) -> Self
        ensures { result ≡ untold_files 0 [] }
    {
        RealFiles {
            rt,
            last_failed: Bytes::from(Vec::new(alloc)),
            faults: 0,
        }
    }
}

/// How many bytes are read at once.
const PIECE: usize = 4096;

/// The first `limit` bytes of a reader, or all if there are fewer.
fn read_front<F: Read>(alloc: Global, file: &mut F, limit: usize) -> io::Result<Vec<u8>> {
    let mut text = Vec::new(alloc);
    let mut piece = [0u8; PIECE];
    for _ in 0..u64::MAX {
        let room = limit.saturating_sub(text.len()).min(PIECE);
        if room == 0 {
            break;
        }
        let n = file.read(&mut piece[..room])?;
        if n == 0 {
            break;
        }
        text.extend_from_slice(&piece[..n])?;
    }
    Ok(text)
}

/// The first bytes of a file.
fn read_path<R: rt::Files>(alloc: Global, rt: &R, name: &str, limit: usize) -> io::Result<Vec<u8>> {
    let mut file = fs::open(rt, name)?;
    read_front(alloc, &mut file, limit)
}

impl<'a, R: rt::Files> Files for RealFiles<'a, R> {
    ghost files = { λ seen. seen.files };

    ghost faults = { λ seen. seen.faults };

    ghost last_failed = { λ seen. seen.last_failed };

    fn read_file(&mut self, alloc: Global, name: &str, limit: usize) -> Result<Bytes, Fault> {
        match read_path(alloc, self.rt, name, limit) {
            Ok(text) => Ok(Bytes::from(text)),
            Err(error) => {
                if error.kind() == io::ErrorKind::OutOfMemory {
                    return Err(Fault::OutOfMemory);
                }
                self.last_failed = Bytes::copy(alloc, name.as_bytes())?;
                self.faults = self.faults.saturating_add(1);
                Err(Fault::Failed)
            }
        }
    }
}
