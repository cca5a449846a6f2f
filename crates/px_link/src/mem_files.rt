//! Files in memory, of which reads of chosen numbers fail.
ghost use Rattle.std.specs.Prelude.{◌≡◌, ◌≤◌, ◌∷◌, [], true, Some, take, length, IfOk, IsErr, IsErrOf, OnOk, OnErr};
ghost use Rattle.std.specs.Option.{option_copied};
ghost use Rattle.px_link.specs.Told.{Counts, Reads, content_of, last_name};
ghost use Rattle.px_link.specs.Calls.{next_call, faults_after};
ghost use Rattle.px_link.specs.MemFiles.{fails_next, name_room};
ghost use Rattle.px_link.specs.NamedFiles.{named_bytes};

use crate::kept_name::KeptName;
use crate::{Bytes, Fault, Files, OutOfMemory, calls};
use std::alloc::Global;
use std::marker::Model;

/// A file with its name.
#[derive(Drop)]
struct NamedFile {
    name: Bytes,
    bytes: Bytes,
}

/// Files in memory, the newest first.
pub struct MemFiles {
    files: Vec<NamedFile>,
    failing: Vec<u64>,
    calls: u64,
    faults: u64,
    last_failed: KeptName,
}

impl Drop for MemFiles {
    fn drop(self) {
        let MemFiles {
            files: _,
            failing: _,
            calls: _,
            faults: _,
            last_failed: _,
        } = self;
    }
}

impl Model for MemFiles {
    ghost use Rattle.px_link.specs.MemFiles.{FilesSeen};

    ghost Value = { FilesSeen };

    ghost use Rattle.px_link.specs.NamedFiles.{named_bytes};

    ghost view = { λ f. record {
      files = named_bytes f.files.items;
      failing = f.failing.items;
      calls = f.calls;
      faults = f.faults;
      last_failed = f.last_failed;
    } };
}

impl MemFiles {
    /// No files, and no read that is to fail.
    pub fn new(alloc: Global) -> Self
        ensures files { result.files ≡ [] }
        ensures failing { result.failing ≡ [] }
        ensures calls { result.calls ≡ 0 }
        ensures faults { result.faults ≡ 0 }
        ensures last_failed { result.last_failed ≡ [] }
    {
        MemFiles {
            files: Vec::new(alloc),
            failing: Vec::new(alloc),
            calls: 0,
            faults: 0,
            last_failed: KeptName::new(alloc),
        }
    }

    /// Puts a file in front of the others, so that it hides an older one of its name.
    pub fn add(&mut self, name: &str, bytes: &[u8]) -> Result<(), OutOfMemory>
        ensures ok { OnOk result (self.new.files ≡ (name.now, bytes.now) ∷ self.old.files) }
        ensures err { OnErr result (self.new.files ≡ self.old.files) }
        ensures failing { self.new.failing ≡ self.old.failing }
        ensures calls { self.new.calls ≡ self.old.calls }
        ensures faults { self.new.faults ≡ self.old.faults }
        ensures last_failed { self.new.last_failed ≡ self.old.last_failed }
    {
        let alloc = *self.files.allocator();
        let file = NamedFile {
            name: Bytes::copy(alloc, name.as_bytes())?,
            bytes: Bytes::copy(alloc, bytes)?,
        };
        self.files.insert(0, file)?;
        Ok(())
    }

    /// The reads of these numbers, counted from 1 and from the first read of all, fail. Numbers that were
    /// named before no longer count.
    pub fn fail_at(&mut self, calls: Vec<u64>)
        ensures failing { self.new.failing ≡ calls.items }
        ensures files { self.new.files ≡ self.old.files }
        ensures calls { self.new.calls ≡ self.old.calls }
        ensures faults { self.new.faults ≡ self.old.faults }
        ensures last_failed { self.new.last_failed ≡ self.old.last_failed }
    {
        self.failing = calls;
    }

    /// What a read of this name answers that fails: it is counted and its name kept. A long name takes memory.
    fn failed_read(&mut self, name: &[u8]) -> Result<Bytes, Fault>
        ensures err { IsErr result }
        ensures short { length name.now ≤ name_room → IsErrOf result Fault.Failed }
        ensures count { Counts self.old.faults self.new.faults result }
        ensures last { self.new.last_failed ≡ last_name result name.now self.old.last_failed }
        ensures files { self.new.files ≡ self.old.files }
        ensures failing { self.new.failing ≡ self.old.failing }
        ensures calls { self.new.calls ≡ self.old.calls }
        ensures faults { self.new.faults ≡ faults_after result self.old.faults }
    {
        self.last_failed.keep(name)?;
        self.faults = self.faults.saturating_add(1);
        Err(Fault::Failed)
    }
}

/// The bytes of the first file of this name.
fn find<'f>(files: &'f [NamedFile], name: &[u8]) -> Option<&'f [u8]>
    ensures { option_copied result ≡ content_of (named_bytes files.now) name.now }
{
    for file in files {
        if file.name.as_slice() == name {
            return Some(file.bytes.as_slice());
        }
    }
    None
}

/// The first `limit` bytes, or all.
fn first(bytes: &[u8], limit: usize) -> &[u8]
    ensures { result.now ≡ take limit bytes.now }
{
    if limit < bytes.len() {
        &bytes[..limit]
    } else {
        bytes
    }
}

impl Files for MemFiles {
    ghost use Rattle.std.specs.Prelude.{Some};

    ghost files = { λ seen. Some seen.files };

    ghost faults = { λ seen. seen.faults };

    ghost last_failed = { λ seen. seen.last_failed };

    /// A read whose number is listed fails, as does one of a name that wasn't added, and no other. One of a name of at
    /// most 255 bytes then takes no memory.
    fn read_file(&mut self, alloc: Global, name: &str, limit: usize) -> Result<Bytes, Fault>
        ensures bytes { IfOk result (λ bytes. Reads (Some self.old.files) name.now limit bytes) }
        ensures count { Counts self.old.faults self.new.faults result }
        ensures last { self.new.last_failed ≡ last_name result name.now self.old.last_failed }
        ensures files { Some self.new.files ≡ Some self.old.files }
        ensures fails { fails_next self.old name.now ≡ true → IsErr result }
        ensures short { fails_next self.old name.now ≡ true → length name.now ≤ name_room → IsErrOf result Fault.Failed }
        ensures only { IsErrOf result Fault.Failed → fails_next self.old name.now ≡ true }
        ensures calls { self.new.calls ≡ next_call self.old.calls }
        ensures faults { self.new.faults ≡ faults_after result self.old.faults }
        ensures failing { self.new.failing ≡ self.old.failing }
    {
        self.calls = self.calls.saturating_add(1);
        if calls::is_among(&self.failing, self.calls) {
            return self.failed_read(name.as_bytes());
        }
        match find(&self.files, name.as_bytes()) {
            Some(bytes) => Ok(Bytes::copy(alloc, first(bytes, limit))?),
            None => self.failed_read(name.as_bytes()),
        }
    }
}
