//! Files in memory.
ghost use Rattle.std.specs.Prelude.{◌≡◌, ◌+◌, ◌-◌, ◌^◌, ◌<◌, ◌↔◌, List, ℕ, Some, true, MatchOption, IsTrue};
ghost use Rattle.ua_base.specs.Cause.{HasCause, counted_if};
ghost use Rattle.ua_base.specs.Files.{ReadGives};
ghost use Rattle.mem_edge.specs.MemoryFiles.{file_in};
ghost use Rattle.mem_edge.specs.MemoryFolders.{told_file, named_reads, reads_made, faults_of, fails_reading};

use crate::Name;
use crate::calls::names;
use ua_base::{Folder, ReadEnd};

/// Files in memory, and the numbers of the reads that fail, counted from 0 over all reads of the folder.
#[derive(Drop)]
pub struct MemoryFolder {
    files: Vec<(Name, Vec<u8>)>,
    fails: Vec<u32>,
    reads: u64,
    faults: u64,
}

impl MemoryFolder {
    /// Of two files of one name the first is read.
    pub fn new(files: Vec<(Name, Vec<u8>)>, fails: Vec<u32>) -> MemoryFolder
        ensures files { (name : List ℕ) → told_file result name ≡ file_in files.items name }
        ensures named { named_reads result ≡ fails.items }
        ensures reads { reads_made result ≡ 0 }
        ensures faults { faults_of result ≡ 0 }
    {
        MemoryFolder {
            files,
            fails,
            reads: 0,
            faults: 0,
        }
    }

    fn fail(&mut self) -> ReadEnd
        ensures failed { result ≡ ReadEnd.Failed }
        ensures counted { self.new ≡ record self.old { faults = counted_if true self.old.faults } }
    {
        self.faults = self.faults.saturating_add(1);
        ReadEnd::Failed
    }
}

fn find<'a>(files: &'a [(Name, Vec<u8>)], name: &[u8]) -> Option<&'a [u8]>
    ensures { MatchOption result
        (file_in files.now name.now ≡ None)
        (λ bytes. file_in files.now name.now ≡ Some bytes.now) }
{
    for file in files {
        if file.0.as_bytes() == name {
            return Some(&file.1);
        }
    }
    None
}

impl Folder for MemoryFolder {
    ghost tells = { λ f name. Some (told_file f name) };

    ghost faults = { λ f. faults_of f };

    /// Each read has the next number, whatever it answers.
    fn read_whole(&mut self, name: &str, limit: u64, into: &mut Vec<u8>) -> ReadEnd
        requires { limit < 2 ^ 64 - 1 }

        ensures gives { ReadGives result limit (Some (told_file self.old name.now)) into.new.items }
        ensures stands { (other : List ℕ) →
            Some (told_file self.new other) ≡ Some (told_file self.old other) }
        ensures cause { HasCause
            (faults_of self.old) (faults_of self.new) (result ≡ ReadEnd.Failed) }

        ensures failed { (result ≡ ReadEnd.Failed) ↔ IsTrue (fails_reading self.old name.now) }
        ensures faults { faults_of self.new
            ≡ counted_if (fails_reading self.old name.now) (faults_of self.old) }
        ensures reads { reads_made self.new ≡ counted_if true (reads_made self.old) }
        ensures named { named_reads self.new ≡ named_reads self.old }
    {
        into.clear();
        let named = names(&self.fails, self.reads);
        self.reads = self.reads.saturating_add(1);
        if named {
            return self.fail();
        }
        let Some(bytes) = find(&self.files, name.as_bytes()) else {
            return self.fail();
        };
        if bytes.len() as u64 > limit {
            return ReadEnd::Long { read: limit + 1 };
        }
        match into.extend_from_slice(bytes) {
            Ok(()) => ReadEnd::Done,
            Err(_) => ReadEnd::Memory,
        }
    }
}
