//! A library in memory, for tests: named contents, and calls that fail by their number.
ghost use Rattle.std.specs.Prelude.{◌≡◌, ℕ, List, ◌↔◌, ◌<◌, ◌≤◌, length, IsErr, IsTrue, IfOk, IfSome, IfNone, OnOk, OnErr, min, take, slice_get};
ghost use Rattle.sim_base.specs.MemoryObjects.{LibraryState, call_fails, fetch_fails, after_failure, after_fetch, after_read, bytes_read};
ghost use Rattle.sim_base.specs.Outside.{Rose, Fetches, Reads, first_file};

use crate::{Failed, Library, Text};
use std::marker::Model;

/// A library of pairs of a name and its contents; of two pairs with one name the first counts.
///
/// Its calls of `fetch` and `read` are numbered together from 0. A call fails where its number is in
/// `failing`, and a `fetch` also where no file has the name. A failed call leaves no current file,
/// and without one a `read` that does not fail gives 0.
#[derive(Drop)]
pub struct MemoryLibrary {
    files: Vec<(Text, Text)>,
    failing: Vec<u64>,
    calls: u64,
    faults: u64,
    current: Option<Current>,
}

/// The current file, by its place, and how many of its bytes were read.
#[derive(Clone, Copy)]
struct Current {
    file: usize,
    at: usize,
}

impl Model for MemoryLibrary {
    ghost use Rattle.sim_base.specs.MemoryObjects.{LibraryState};

    ghost Value = { LibraryState };

    ghost use Rattle.sim_base.specs.CurrentFile.{library_state, IsCurrent};

    ghost view = { library_state };

    ghost invariant = { IsCurrent };
}

impl MemoryLibrary {
    /// The library of these files, none of which is current yet.
    pub fn new(files: Vec<(Text, Text)>, failing: Vec<u64>) -> MemoryLibrary
        ensures { result ≡ (record { files = files.items; failing = failing.items; calls = 0; faults = 0; ahead = None }) }
    {
        MemoryLibrary {
            files,
            failing,
            calls: 0,
            faults: 0,
            current: None,
        }
    }
}

/// The place of the first file of this name.
fn place_of(files: &[(Text, Text)], name: &[u8]) -> Option<usize>
    ensures found { IfSome result (λ place. (file : List ℕ × List ℕ) × (slice_get files.now place ≡ Some file) × (first_file files.now name.now ≡ Some file.1)) }
    ensures within { IfSome result (λ place. place < length files.now) }
    ensures none { IfNone result (first_file files.now name.now ≡ None) }
{
    for (place, file) in files.iter().enumerate() {
        if file.0.as_bytes() == name {
            return Some(place);
        }
    }
    None
}

/// Copies what fits of `from` to the beginning of `into`, and answers how many bytes that were.
fn copy_part(from: &[u8], into: &mut [u8]) -> usize
    ensures count { result ≡ min (length from.now) (length into.old) }
    ensures copied { take result into.new ≡ take result from.now }
{
    let count = from.len().min(into.len());
    into[..count].copy_from_slice(&from[..count]);
    count
}

impl Library for MemoryLibrary {
    ghost use Rattle.std.specs.Prelude.{Some};
    ghost use Rattle.sim_base.specs.Outside.{first_file};

    ghost faults = { λ l. l.faults };

    ghost files = { λ l. Some (first_file l.files) };

    ghost ahead = { λ l. l.ahead };

    fn faults(&self) -> u64 {
        self.faults
    }

    fn fetch(&mut self, name: &str) -> Result<(), Failed>
        ensures never_falls { self.old.faults ≤ self.new.faults }
        ensures cause { OnErr result (Rose self.old.faults self.new.faults) }
        ensures same_files { self.new.files ≡ self.old.files }
        ensures content { OnOk result (Fetches (Some (first_file self.old.files)) name.now self.new.ahead) }
        ensures state { self.new ≡ after_fetch self.old name.now }
        ensures fails { IsErr result ↔ IsTrue (fetch_fails self.old name.now) }
    {
        let fails = self.failing.contains(&self.calls);
        self.calls = self.calls.saturating_add(1);
        if fails {
            self.faults = self.faults.saturating_add(1);
            self.current = None;
            return Err(Failed);
        }
        match place_of(&self.files, name.as_bytes()) {
            None => {
                self.faults = self.faults.saturating_add(1);
                self.current = None;
                Err(Failed)
            }
            Some(file) => {
                self.current = Some(Current { file, at: 0 });
                Ok(())
            }
        }
    }

    fn read(&mut self, buf: &mut [u8]) -> Result<usize, Failed>
        ensures never_falls { self.old.faults ≤ self.new.faults }
        ensures cause { OnErr result (Rose self.old.faults self.new.faults) }
        ensures same_files { self.new.files ≡ self.old.files }
        ensures most { IfOk result (λ n. n ≤ length buf.old) }
        ensures content { IfOk result (λ n. Reads n buf.new self.old.ahead self.new.ahead) }
        ensures fails { IsErr result ↔ IsTrue (call_fails self.old) }
        ensures state { self.new ≡ after_read self.old (length buf.old) }
        ensures count { IfOk result (λ n. n ≡ bytes_read self.old (length buf.old)) }
    {
        let fails = self.failing.contains(&self.calls);
        self.calls = self.calls.saturating_add(1);
        if fails {
            self.faults = self.faults.saturating_add(1);
            self.current = None;
            return Err(Failed);
        }
        match self.current {
            None => Ok(0),
            Some(Current { file, at }) => {
                let count = copy_part(&self.files[file].1.as_bytes()[at..], buf);
                self.current = Some(Current {
                    file,
                    at: at + count,
                });
                Ok(count)
            }
        }
    }
}
