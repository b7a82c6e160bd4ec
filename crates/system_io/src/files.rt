//! Files: what opens them, and the library over it.
ghost use Rattle.std.specs.Prelude.{◌≡◌, ◌≤◌, Option, IfOk};
ghost use Rattle.sim_base.specs.Outside.{Files as FilesTold, Fetches, Rose};

use sim_base::{Failed, Library};
use std::io::Read;
use std::rt::Files;
use std::{fs, io};

/// What opens files by their names.
pub trait Opener {
    /// An open file, read from its beginning.
    type File: Read + Drop;

    /// The files, where they are told.
    ghost told: { Self → Option FilesTold };

    /// Opens the file of this name at its beginning.
    fn open(&mut self, name: &str) -> io::Result<Self::File>
        ensures same { told self.new ≡ told self.old }
        ensures content { IfOk result (λ file. Fetches (told self.old) name.now (Self.File.Read.remaining file)) };
}

/// The files of the system, by their paths.
#[derive(Drop)]
pub struct SystemFiles<'a, R: Files> {
    rt: &'a R,
}

impl<'a, R: Files> SystemFiles<'a, R> {
    /// The files that this runtime reaches.
    pub fn new(rt: &'a R) -> SystemFiles<'a, R> {
        SystemFiles { rt }
    }
}

impl<R: Files> Opener for SystemFiles<'_, R> {
    ghost use Rattle.std.specs.Prelude.{None};

    type File = R::File;

    ghost told = { λ _. None };

    fn open(&mut self, name: &str) -> io::Result<R::File> {
        fs::open(self.rt, name)
    }
}

/// A library over what opens its files; no file is current at first.
#[derive(Drop)]
pub struct FileLibrary<O: Opener + Drop> {
    opener: O,
    current: Option<O::File>,
    faults: u64,
}

impl<O: Opener + Drop> FileLibrary<O> {
    /// A library of the files that `opener` opens.
    pub fn new(opener: O) -> FileLibrary<O> {
        FileLibrary {
            opener,
            current: None,
            faults: 0,
        }
    }

    /// Counts a failure.
    fn failed(&mut self) -> Failed
        ensures cause { Rose self.old.faults self.new.faults }
        ensures never_falls { self.old.faults ≤ self.new.faults }
        ensures opener { self.new.opener ≡ self.old.opener }
    {
        self.faults = self.faults.saturating_add(1);
        Failed
    }
}

impl<O: Opener + Drop> Library for FileLibrary<O> {
    ghost use Rattle.std.specs.Prelude.{None};
    ghost use Rattle.std.specs.Option.{option_and_then};

    ghost faults = { λ l. l.faults };

    ghost files = { λ l. O.told l.opener };

    ghost ahead = { λ l. option_and_then (λ file. O.File.Read.remaining file) l.current };

    fn faults(&self) -> u64 {
        self.faults
    }

    fn fetch(&mut self, name: &str) -> Result<(), Failed> {
        match self.opener.open(name) {
            Ok(file) => {
                self.current = Some(file);
                Ok(())
            }
            Err(_unopened) => Err(self.failed()),
        }
    }

    fn read(&mut self, buf: &mut [u8]) -> Result<usize, Failed> {
        let Some(file) = &mut self.current else {
            return Err(self.failed());
        };
        match file.read(buf) {
            Ok(count) => Ok(count),
            Err(_unread) => Err(self.failed()),
        }
    }
}
