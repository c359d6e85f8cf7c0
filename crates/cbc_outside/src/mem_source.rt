ghost use Rattle.std.specs.Prelude.{◌≡◌, ◌+◌, ◌-◌, ◌^◌, ◌<◌, ◌≤◌, [], ◌∷◌, ◌++◌, None, Some, Ok, IfOk, IfNone, IfSome, OnOk, OnErr, min, length, take, drop};
ghost use Rattle.std.specs.Io.{ReadsAtMost};
ghost use Rattle.std.specs.Io.KnownBytes.{Consumes, IsAtEnd};
ghost use Rattle.cbc_outside.specs.Outside.{count_up, lookup, Opens, HasCause, Blames};
ghost use Rattle.cbc_outside.specs.Memory.{bytes_at, answer_of_open, after_open, answer_of_read, after_read};

use crate::lists::{Calls, NamedFiles};
use crate::opened_names::OpenedNames;
use crate::outside::{Failed, Source};
use eb_names::{Bytes, Name};
use std::marker::Model;

/// Files in memory, of which listed calls fail. Each `open`, and each `read` while a file is open, is counted,
/// from 1 on and together. Contracts see its `SourceState`.
#[derive(Drop)]
pub struct MemSource {
    files: NamedFiles,
    failing: Calls,
    calls: u64,
    opened: OpenedNames,
    current: Option<OpenFile>,
    faults: u64,
    fault_name: Option<Name>,
}

/// The open file: its name, its place in the list and how much of it was read.
#[derive(Drop)]
struct OpenFile {
    name: Name,
    place: usize,
    at: usize,
}

impl Model for MemSource {
    ghost use Rattle.cbc_outside.specs.Memory.{SourceState};

    ghost Value = { SourceState };

    ghost use Rattle.cbc_outside.specs.steps.OpenFile.{state_of, IsWithin};

    ghost view = { state_of };

    ghost invariant = { IsWithin };
}

impl MemSource {
    /// A source of these files, which fails at the calls with these numbers. No file is open.
    pub fn new(files: NamedFiles, failing: Calls) -> MemSource
        ensures { result ≡ record {
          files = files;
          failing = failing;
          calls = 0;
          opened = [];
          open_name = None;
          rest = [];
          faults = 0;
          fault_name = None;
        } }
    {
        MemSource {
            files,
            failing,
            calls: 0,
            opened: OpenedNames::new(),
            current: None,
            faults: 0,
            fault_name: None,
        }
    }

    /// Counts a fault at this file, and closes what was open.
    fn fail(&mut self, name: Name) -> Failed
        ensures { self.new ≡ record self.old {
          open_name = None;
          rest = [];
          faults = count_up self.old.faults;
          fault_name = Some name;
        } }
    {
        self.current = None;
        self.faults = self.faults.saturating_add(1);
        self.fault_name = Some(name);
        Failed
    }
}

/// The place of the first file with this name.
fn place_of(files: &[(Name, Bytes)], name: &str) -> Option<usize>
    ensures within { IfSome result (λ place. place < length files.now) }
    ensures found { IfSome result (λ place. lookup files.now name.now ≡ Some (bytes_at files.now place)) }
    ensures missing { IfNone result (lookup files.now name.now ≡ None) }
{
    for (i, file) in files.iter().enumerate() {
        if file.0.as_str() == name {
            return Some(i);
        }
    }
    None
}

impl Source for MemSource {
    ghost files = { λ s. Some s.files };

    ghost opened = { λ s. s.opened };

    ghost open_name = { λ s. s.open_name };

    ghost rest = { λ s. Some s.rest };

    ghost faults = { λ s. s.faults };

    ghost fault_name = { λ s. s.fault_name };

    /// Fails exactly at a listed call and at a name that isn't there.
    fn open(&mut self, name: Name) -> Result<(), Failed>
        ensures same { self.new.files ≡ self.old.files }
        ensures tried { self.new.opened ≡ self.old.opened ++ name ∷ [] }
        ensures named { OnOk result (self.new.open_name ≡ Some name) }
        ensures whole { OnOk result (Opens (Some self.old.files) name (Some self.new.rest)) }
        ensures closes { OnErr result (self.new.open_name ≡ None) }
        ensures cause { HasCause self.old.faults self.new.faults result }
        ensures blames { Blames (Some name) self.old.fault_name self.new.fault_name result }

        ensures exact { result ≡ answer_of_open self.old name }
        ensures after { self.new ≡ after_open self.old name }
    {
        self.opened = OpenedNames::with(&self.opened, &name);
        let place = place_of(self.files.as_slice(), name.as_str());
        self.calls = self.calls.saturating_add(1);
        let fails = self.failing.as_slice().contains(&self.calls);
        match place {
            Some(place) if !fails => {
                self.current = Some(OpenFile { name, place, at: 0 });
                Ok(())
            }
            _ => Err(self.fail(name)),
        }
    }

    /// Gives as many of the bytes left as fit. Fails exactly at a listed call.
    fn read(&mut self, into: &mut [u8]) -> Result<usize, Failed>
        ensures same { self.new.files ≡ self.old.files }
        ensures tried { self.new.opened ≡ self.old.opened }
        ensures bound { ReadsAtMost result into.new }
        ensures bytes { IfOk result (λ n. Consumes (Some self.old.rest) (Some self.new.rest) (take n into.new)) }
        ensures end { IfOk result (λ n. n ≡ 0 → 0 < length into.new → IsAtEnd (Some self.new.rest)) }
        ensures stays { OnOk result (self.new.open_name ≡ self.old.open_name) }
        ensures none_open { IfNone self.old.open_name (result ≡ Ok 0) }
        ensures closes { OnErr result (self.new.open_name ≡ None) }
        ensures cause { HasCause self.old.faults self.new.faults result }
        ensures blames { Blames self.old.open_name self.old.fault_name self.new.fault_name result }

        ensures exact { result ≡ answer_of_read self.old (length into.old) }
        ensures after { self.new ≡ after_read self.old (length into.old) }
    {
        let Some(file) = self.current.take() else {
            return Ok(0);
        };
        self.calls = self.calls.saturating_add(1);
        if self.failing.as_slice().contains(&self.calls) {
            return Err(self.fail(file.name));
        }
        let OpenFile { name, place, at } = file;
        let count = copy_part(self.files.as_slice(), place, at, into);
        self.current = Some(OpenFile {
            name,
            place,
            at: at + count,
        });
        Ok(count)
    }
}

/// Copies the bytes of a file from a place on, as many as fit.
fn copy_part(files: &[(Name, Bytes)], place: usize, at: usize, into: &mut [u8]) -> usize
    requires place { place < length files.now }
    requires at { at ≤ length (bytes_at files.now place) }
    ensures count { result ≡ min (length into.old) (length (bytes_at files.now place) - at) }
    ensures end { at + result < 2 ^ 64 }
    ensures copied { take result into.new ≡ take result (drop at (bytes_at files.now place)) }
{
    let rest = &files[place].1.as_slice()[at..];
    let count = rest.len().min(into.len());
    into[..count].copy_from_slice(&rest[..count]);
    count
}
