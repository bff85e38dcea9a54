//! Files that are read by name.
ghost use Rattle.std.specs.Prelude.{◌≡◌, ◌≢◌, ◌≤◌, ℕ, List, [], length, Some, None, Option, IfSome, IfOk, IsOk, IsTrue, ◌↔◌, find};
ghost use Rattle.std.specs.List.{list_any};
ghost use Rattle.desk_outside.specs.Schedule.{fresh_calls, fails_next, after_call};
ghost use Rattle.std.specs.Option.{option_copied};
ghost use Rattle.std.specs.Str.{bytes_eq};
ghost use Rattle.desk_outside.specs.declared.shelf.ShelfAnswer.{ShelfAnswer};
ghost use Rattle.desk_outside.specs.Faults.{Rose};
ghost use Rattle.desk_outside.specs.Files.{text_of, Gives, distinct_names};

use crate::calls::Calls;
use scan_model::{Name, NoMemory, Rows};
use std::alloc::Global;

/// How a read ended.
#[derive(Clone, Copy, PartialEq, Eq)]
pub enum ShelfAnswer {
    /// All bytes of the file were read.
    Read,
    /// No file has the name.
    Absent,
    /// The file has more bytes than the limit.
    TooLong,
    /// The shelf failed, and its count of faults rose.
    Failed,
    /// Memory ran out.
    NoMemory,
}

/// A file in memory: the bytes of its name, and those of its text.
#[derive(Drop)]
pub struct File {
    pub name: Name,
    pub text: Name,
}

/// Where files are read.
pub trait Shelf: Drop {
    ghost use Rattle.desk_outside.specs.declared.shelf.File.{File};

    /// The files, where the shelf tells them.
    ghost files: { Self → Option (List File) };

    /// How often it has failed. The count never falls, and stays at 2^64 - 1 once it is there.
    ghost faults: { Self → ℕ };

    /// Reads the whole file of that name into an emptied `into`, if it has at most `limit` bytes. Every answer other
    /// than `Read` leaves `into` empty.
    fn read(&mut self, name: &str, limit: u64, into: &mut Vec<u8>) -> ShelfAnswer
        ensures told { (held : List File) → files self.old ≡ Some held → Gives (text_of held name.now) limit result into.new.items }
        ensures within { length into.new.items ≤ limit }
        ensures empty { result ≢ ShelfAnswer.Read → into.new.items ≡ [] }
        ensures same { files self.new ≡ files self.old }
        ensures later { faults self.old ≤ faults self.new }
        ensures failed { result ≡ ShelfAnswer.Failed → Rose (faults self.old) (faults self.new) };
}

/// Whether no two files have the same name, which the makers of shelves ask for.
pub fn are_distinct(files: &[File]) -> bool
    ensures { result ≡ distinct_names files.now }
{
    let mut rest = files;
    while let [file, others @ ..] = rest {
        if is_among(others, file.name.as_slice()) {
            return false;
        }
        rest = others;
    }
    true
}

// Whether a file has that name.
fn is_among(files: &[File], name: &[u8]) -> bool
    ensures { result ≡ list_any (λ file. bytes_eq file.name name.now) files.now }
{
    files.iter().any(|file| file.name.as_slice() == name)
}

// The file of that name.
fn file_named<'a>(files: &'a [File], name: &str) -> Option<&'a File>
    ensures { option_copied result ≡ find (λ file. bytes_eq file.name name.now) files.now }
{
    files
        .iter()
        .find(|file| file.name.as_slice() == name.as_bytes())
}

// Reads from these files.
fn read_from(files: &[File], name: &str, limit: u64, into: &mut Vec<u8>) -> ShelfAnswer
    requires { into.old.items ≡ [] }
    ensures told { Gives (text_of files.now name.now) limit result into.new.items }
    ensures within { length into.new.items ≤ limit }
    ensures empty { result ≢ ShelfAnswer.Read → into.new.items ≡ [] }
    ensures sure { result ≢ ShelfAnswer.Failed }
{
    let Some(file) = file_named(files, name) else {
        return ShelfAnswer::Absent;
    };
    let text = file.text.as_slice();
    if text.len() as u64 > limit {
        return ShelfAnswer::TooLong;
    }
    match into.extend_from_slice(text) {
        Ok(()) => ShelfAnswer::Read,
        Err(_) => ShelfAnswer::NoMemory,
    }
}

/// Files in memory. The reads that are listed fail.
#[derive(Drop)]
pub struct MemShelf {
    files: Rows<File>,
    calls: Calls,
}

impl MemShelf {
    ghost use Rattle.desk_outside.specs.Memory.{shelf_files, shelf_calls};

    /// A shelf of which no read fails.
    pub fn make(alloc: Global, files: Rows<File>) -> Result<MemShelf, NoMemory>
        requires { IsTrue (distinct_names files) }
        ensures ok { IsOk result }
        ensures files { IfOk result (λ s. shelf_files s ≡ files) }
        ensures calls { IfOk result (λ s. shelf_calls s ≡ fresh_calls []) }
    {
        Ok(MemShelf {
            files,
            calls: Calls::sure(alloc),
        })
    }

    /// A shelf of which the reads with these numbers fail, counted from 1.
    pub fn make_failing(
        _alloc: Global,
        files: Rows<File>,
        calls: Rows<u64>,
    ) -> Result<MemShelf, NoMemory>
        requires { IsTrue (distinct_names files) }
        ensures ok { IsOk result }
        ensures files { IfOk result (λ s. shelf_files s ≡ files) }
        ensures calls { IfOk result (λ s. shelf_calls s ≡ fresh_calls calls) }
    {
        Ok(MemShelf {
            files,
            calls: Calls::failing(calls),
        })
    }
}

impl Shelf for MemShelf {
    ghost use Rattle.desk_outside.specs.declared.shelf.File.{File};
    ghost use Rattle.desk_outside.specs.Memory.{shelf_files, shelf_calls};

    ghost files = { λ s. Some (shelf_files s) };

    ghost faults = { λ s. (shelf_calls s).faults };

    fn read(&mut self, name: &str, limit: u64, into: &mut Vec<u8>) -> ShelfAnswer
        ensures told { (held : List File) → Some (shelf_files self.old) ≡ Some held → Gives (text_of held name.now) limit result into.new.items }
        ensures within { length into.new.items ≤ limit }
        ensures empty { result ≢ ShelfAnswer.Read → into.new.items ≡ [] }
        ensures same { Some (shelf_files self.new) ≡ Some (shelf_files self.old) }
        ensures later { (shelf_calls self.old).faults ≤ (shelf_calls self.new).faults }
        ensures failed { result ≡ ShelfAnswer.Failed → Rose (shelf_calls self.old).faults (shelf_calls self.new).faults }

        // It fails, and its count rises, in the calls that are listed and in no other.
        ensures listed { (result ≡ ShelfAnswer.Failed) ↔ IsTrue (fails_next (shelf_calls self.old)) }
        ensures counted { shelf_calls self.new ≡ after_call (shelf_calls self.old) }
    {
        into.clear();
        if self.calls.fails() {
            return ShelfAnswer::Failed;
        }
        read_from(self.files.as_slice(), name, limit, into)
    }
}

/// Files in memory. No read fails.
#[derive(Drop)]
pub struct SureShelf {
    files: Rows<File>,
}

impl SureShelf {
    ghost use Rattle.desk_outside.specs.Memory.{sure_files};

    /// A shelf with these files.
    pub fn make(_alloc: Global, files: Rows<File>) -> Result<SureShelf, NoMemory>
        requires { IsTrue (distinct_names files) }
        ensures ok { IsOk result }
        ensures files { IfOk result (λ s. sure_files s ≡ files) }
    {
        Ok(SureShelf { files })
    }
}

impl Shelf for SureShelf {
    ghost use Rattle.desk_outside.specs.Memory.{sure_files};

    ghost files = { λ s. Some (sure_files s) };

    ghost faults = { λ _. 0 };

    fn read(&mut self, name: &str, limit: u64, into: &mut Vec<u8>) -> ShelfAnswer {
        into.clear();
        read_from(self.files.as_slice(), name, limit, into)
    }
}
