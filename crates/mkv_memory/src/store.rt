//! Names with their contents, and the files that are open under them.

ghost use denote.Ref.{Bor};
ghost use Rattle.std.specs.Prelude.{slice_set, ◌≡◌, ◌≢◌, ℕ, ◌+◌, ◌-◌, ◌<◌, ◌≤◌, ◌^◌, ◌↔◌, List, [], ◌∷◌, ◌++◌, length, Option, Some, None, is_some, option_map, unwrap_or, OnOk, OnErr, IfOk, IsTrue, IsSome};
ghost use Rattle.mkv_io.specs.Contents.{with_appended, with_overwritten};
ghost use Rattle.mkv_io.specs.Names.{changed_at};
ghost use Rattle.mkv_memory.specs.Stored.{HasShortContents, AreThere, Changes, closed, content_of_file, content_of_name, files_of, made_under, name_of_file, opened_under, with_changed_file, with_content_at};
ghost use Rattle.mkv_io.specs.declared.outside.TheConstants.{LONGEST_FILE};

use mkv_io::{Bytes, FileId, Text};
use std::alloc::{AllocError, Global};
use std::collections::BTreeMap;

type Contents = BTreeMap<String, Bytes>;

/// Names with their contents, and the open files. The number of a file is its index in `opened`, counted from 0.
#[derive(Drop)]
pub struct Store {
    alloc: Global,
    pub contents: Contents,
    pub opened: Vec<Option<Text>>,
    ghost short: { HasShortContents (content_of_name contents.entries) },
    ghost few: { length opened.items ≤ 2 ^ 64 - 1 },
    ghost there: { AreThere (content_of_name contents.entries) opened.items },
}

impl Store {
    ghost use Rattle.mkv_memory.specs.StoreIn.{stored_in};

    /// Returns a store without names and open files. Files in memory begin with it.
    pub fn new(alloc: Global) -> Store
        ensures { stored_in result ≡ record { world = λ _. None; opened = [] } }
    {
        Store {
            alloc,
            contents: BTreeMap::new(alloc),
            opened: Vec::new(alloc),
        }
    }

    /// Checks whether no number is left for one more file. `open_file` and `create` of files in memory then fail.
    pub fn is_full(&self) -> bool
        ensures { IsTrue result ↔ (length (stored_in self.now).opened ≡ 2 ^ 64 - 1) }
    {
        self.opened.len() as u64 == u64::MAX
    }

    /// Returns the content of the file `name`, or None if there is none. `MemFiles::bytes` and `octets` call it.
    pub fn content(&self, name: &str) -> Option<&[u8]>
        ensures { option_map (λ (bytes : Bor (List ℕ)). bytes.now) result ≡ (stored_in self.now).world name.now }
    {
        match self.contents.get(name) {
            Some(content) => Some(content.as_slice()),
            None => None,
        }
    }

    /// Returns the bytes of the live file `file`. Reads of files in memory use it.
    pub fn octets(&self, file: FileId) -> &[u8]
        ensures { result.now ≡ unwrap_or (content_of_file (stored_in self.now) file.n) [] }
    {
        match self.opened.get(file.n as usize) {
            Some(Some(name)) => self.content(name.as_str()).unwrap_or(&[]),
            _ => &[],
        }
    }

    /// Sets the content of the file `name` to `content`. `MemFiles::put` calls it.
    pub fn set(&mut self, name: &str, content: Bytes) -> Result<(), AllocError>
        requires { length content ≤ LONGEST_FILE }
        ensures ok { OnOk result (stored_in self.new ≡ with_content_at (stored_in self.old) name.now content) }
        ensures err { OnErr result (stored_in self.new ≡ stored_in self.old) }
    {
        set(&mut self.contents, self.alloc, name, content)?;
        Ok(())
    }

    /// Opens the file `name`, which has a content, and returns its number. `MemFiles::open_file` calls it.
    pub fn open(&mut self, name: &str) -> Result<FileId, AllocError>
        requires there { IsSome ((stored_in self.old).world name.now) }
        requires room { length (stored_in self.old).opened < 2 ^ 64 - 1 }
        ensures number { IfOk result (λ file. file.n ≡ length (stored_in self.old).opened) }
        ensures ok { OnOk result (stored_in self.new ≡ opened_under (stored_in self.old) name.now) }
        ensures err { OnErr result (stored_in self.new ≡ stored_in self.old) }
    {
        let number = self.opened.len() as u64;
        let mut holder = Text::new(self.alloc);
        holder.append(name)?;
        self.opened.push(Some(holder))?;
        Ok(FileId { n: number })
    }

    /// Creates the file `name` with no bytes, whatever it had before, opens it, and returns its number.
    /// `MemFiles::create` calls it.
    pub fn create(&mut self, name: &str) -> Result<FileId, AllocError>
        requires { length (stored_in self.old).opened < 2 ^ 64 - 1 }
        ensures number { IfOk result (λ file. file.n ≡ length (stored_in self.old).opened) }
        ensures ok { OnOk result (stored_in self.new ≡ made_under (stored_in self.old) name.now) }
        ensures err { OnErr result (stored_in self.new ≡ stored_in self.old) }
    {
        let number = self.opened.len() as u64;
        let mut holder = Text::new(self.alloc);
        holder.append(name)?;
        let empty = Bytes::new(self.alloc);
        self.opened.reserve(1)?;
        set(&mut self.contents, self.alloc, name, empty)?;
        self.opened.push(Some(holder)).unwrap();
        Ok(FileId { n: number })
    }

    /// Appends `more` to the content of the live file `file`. `MemFiles::append` calls it.
    pub fn append(&mut self, file: FileId, more: &[u8]) -> Result<(), AllocError>
        requires live { IsTrue ((files_of (stored_in self.old)).live file.n) }
        requires room { (files_of (stored_in self.old)).size file.n + length more.now ≤ LONGEST_FILE }
        ensures ok { OnOk result (stored_in self.new ≡ with_changed_file (stored_in self.old) file.n (with_appended more.now)) }
        ensures err { OnErr result (stored_in self.new ≡ stored_in self.old) }
    {
        let name = holder(&self.opened, file);
        grow(&mut self.contents, name, more)?;
        Ok(())
    }

    /// Writes `bytes` over the live file `file` from the offset `at`. `MemFiles::overwrite` calls it.
    pub fn overwrite(&mut self, file: FileId, at: usize, bytes: &[u8])
        requires live { IsTrue ((files_of (stored_in self.old)).live file.n) }
        requires range { at + length bytes.now ≤ (files_of (stored_in self.old)).size file.n }
        ensures { stored_in self.new ≡ with_changed_file (stored_in self.old) file.n (with_overwritten at bytes.now) }
    {
        let name = holder(&self.opened, file);
        write_over(&mut self.contents, name, at, bytes);
    }

    /// Closes the live file `file`. `MemFiles::close` calls it.
    pub fn close(&mut self, file: FileId)
        requires { IsTrue ((files_of (stored_in self.old)).live file.n) }
        ensures { stored_in self.new ≡ closed (stored_in self.old) file.n }
    {
        self.opened[file.n as usize] = None;
    }
}

/// Returns the name that the live file `file` was opened under; `opened` has the names of all files by number. `append`
/// and `overwrite` call it.
fn holder<'a>(opened: &'a Vec<Option<Text>>, file: FileId) -> &'a str
    requires { IsTrue (is_some (name_of_file opened.now.items file.n)) }
    ensures { name_of_file opened.now.items file.n ≡ Some result.now }
{
    match opened.get(file.n as usize) {
        Some(Some(name)) => name.as_str(),
        _ => unreachable!(),
    }
}

/// Sets the content of the file `name` in `contents` to `content`. `Store::set` and `Store::create` call it.
fn set(contents: &mut Contents, alloc: Global, name: &str, content: Bytes) -> Result<(), AllocError>
    ensures ok { OnOk result (Changes name.now (λ _. Some content) contents.old.entries contents.new.entries) }
    ensures err { OnErr result (content_of_name contents.new.entries ≡ content_of_name contents.old.entries) }
{
    let key = name.to_string(alloc)?;
    contents.insert(key, content)?;
    Ok(())
}

/// Appends `more` to the content of the file `name` in `contents`. `Store::append` calls it.
fn grow(contents: &mut Contents, name: &str, more: &[u8]) -> Result<(), AllocError>
    ensures ok { OnOk result (Changes name.now (with_appended more.now) contents.old.entries contents.new.entries) }
    ensures err { OnErr result (content_of_name contents.new.entries ≡ content_of_name contents.old.entries) }
{
    match contents.get_mut(name) {
        Some(content) => {
            content.append(more)?;
            Ok(())
        }
        None => Ok(()),
    }
}

/// Writes `bytes` over the content of the file `name` in `contents`, from the offset `at`. `Store::overwrite` calls it.
fn write_over(contents: &mut Contents, name: &str, at: usize, bytes: &[u8])
    requires { at + length bytes.now ≤ length (unwrap_or (content_of_name contents.old.entries name.now) []) }
    ensures { Changes name.now (with_overwritten at bytes.now) contents.old.entries contents.new.entries }
{
    if let Some(content) = contents.get_mut(name) {
        content.overwrite(at, bytes);
    }
}
