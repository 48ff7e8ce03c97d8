//! The file that a history goes to. It is replaced only if nothing else is lost by that.

ghost use Rattle.std.specs.Prelude.{◌≤◌, length, IfOk};

use std::fs::{OpenFile, OpenOptions};
use std::io::{Read, Seek, SeekFrom, Write};
use std::rt::Files;
use std::{fs, io};

/// Whether an open file is empty, or begins as a history does.
fn is_free<F: Read + OpenFile>(file: &mut F) -> io::Result<bool> {
    if file.metadata()?.len() == 0 {
        return Ok(true);
    }
    let mut front = [0; 17];
    let whole = file.read_exact(&mut front).is_ok();
    Ok(whole && front == *b"dummynet-history,")
}

/// Whether a history may go to the file at `path`: it is new, empty, an older history, or no regular file, as a pipe.
///
/// A file that can't be looked at passes, because the write says why it fails.
pub fn may_take_history<R: Files>(rt: &R, path: &str) -> bool {
    let Ok(found) = fs::metadata(rt, path) else {
        return true;
    };
    if !found.is_file() {
        return true;
    }
    let Ok(mut file) = fs::open(rt, path) else {
        return true;
    };
    is_free(&mut file).unwrap_or(true)
}

/// Writes a text over an older one of this length.
///
/// What is longer comes first. So a full disk is met while the older text is whole, and that is what stays.
fn write_over<F: Write + Seek + OpenFile>(file: &mut F, older: u64, text: &[u8]) -> io::Result<()> {
    let (front, back) = text.split_at(text.len().min(older as usize));
    file.seek(SeekFrom::Start(front.len() as u64))?;
    if let Err(error) = file.write_all(back) {
        file.set_len(older)?;
        return Err(error);
    }
    file.seek(SeekFrom::Start(0))?;
    file.write_all(front)?;
    file.set_len(text.len() as u64)?;
    file.seek(SeekFrom::Start(text.len() as u64))?;
    Ok(())
}

/// The file of a history, which is opened by the first write to it.
///
/// So what fails before it has something to write leaves an older file as it was. The first write has the whole text.
#[derive(Drop)]
pub struct HistoryFile<'a, R: Files> {
    rt: &'a R,
    path: &'a str,
    file: Option<R::File>,
}

impl<'a, R: Files> HistoryFile<'a, R> {
    /// The file at `path`, which isn't touched yet.
    pub fn new(rt: &'a R, path: &'a str) -> HistoryFile<'a, R> {
        HistoryFile {
            rt,
            path,
            file: None,
        }
    }

    /// Opens the file and writes to it first.
    fn begin(&mut self, text: &[u8]) -> io::Result<usize>
        ensures { IfOk result (λ n. n ≤ length text.now) }
    {
        if let Ok(found) = fs::metadata(self.rt, self.path) {
            if !found.is_file() {
                let file = self.file.insert(fs::create(self.rt, self.path)?);
                return file.write(text);
            }
        }
        let mut how = OpenOptions::new();
        how.read(true).write(true).create(true);
        let mut file = how.open(self.rt, self.path)?;
        if !is_free(&mut file)? {
            return Err(io::Error::from(io::ErrorKind::AlreadyExists));
        }
        let older = file.metadata()?.len();
        if older == 0 {
            return self.file.insert(file).write(text);
        }
        write_over(&mut file, older, text)?;
        self.file = Some(file);
        Ok(text.len())
    }
}

impl<'a, R: Files> Write for HistoryFile<'a, R> {
    fn write(&mut self, buf: &[u8]) -> io::Result<usize> {
        match &mut self.file {
            Some(file) => file.write(buf),
            None => self.begin(buf),
        }
    }

    fn flush(&mut self) -> io::Result<()> {
        match &mut self.file {
            Some(file) => file.flush(),
            None => Ok(()),
        }
    }
}
