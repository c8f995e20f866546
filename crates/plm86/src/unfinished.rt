//! The names of files that are not whole yet, and what programs that were ended left under such names.
//!
//! Such a name has the number of the process that makes the file, and a count. What becomes of the files has no contract: `tests/outputs` shows
//! that a program that is ended leaves one at most, and that the next one in that folder removes it.

use crate::paths::folder_of;
use crate::stop::Stop;
use std::alloc::{AllocError, Global};
use std::fs::{File, OpenOptions};
use std::io::{Error, ErrorKind, Read};
use std::os::unix::fs::MetadataExt;
use std::path::Path;
use std::rt::Files;
use std::{fs, io};

/// What such names begin with. The number of the process comes next, then the count.
const FRONT: &str = "plm86-unfinished-";

/// A count has so many digits.
const DIGITS: usize = 3;

/// So many names are tried.
const COUNTS: usize = 1000;

/// A path beside an output, at which it stands until it is whole.
#[derive(Drop)]
pub(crate) struct Unfinished {
    path: String,
}

impl Unfinished {
    /// All memory that making such files takes is taken here.
    pub fn beside<R: Files>(rt: &R, alloc: Global, output: Path<'_>) -> Result<Unfinished, Stop> {
        let process = own_number(rt, alloc)?;
        let name = format!(in alloc; "{FRONT}{process}-000")?;
        let mut path = folder_of(output).to_path_buf(alloc)?;
        path.push(name)?;
        Ok(Unfinished {
            path: path.into_string(),
        })
    }

    /// Its path, as the file that was made last has it.
    pub fn path(&self) -> &str {
        self.path.as_str()
    }

    /// Makes an empty file under the first of the names that is free, to be written and read. Where all are taken, the error is
    /// `AlreadyExists`.
    pub fn create<R: Files>(&mut self, rt: &R) -> io::Result<R::File> {
        for count in 0..COUNTS {
            self.number(count)?;
            let made = OpenOptions::new()
                .read(true)
                .write(true)
                .create_new(true)
                .open(rt, self.path.as_str());
            match made {
                Err(error) if error.kind() == ErrorKind::AlreadyExists => {}
                made => return made,
            }
        }
        Err(Error::from(ErrorKind::AlreadyExists))
    }

    /// Makes such a file that goes with what has it open: it keeps no name.
    pub fn create_nameless<R: Files>(&mut self, rt: &R) -> io::Result<R::File> {
        let file = self.create(rt)?;
        fs::remove_file(rt, self.path.as_str())?;
        Ok(file)
    }

    /// Removes the file that was made last.
    pub fn remove<R: Files>(&self, rt: &R) {
        let _ = fs::remove_file(rt, self.path.as_str());
    }

    // Puts a count in the place of the name's.
    fn number(&mut self, count: usize) -> Result<(), AllocError> {
        for _digit in 0..DIGITS {
            let _ = self.path.pop();
        }
        self.path.push(digit(count / 100))?;
        self.path.push(digit(count / 10))?;
        self.path.push(digit(count))
    }
}

// The last digit of a number.
fn digit(number: usize) -> char {
    char::from(b'0' + (number % 10) as u8)
}

// The number of this process, as the system's folder of processes has it; 0 where there is no such folder.
fn own_number<R: Files>(rt: &R, alloc: Global) -> Result<String, Stop> {
    match rt.read_link(alloc, "/proc/self") {
        Ok(number) => Ok(number.into_string()),
        Err(error) if error.kind() == ErrorKind::OutOfMemory => Err(Stop::Memory),
        Err(_) => Ok(String::from_str(alloc, "0")?),
    }
}

/// Removes from a folder what programs that have ended left there unfinished.
pub(crate) fn remove_leftovers<R: Files>(
    rt: &R,
    alloc: Global,
    folder: Path<'_>,
) -> Result<(), AllocError> {
    let mut listed = String::from_str(alloc, folder.as_str())?;
    listed.push('/')?;
    let Ok(mut names) = rt.open_dir(listed.as_str()) else {
        return Ok(());
    };
    let mut buffer = [0; 4096];
    for _ in 0..u64::MAX {
        match names.read(&mut buffer) {
            Ok(0) | Err(_) => return Ok(()),
            Ok(count) => remove_named(rt, alloc, listed.as_str(), &buffer[..count])?,
        }
    }
    Ok(())
}

// Removes those of names, each with a 0 behind it, that are of processes that have ended.
fn remove_named<R: Files>(
    rt: &R,
    alloc: Global,
    folder: &str,
    names: &[u8],
) -> Result<(), AllocError> {
    for name in names.split(|byte| *byte == 0) {
        if let Some((name, process)) = unfinished_name(name) {
            remove_leftover(rt, alloc, folder, name, process)?;
        }
    }
    Ok(())
}

// Whether a text is a number's digits.
fn is_number(text: &str) -> bool {
    !text.is_empty() && text.bytes().all(|byte| byte.is_ascii_digit())
}

// The name of an unfinished file as text, and the number of its process; none where it is another name.
fn unfinished_name(name: &[u8]) -> Option<(&str, &str)> {
    let name = std::str::from_utf8(name).ok()?;
    let (process, count) = name.strip_prefix(FRONT)?.split_once('-')?;
    if is_number(process) && is_number(count) {
        Some((name, process))
    } else {
        None
    }
}

// Removes an unfinished file where its process has ended and it is this user's.
fn remove_leftover<R: Files>(
    rt: &R,
    alloc: Global,
    folder: &str,
    name: &str,
    process: &str,
) -> Result<(), AllocError> {
    let running = format!(in alloc; "/proc/{process}")?;
    let path = format!(in alloc; "{folder}{name}")?;
    if is_gone(rt, running.as_str()) && is_own(rt, path.as_str()) {
        let _ = fs::remove_file(rt, path.as_str());
    }
    Ok(())
}

// Whether the system says that nothing is at a path.
fn is_gone<R: Files>(rt: &R, path: &str) -> bool {
    match rt.metadata(path) {
        Ok(_) => false,
        Err(error) => error.kind() == ErrorKind::NotFound,
    }
}

// Whether a file is this process's user's, who sees all processes of his, or this is the system's user, who sees all. Where no processes are shown, no
// file is.
fn is_own<R: Files>(rt: &R, path: &str) -> bool {
    match (rt.metadata("/proc/self"), rt.symlink_metadata(path)) {
        (Ok(process), Ok(file)) => {
            file.is_file() && (process.uid() == 0 || process.uid() == file.uid())
        }
        _ => false,
    }
}
