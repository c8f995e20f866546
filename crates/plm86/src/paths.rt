//! What the names of files lead to.

use crate::destination::{Destination, Inode};
use crate::stop::Stop;
use std::alloc::Global;
use std::fs::Metadata;
use std::io::ErrorKind;
use std::os::unix::fs::{FileTypeExt, MetadataExt};
use std::path::{Path, PathBuf};
use std::rt::Files;

// Linux follows no more links than this at one name.
const LINKS_AT_MOST: usize = 40;

/// The path that a name leads to by the links at its end, whether or not a file is there.
pub(crate) fn path_of<R: Files>(rt: &R, alloc: Global, name: &str) -> Result<PathBuf, Stop> {
    let mut path = PathBuf::from_str(alloc, name)?;
    for _ in 0..LINKS_AT_MOST {
        match link_at(rt, alloc, path.as_path())? {
            Some(next) => path = next,
            None => return Ok(path),
        }
    }
    Ok(path)
}

// Where the link at this path leads to. The system's links to open files stay, as their texts need not be paths.
fn link_at<R: Files>(rt: &R, alloc: Global, path: Path<'_>) -> Result<Option<PathBuf>, Stop> {
    if is_open_file(path) || !path.is_symlink(rt) {
        return Ok(None);
    }
    let text = match rt.read_link(alloc, path.as_str()) {
        Ok(text) => text,
        Err(error) if error.kind() == ErrorKind::OutOfMemory => return Err(Stop::Memory),
        Err(_) => return Ok(None),
    };
    let mut next = folder_of(path).to_path_buf(alloc)?;
    next.push(text)?;
    Ok(Some(next))
}

/// The folder that a path's file stands in.
pub(crate) fn folder_of<'a>(path: Path<'a>) -> Path<'a> {
    match path.parent() {
        Some(folder) if !folder.as_str().is_empty() => folder,
        _ => Path::new("."),
    }
}

/// Whether this is a path by which the system names a file that is open: a number in a folder `fd`.
pub(crate) fn is_open_file(path: Path<'_>) -> bool {
    let is_of_system = path.as_str().starts_with("/proc/") || path.as_str().starts_with("/dev/fd/");
    let is_number = match path.file_name() {
        Some(name) => name.bytes().all(|byte| byte.is_ascii_digit()),
        None => false,
    };
    is_of_system && is_number && folder_of(path).file_name() == Some("fd")
}

/// What a path leads to.
pub(crate) fn destination_of<'a, R: Files>(rt: &R, path: Path<'a>) -> Destination<'a> {
    match path.metadata(rt) {
        Ok(found) if is_passing(&found) => Destination::Passing,
        Ok(found) if is_open_file(path) || found.file_type().is_block_device() => {
            Destination::Opened(inode_of(&found))
        }
        Ok(found) => Destination::File(inode_of(&found)),
        Err(_) => new_file(rt, path),
    }
}

/// What the program's stream at this path goes to. Where that passes bytes on, or is closed, nothing is lost with it.
pub(crate) fn stream_of<'a, R: Files>(rt: &R, path: &str) -> Destination<'a> {
    match Path::new(path).metadata(rt) {
        Ok(found) if found.is_file() => Destination::Stream(inode_of(&found)),
        Ok(_) | Err(_) => Destination::Passing,
    }
}

/// Whether bytes that are written there are not kept.
pub(crate) fn is_passing(found: &Metadata) -> bool {
    let kind = found.file_type();
    kind.is_char_device() || kind.is_fifo() || kind.is_socket()
}

fn inode_of(found: &Metadata) -> Inode {
    Inode {
        device: found.dev(),
        number: found.ino(),
    }
}

// What a path leads to where no file is.
fn new_file<'a, R: Files>(rt: &R, path: Path<'a>) -> Destination<'a> {
    match (path.file_name(), folder_of(path).metadata(rt)) {
        (Some(name), Ok(folder)) => Destination::New(inode_of(&folder), name),
        _ => Destination::Passing,
    }
}
