//! How an output is written: a file is not changed before all its bytes stand beside it.

use crate::files::unwritten;
use crate::paths::{folder_of, is_open_file, is_passing, path_of};
use crate::stop::Stop;
use crate::unfinished::{Unfinished, remove_leftovers};
use std::alloc::Global;
use std::fs::{File, Metadata, OpenFile, OpenOptions};
use std::io::{Error, ErrorKind, Read, Seek, Write};
use std::os::unix::fs::{MetadataExt, chown};
use std::path::PathBuf;
use std::rt::Files;
use std::{fs, io};

/// An output that will be written: the name that it was given, the path that this leads to, and what stands beside it until it is whole.
#[derive(Drop)]
pub(crate) struct Output<'a> {
    name: &'a str,
    path: PathBuf,
    unfinished: Unfinished,
}

/// What an output is to hold: bytes, and then a body.
#[derive(Drop)]
pub(crate) struct Content<'h, 'b, F: Drop> {
    pub head: &'h [u8],
    pub body: Body<'b, F>,
}

/// A body of an output: bytes, or a file that has them.
#[derive(Drop)]
pub(crate) enum Body<'b, F: Drop> {
    Bytes(&'b [u8]),
    File(F),
}

// What came of bytes that were to stand beside a file.
#[derive(Clone, Copy)]
enum Beside {
    // They do.
    Whole,
    // They could not be written, and why.
    Broken(Error),
    // The old one's owner and permissions cannot be given to what stands beside it.
    Refused,
}

impl<'h, 'b, F: Read + Write + Seek + Drop> Content<'h, 'b, F> {
    /// These bytes, and no more.
    pub fn of(bytes: &'b [u8]) -> Content<'h, 'b, F> {
        Content {
            head: b"",
            body: Body::Bytes(bytes),
        }
    }

    // Writes all of it into an open file.
    fn put(&mut self, file: &mut F) -> io::Result<()> {
        file.write_all(self.head)?;
        self.body.put(file)
    }
}

impl<'b, F: Read + Write + Seek + Drop> Body<'b, F> {
    fn put(&mut self, file: &mut F) -> io::Result<()> {
        match self {
            Body::Bytes(bytes) => file.write_all(bytes),
            Body::File(body) => {
                body.rewind()?;
                let _count = io::copy(body, file)?;
                Ok(())
            }
        }
    }
}

impl<'a> Output<'a> {
    /// All memory that writing takes is taken here. What programs that have ended left unfinished in the folder is removed.
    pub fn new<R: Files>(rt: &R, alloc: Global, name: &'a str) -> Result<Output<'a>, Stop> {
        let path = path_of(rt, alloc, name)?;
        let unfinished = Unfinished::beside(rt, alloc, path.as_path())?;
        remove_leftovers(rt, alloc, folder_of(path.as_path()))?;
        Ok(Output {
            name,
            path,
            unfinished,
        })
    }

    /// Writes the file whole. One that is kept is replaced at once or stays as it was; where nothing can be made beside it, and where it
    /// is a device, a pipe or open already, its bytes are written into it.
    pub fn write<R: Files>(&mut self, rt: &R, alloc: Global, bytes: &[u8]) -> Result<(), Stop> {
        self.write_content(rt, alloc, Content::of(bytes))
    }

    /// The same with more than bytes.
    pub fn write_content<R: Files>(
        &mut self,
        rt: &R,
        alloc: Global,
        content: Content<'_, '_, R::File>,
    ) -> Result<(), Stop> {
        let mut content = content;
        let written = self.put(rt, &mut content);
        drop(content);
        self.or_stop(alloc, written)
    }

    /// Refuses what cannot be written, as far as that shows before its bytes are known. Nothing is changed.
    pub fn refuse_unwritable<R: Files>(&mut self, rt: &R, alloc: Global) -> Result<(), Stop> {
        let tried = self.try_place(rt);
        self.or_stop(alloc, tried)
    }

    /// A file beside the output that keeps no name, for its body; none where the output's bytes do not come to stand beside it.
    pub fn nameless<R: Files>(&mut self, rt: &R, alloc: Global) -> Result<Option<R::File>, Stop> {
        match self.make_nameless(rt) {
            Ok(file) => Ok(file),
            Err(error) => Err(unwritten(alloc, self.name, &error)?),
        }
    }

    /// The stop for an error at this output.
    pub fn stop(&self, alloc: Global, error: &Error) -> Result<Stop, Stop> {
        Ok(unwritten(alloc, self.name, error)?)
    }

    fn or_stop(&self, alloc: Global, done: io::Result<()>) -> Result<(), Stop> {
        match done {
            Ok(()) => Ok(()),
            Err(error) => Err(unwritten(alloc, self.name, &error)?),
        }
    }

    // Writes what the output is to hold.
    fn put<R: Files>(&mut self, rt: &R, content: &mut Content<'_, '_, R::File>) -> io::Result<()> {
        match self.path.metadata(rt) {
            Ok(found) if !found.is_file() => self.overwrite(rt, content),
            Ok(_) if is_open_file(self.path.as_path()) => self.append(rt, content),
            Ok(found) => {
                self.open_to_writing(rt)?;
                self.replace(rt, Some(&found), content)
            }
            Err(error) if error.kind() == ErrorKind::NotFound => self.replace(rt, None, content),
            Err(error) => Err(error),
        }
    }

    // Writes into what is there.
    fn overwrite<R: Files>(
        &self,
        rt: &R,
        content: &mut Content<'_, '_, R::File>,
    ) -> io::Result<()> {
        let mut file = File::create(rt, self.path.as_path())?;
        content.put(&mut file)
    }

    // Writes at the end of what is there.
    fn append<R: Files>(&self, rt: &R, content: &mut Content<'_, '_, R::File>) -> io::Result<()> {
        let mut file = OpenOptions::new()
            .append(true)
            .open(rt, self.path.as_path())?;
        content.put(&mut file)
    }

    // A file that nobody may write is not replaced either.
    fn open_to_writing<R: Files>(&self, rt: &R) -> io::Result<()> {
        let _file = OpenOptions::new()
            .write(true)
            .open(rt, self.path.as_path())?;
        Ok(())
    }

    // What can be found out of the place of an output without a change there.
    fn try_place<R: Files>(&mut self, rt: &R) -> io::Result<()> {
        match self.path.metadata(rt) {
            // (to open a pipe waits for its reader)
            Ok(found) if is_passing(&found) => Ok(()),
            Ok(_) => self.open_to_writing(rt),
            Err(error) if error.kind() == ErrorKind::NotFound => {
                let _file = self.unfinished.create_nameless(rt)?;
                Ok(())
            }
            Err(error) => Err(error),
        }
    }

    fn make_nameless<R: Files>(&mut self, rt: &R) -> io::Result<Option<R::File>> {
        match self.path.metadata(rt) {
            Ok(found) if !found.is_file() || is_open_file(self.path.as_path()) => Ok(None),
            Ok(_) => match self.unfinished.create_nameless(rt) {
                Err(error) if error.kind() != ErrorKind::AlreadyExists => Ok(None),
                made => Ok(Some(made?)),
            },
            Err(error) if error.kind() == ErrorKind::NotFound => {
                Ok(Some(self.unfinished.create_nameless(rt)?))
            }
            Err(error) => Err(error),
        }
    }

    // Puts the bytes beside the file, and then in its place. Where there is a file already that takes nothing beside it, they are written into it; but
    // not where all names beside it are taken.
    fn replace<R: Files>(
        &mut self,
        rt: &R,
        old: Option<&Metadata>,
        content: &mut Content<'_, '_, R::File>,
    ) -> io::Result<()> {
        let file = match self.unfinished.create(rt) {
            Ok(file) => file,
            Err(error) if old.is_none() || error.kind() == ErrorKind::AlreadyExists => {
                return Err(error);
            }
            Err(_) => return self.overwrite(rt, content),
        };
        match self.fill(rt, file, old, content) {
            Beside::Whole => self.take_place(rt, content),
            Beside::Broken(error) => {
                self.unfinished.remove(rt);
                Err(error)
            }
            Beside::Refused => {
                self.unfinished.remove(rt);
                self.overwrite(rt, content)
            }
        }
    }

    // Puts what stands beside the file in its place. Where it cannot take it, its bytes are written there.
    fn take_place<R: Files>(
        &self,
        rt: &R,
        content: &mut Content<'_, '_, R::File>,
    ) -> io::Result<()> {
        if fs::rename(rt, self.unfinished.path(), self.path.as_path()).is_ok() {
            return Ok(());
        }
        self.unfinished.remove(rt);
        self.overwrite(rt, content)
    }

    // Gives the file beside the old one's owner and permissions, and all the bytes.
    fn fill<R: Files>(
        &self,
        rt: &R,
        mut file: R::File,
        old: Option<&Metadata>,
        content: &mut Content<'_, '_, R::File>,
    ) -> Beside {
        if let Some(old) = old {
            if !self.make_alike(rt, &file, old) {
                return Beside::Refused;
            }
        }
        match put_and_sync(&mut file, content) {
            Ok(()) => Beside::Whole,
            Err(error) => Beside::Broken(error),
        }
    }

    fn make_alike<R: Files>(&self, rt: &R, file: &R::File, old: &Metadata) -> bool {
        let Ok(made) = file.metadata() else {
            return false;
        };
        let is_owned_alike = made.uid() == old.uid() && made.gid() == old.gid();
        (is_owned_alike
            || chown(rt, self.unfinished.path(), Some(old.uid()), Some(old.gid())).is_ok())
            && file.set_permissions(old.permissions()).is_ok()
    }
}

// Writes all of it into an open file, and out to the disk.
fn put_and_sync<F: Read + Write + Seek + OpenFile + Drop>(
    file: &mut F,
    content: &mut Content<'_, '_, F>,
) -> io::Result<()> {
    content.put(file)?;
    file.sync_all()
}
