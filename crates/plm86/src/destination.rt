//! What the names of a command line lead to, and where a file would be lost by another.

ghost use Rattle.std.specs.Prelude.{◌≡◌, ℕ, ◌<◌, ◌≤◌, false, true, length, slice_index_or, IfSome, IfNone};
ghost use Rattle.plm86.specs.Destination.{is_inode, clashes, ClashesAt, IsClash, IsFirstClash, KeepsStreams};
ghost use Rattle.plm86.specs.declared.destination.Destination.TheVariants.{Passing};

/// A file or a folder that is there: its device, and its number on it.
#[derive(Clone, Copy)]
pub struct Inode {
    pub device: u64,
    pub number: u64,
}

impl Inode {
    fn is(self, other: Inode) -> bool
        ensures { result ≡ is_inode self other }
    {
        self.device == other.device && self.number == other.number
    }
}

/// What a name leads to.
#[derive(Clone, Copy)]
pub enum Destination<'a> {
    /// A file that is there, whose bytes would be replaced.
    File(Inode),
    /// No file yet: one of this name would be made in this folder.
    New(Inode, &'a str),
    /// A file that the caller has open, as behind `/dev/stdout`: bytes would be put at its end. Or a block device. Several outputs may go
    /// there, but a source that is read there would not stay what it is.
    Opened(Inode),
    /// The file to which standard output or standard error goes: what the program writes there would be lost with it.
    Stream(Inode),
    /// Where bytes are not kept: a character device, a pipe or a socket, which passes them on; or a path in no folder, at which no
    /// file can be made.
    Passing,
}

impl<'a> Destination<'a> {
    /// Whether an output to this would lose what is written by the other name, or what is read by it, where it is a source.
    pub fn clashes_with(&self, other: &Destination<'_>, is_source: bool) -> bool
        ensures { result ≡ clashes is_source self.now other.now }
    {
        match (self, other) {
            (Destination::File(one), Destination::File(two)) => one.is(*two),
            (Destination::File(one), Destination::Opened(two)) => one.is(*two),
            (Destination::File(one), Destination::Stream(two)) => one.is(*two),
            (Destination::Opened(one), Destination::File(two)) => one.is(*two),
            (Destination::Opened(one), Destination::Opened(two)) => is_source && one.is(*two),
            (Destination::Stream(one), Destination::File(two)) => one.is(*two),
            (Destination::New(one, name), Destination::New(two, other_name)) => {
                one.is(*two) && name == other_name
            }
            (Destination::File(_), Destination::New(_, _) | Destination::Passing) => false,
            (
                Destination::New(_, _),
                Destination::File(_)
                | Destination::Opened(_)
                | Destination::Stream(_)
                | Destination::Passing,
            ) => false,
            (
                Destination::Opened(_) | Destination::Stream(_),
                Destination::New(_, _) | Destination::Stream(_) | Destination::Passing,
            ) => false,
            (Destination::Stream(_), Destination::Opened(_)) => false,
            (
                Destination::Passing,
                Destination::File(_)
                | Destination::New(_, _)
                | Destination::Opened(_)
                | Destination::Stream(_)
                | Destination::Passing,
            ) => false,
        }
    }
}

// The first file after this one that clashes with it.
fn clash_after(files: &[Destination<'_>], written: usize, k: usize) -> Option<usize>
    requires { k < length files.now }
    ensures found { IfSome result (λ m. ClashesAt files.now written k m × ((j : ℕ) → ClashesAt files.now written k j → m ≤ j)) }
    ensures none { IfNone result ((j : ℕ) → ClashesAt files.now written k j → ⊥) }
{
    for (m, other) in files.iter().enumerate() {
        if k < m && files[k].clashes_with(other, written <= m) {
            return Some(m);
        }
    }
    None
}

// The same of all the files that are written: the first of them that clashes with one after it.
fn earliest_clash(files: &[Destination<'_>], written: usize) -> Option<(usize, usize)>
    ensures found { IfSome result (IsFirstClash files.now written) }
    ensures none { IfNone result ((k m : ℕ) → IsClash files.now written k m → ⊥) }
{
    for k in 0..files.len() {
        if k >= written {
            return None;
        }
        if let Some(m) = clash_after(files, written, k) {
            return Some((k, m));
        }
    }
    None
}

/// The places of the first two files of which one would be lost by the other, where there are two: a file that is written, as the first
/// `written` are, and one after it; those after the first `written` are sources, or the files of standard streams. Of two such pairs the
/// first is the one of the earlier file, and then the one with the earlier other. Where there is no such pair, no file that is written takes
/// the place of a standard stream's.
pub fn first_clash(files: &[Destination<'_>], written: usize) -> Option<(usize, usize)>
    ensures found { IfSome result (IsFirstClash files.now written) }
    ensures none { IfNone result ((k m : ℕ) → IsClash files.now written k m → ⊥) }
    ensures streams { IfNone result (KeepsStreams files.now written) }
{
    earliest_clash(files, written)
}
