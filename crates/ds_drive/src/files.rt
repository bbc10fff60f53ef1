//! Where the program's files come from.
ghost use Rattle.std.specs.Prelude.{◌≡◌, ◌≢◌, ◌<◌, ◌≤◌, ◌∷◌, ℕ, List, [], Option, None, ⊤, Ok, Err, IfErr, IfOk, vec_len};
ghost use Rattle.std.specs.IoError.{error_kind};
ghost use Rattle.ds_drive.specs.Reading.{AskedFile, HasAsked, why_unread};

use std::alloc::Global;
use std::fs::{File, Metadata};
use std::io::{ErrorKind, Read};
use std::{fs, io, rt};

/// The most bytes that a file may have.
pub const MOST_BYTES: u64 = 16_777_216;

/// Why a file was not read.
#[derive(Clone, Copy, Debug, PartialEq, Eq)]
pub enum FileFault {
    /// The file can't be read, or has more than `MOST_BYTES` bytes.
    Unreadable,
    /// Memory ran out.
    Memory,
}

/// A place that files come from.
pub trait Files {
    /// The file of this name may be read as these bytes, now or later.
    ghost holds: { Self → List ℕ → List ℕ → Type 0 } = { λ _ _ _. ⊤ };

    /// The file of this name may be found unreadable, now or later.
    ghost lacks: { Self → List ℕ → Type 0 } = { λ _ _. ⊤ };

    /// The files that were asked for so far, where they are counted.
    ghost asked: { Self → Option (List AskedFile) } = { λ _. None };

    /// The bytes of the file of this name.
    fn read(&mut self, alloc: Global, name: &str) -> Result<Vec<u8>, FileFault>
        ensures limit { IfOk result (λ bytes. vec_len bytes ≤ 16777216) }
        ensures found { IfOk result (λ bytes. holds self.old name.now bytes.items) }
        ensures unread { result ≡ Err FileFault.Unreadable → lacks self.old name.now }
        ensures counted { HasAsked (asked self.old) (asked self.new)
            ((name.now, why_unread result) ∷ []) }
        ensures kept { (file bytes : List ℕ) → holds self.new file bytes
            → holds self.old file bytes }
        ensures lacked { (file : List ℕ) → lacks self.new file → lacks self.old file };

    /// The bytes of the file of this name, which a policy names as a source. A place that has folders,
    /// devices or pipes finds them unreadable before it opens them, and so symbolic links where the
    /// source has to be inside the folder.
    fn read_source(
        &mut self,
        alloc: Global,
        name: &str,
        _inside: bool,
    ) -> Result<Vec<u8>, FileFault>
        ensures limit { IfOk result (λ bytes. vec_len bytes ≤ 16777216) }
        ensures found { IfOk result (λ bytes. holds self.old name.now bytes.items) }
        ensures unread { result ≡ Err FileFault.Unreadable → lacks self.old name.now }
        ensures counted { HasAsked (asked self.old) (asked self.new)
            ((name.now, why_unread result) ∷ []) }
        ensures kept { (file bytes : List ℕ) → holds self.new file bytes
            → holds self.old file bytes }
        ensures lacked { (file : List ℕ) → lacks self.new file → lacks self.old file }
    {
        self.read(alloc, name)
    }
}

/// The files of the system.
#[derive_where(Clone, Copy)]
pub struct SystemFiles<'a, R> {
    rt: &'a R,
}

impl<'a, R: rt::Files> SystemFiles<'a, R> {
    /// The files that the runtime reaches.
    pub fn new(rt: &'a R) -> Self {
        SystemFiles { rt }
    }

    // One byte more than a file may have, if there are so many.
    fn bytes(&self, alloc: Global, name: &str) -> io::Result<Vec<u8>> {
        let file = File::open(self.rt, name)?;
        let mut bytes = Vec::new(alloc);
        file.take(MOST_BYTES + 1).read_to_end(&mut bytes)?;
        Ok(bytes)
    }

    // Whether the name is that of a file, and no link leads to it where it has to be inside.
    fn is_source(&self, name: &str, inside: bool) -> bool {
        if inside {
            is_file(fs::symlink_metadata(self.rt, name)) && !self.is_linked(name)
        } else {
            is_file(fs::metadata(self.rt, name))
        }
    }

    // Whether a folder on the way to the file is a symbolic link.
    fn is_linked(&self, name: &str) -> bool {
        for (place, byte) in name.bytes().enumerate() {
            if byte == b'/' && self.is_link(name.get(..place)) {
                return true;
            }
        }
        false
    }

    // Whether the name is that of a symbolic link.
    fn is_link(&self, name: Option<&str>) -> bool {
        match name {
            Some(name) => match fs::symlink_metadata(self.rt, name) {
                Ok(found) => found.is_symlink(),
                Err(_) => false,
            },
            None => false,
        }
    }
}

impl<'a, R: rt::Files> Files for SystemFiles<'a, R> {
    fn read(&mut self, alloc: Global, name: &str) -> Result<Vec<u8>, FileFault> {
        accept(self.bytes(alloc, name))
    }

    fn read_source(
        &mut self,
        alloc: Global,
        name: &str,
        inside: bool,
    ) -> Result<Vec<u8>, FileFault> {
        if !self.is_source(name, inside) {
            return Err(FileFault::Unreadable);
        }
        accept(self.bytes(alloc, name))
    }
}

// Whether what is known of a name says that it is a file, and no folder, link, device or pipe.
fn is_file(found: io::Result<Metadata>) -> bool {
    match found {
        Ok(found) => found.is_file(),
        Err(_) => false,
    }
}

// The bytes of a file that was read, if they are not too many.
fn accept(outcome: io::Result<Vec<u8>>) -> Result<Vec<u8>, FileFault>
    ensures whole { IfOk outcome (λ bytes. vec_len bytes ≤ 16777216 → result ≡ Ok bytes) }
    ensures long { IfOk outcome (λ bytes. 16777216 < vec_len bytes
        → result ≡ Err FileFault.Unreadable) }
    ensures memory { IfErr outcome (λ error. error_kind error ≡ ErrorKind.OutOfMemory
        → result ≡ Err FileFault.Memory) }
    ensures unreadable { IfErr outcome (λ error. error_kind error ≢ ErrorKind.OutOfMemory
        → result ≡ Err FileFault.Unreadable) }
{
    match outcome {
        Ok(bytes) if bytes.len() as u64 <= MOST_BYTES => Ok(bytes),
        Err(error) if error.kind() == ErrorKind::OutOfMemory => Err(FileFault::Memory),
        _ => Err(FileFault::Unreadable),
    }
}
