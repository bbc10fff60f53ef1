//! The files of a row: those of its folder.
ghost use Rattle.std.specs.Prelude.{◌≤◌, IfOk, vec_len};

use ds_drive::{FileFault, Files, MOST_BYTES};
use std::alloc::{AllocError, Global};

/// A text that stands in place of a file.
#[derive(Clone, Copy)]
pub struct Put<'a> {
    /// The file's name.
    pub name: &'a str,
    /// The text.
    pub text: &'a [u8],
}

/// The files of a folder, with a text in place of one of them, if one is put.
#[derive(Drop)]
pub struct FolderFiles<'a, F> {
    /// Where the folder lies.
    pub files: F,
    /// The folder.
    pub folder: &'a str,
    /// The text that is put.
    pub put: Option<Put<'a>>,
}

impl<'a, F: Files> FolderFiles<'a, F> {
    /// The files of a folder as they are.
    pub fn of(files: F, folder: &'a str) -> FolderFiles<'a, F> {
        FolderFiles {
            files,
            folder,
            put: None,
        }
    }

    /// The bytes of a file of the folder.
    fn read_inside(&mut self, alloc: Global, name: &str) -> Result<Vec<u8>, FileFault>
        ensures limit { IfOk result (λ bytes. vec_len bytes ≤ 16777216) }
    {
        match format!(in alloc; "{}/{name}", self.folder) {
            Ok(path) => self.files.read(alloc, path.as_str()),
            Err(_) => Err(FileFault::Memory),
        }
    }
}

impl<'a, F: Files> Files for FolderFiles<'a, F> {
    fn read(&mut self, alloc: Global, name: &str) -> Result<Vec<u8>, FileFault> {
        let put = self.put;
        match put {
            None => self.read_inside(alloc, name),
            Some(put) => {
                if put.name == name {
                    return copy_of(alloc, put.text);
                }
                self.read_inside(alloc, name)
            }
        }
    }
}

/// A copy of a text, as a file's bytes.
fn copy_of(alloc: Global, text: &[u8]) -> Result<Vec<u8>, FileFault>
    ensures { IfOk result (λ bytes. vec_len bytes ≤ 16777216) }
{
    if text.len() as u64 > MOST_BYTES {
        return Err(FileFault::Unreadable);
    }
    match text.to_vec(alloc) {
        Ok(bytes) => Ok(bytes),
        Err(_) => Err(FileFault::Memory),
    }
}
