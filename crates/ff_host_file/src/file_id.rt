//! The identity of a plain file, whatever its name.
use std::alloc::AllocError;
use std::fs::Metadata;
use std::os::unix::fs::MetadataExt;

/// A plain file: its device, and its number there.
#[derive(Clone, Copy, Debug, PartialEq, Eq)]
pub struct FileId {
    device: u64,
    number: u64,
}

/// Which plain file this is. Of a terminal, a pipe or a device there is none: it may be read and written at once.
pub fn id_of(about: &Metadata) -> Option<FileId> {
    if !about.is_file() {
        return None;
    }
    Some(FileId {
        device: about.dev(),
        number: about.ino(),
    })
}

/// Whether a file is one of these.
pub fn is_among(id: Option<FileId>, files: &[FileId]) -> bool {
    match id {
        Some(id) => files.contains(&id),
        None => false,
    }
}

/// Notes a file in a list.
pub fn note(files: &mut Vec<FileId>, id: Option<FileId>) -> Result<(), AllocError> {
    if let Some(id) = id {
        files.push(id)?;
    }
    Ok(())
}

/// Takes a file out of a list, once.
pub fn let_go(files: &mut Vec<FileId>, id: Option<FileId>) {
    let Some(id) = id else {
        return;
    };
    if let Some(place) = files.iter().position(|file| *file == id) {
        files.swap_remove(place);
    }
}
