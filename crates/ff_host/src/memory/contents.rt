//! Files in memory, by name.
ghost use Rattle.std.specs.Prelude.{◌≡◌, ℕ, List, [], Option, Some, IfOk, OnOk, OnErr, IsSome};
ghost use Rattle.std.specs.BTreeMap.{get_by_text};
ghost use Rattle.std.specs.Option.{option_map};
ghost use Rattle.ff_host.specs.laws.memory.Contents.{file_at};
ghost use Rattle.ff_host.specs.Files.{KeepsFiles, PutsFile, bytes_at};
ghost use Rattle.ff_host.specs.laws.memory.Given.{given};

use std::alloc::{AllocError, Global};
use std::collections::BTreeMap;

/// The bytes of each file by its name.
pub(crate) type Contents = BTreeMap<String, Vec<u8>>;

/// A map of these files.
pub(crate) fn contents_of(
    alloc: Global,
    mut files: Vec<(String, Vec<u8>)>,
) -> Result<Contents, AllocError>
    ensures { IfOk result (λ map. (name : List ℕ) → file_at map name ≡ given files.items name) }
{
    let mut map = BTreeMap::new(alloc);
    'files: while let Some((name, bytes)) = files.pop() {
        map.insert(name, bytes)?;
    }
    Ok(map)
}

/// The bytes of a file, or None where the name is not there.
pub(crate) fn bytes_under<'a>(contents: &'a Contents, name: &str) -> Option<&'a [u8]>
    ensures { option_map (λ bytes. bytes.now) result ≡ file_at contents.now name.now }
{
    match contents.get(name) {
        Some(bytes) => Some(bytes.as_slice()),
        None => None,
    }
}

/// The bytes under a name, or none where it is not there.
pub(crate) fn copy_under(
    alloc: Global,
    contents: &Contents,
    name: &str,
) -> Result<Vec<u8>, AllocError>
    ensures { IfOk result (λ bytes. bytes.items ≡ bytes_at (file_at contents.now) name.now) }
{
    match contents.get(name) {
        Some(bytes) => bytes.to_vec(alloc),
        None => Ok(Vec::new(alloc)),
    }
}

/// Makes room for the bytes of a file, and makes it empty.
pub(crate) fn make_empty(
    contents: &mut Contents,
    alloc: Global,
    name: &str,
) -> Result<(), AllocError>
    ensures ok { OnOk result (PutsFile (Some (file_at contents.old)) (Some (file_at contents.new)) name.now (Some [])) }
    ensures err { OnErr result (KeepsFiles (Some (file_at contents.old)) (Some (file_at contents.new))) }
{
    let key = String::from_str(alloc, name)?;
    contents.insert(key, Vec::new(alloc))?;
    Ok(())
}

/// Puts these bytes in the place of those of a file that is there.
pub(crate) fn put_bytes(contents: &mut Contents, name: &str, bytes: Vec<u8>)
    requires { IsSome (get_by_text contents.old name.now) }
    ensures { PutsFile (Some (file_at contents.old)) (Some (file_at contents.new)) name.now (Some bytes.items) }
{
    if let Some(place) = contents.get_mut(name) {
        *place = bytes;
    }
}
