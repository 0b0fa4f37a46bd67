//! The names in a folder of the system.

use crate::place::{InnerPath, read_dir};
use std::fs::{DirEntry, Metadata};
use std::io;
use std::io::ErrorKind;

// What a name leads to, with every link resolved. `None` if a link leads out of the root or to nothing,
// or if it may not be followed.
fn resolved(rt: &HostRuntime, root: &str, entry: &DirEntry) -> io::Result<Option<Metadata>> {
    let metadata = entry.metadata()?;
    if !metadata.is_symlink() {
        return Ok(Some(metadata));
    }
    match InnerPath::resolve(rt, root, entry.path().as_str()) {
        Ok(Some(place)) => Ok(Some(place.metadata(rt)?)),
        Ok(None) => Ok(None),
        Err(error) => match error.kind() {
            ErrorKind::NotFound
            | ErrorKind::NotADirectory
            | ErrorKind::PermissionDenied
            | ErrorKind::FilesystemLoop => Ok(None),
            _ => Err(error),
        },
    }
}

// The name as a listing has it. `None` if it leads to neither a file nor a folder of the root.
fn name_of(rt: &HostRuntime, root: &str, entry: &DirEntry) -> io::Result<Option<String>> {
    let Some(metadata) = resolved(rt, root, entry)? else {
        return Ok(None);
    };
    let name = entry.file_name();
    if metadata.is_dir() {
        return Ok(Some(format!(in rt.alloc(); "{name}/")?));
    }
    if metadata.is_file() {
        return Ok(Some(String::from_str(rt.alloc(), name)?));
    }
    Ok(None)
}

/// Reads the names of the files and the folders in a folder below a root. That of a folder gets a slash at
/// its end. `None` if the folder isn't there. A name that isn't UTF-8 is left out: no path of a URI can
/// name it.
pub fn names_in(rt: &HostRuntime, root: &str, path: &str) -> io::Result<Option<Vec<String>>> {
    let Some(place) = InnerPath::resolve(rt, root, path)? else {
        return Ok(None);
    };
    if !place.metadata(rt)?.is_dir() {
        return Ok(None);
    }
    let Some(folder) = place.open(rt)? else {
        return Ok(None);
    };
    let mut names = Vec::new(rt.alloc());
    for entry in read_dir(rt, &folder)? {
        let entry = match entry {
            Ok(entry) => entry,
            Err(error) if error.kind() == ErrorKind::InvalidFilename => continue,
            Err(error) => return Err(error),
        };
        match name_of(rt, root, &entry) {
            Ok(Some(name)) => names.push(name)?,
            Ok(None) => {}
            // It was removed meanwhile.
            Err(error) if error.kind() == ErrorKind::NotFound => {}
            Err(error) => return Err(error),
        }
    }
    Ok(Some(names))
}
