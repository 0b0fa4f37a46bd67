//! Paths with every link resolved, below a root.
ghost use Rattle.std.specs.Prelude.{◌↔◌, ◌≢◌, All, IsTrue, codes};
ghost use Rattle.std.specs.Path.{PathStartsWith, path_buf_bytes, path_components};

use std::os::fd::AsRawFd;
use std::path::PathBuf;
use std::{fs, io};

/// A path with every link resolved, which begins with that of a root and has no `..`. So it names
/// something in the root, or the root. Files are opened only at such paths.
#[derive(Drop)]
pub struct InnerPath<'a> {
    root: &'a str,
    path: PathBuf,
    ghost is_inside: { ∥ PathStartsWith (path_buf_bytes path) root.now ∥₁ },
    ghost goes_down: { All (λ part. part ≢ codes "..") (path_components (path_buf_bytes path)) },
}

// Whether a path with every link resolved is in a root.
fn is_within(root: &str, path: &PathBuf) -> bool
    ensures inside { IsTrue result → ∥ PathStartsWith (path_buf_bytes path.now) root.now ∥₁ }
    ensures down { IsTrue result → All (λ part. part ≢ codes "..") (path_components (path_buf_bytes path.now)) }
{
    path.starts_with(root) && has_no_way_up(path)
}

// Whether no component of a path is `..`.
fn has_no_way_up(path: &PathBuf) -> bool
    ensures { IsTrue result ↔ All (λ part. part ≢ codes "..") (path_components (path_buf_bytes path.now)) }
{
    path.components().all(|part| part.as_os_str() != "..")
}

impl<'a> InnerPath<'a> {
    /// Resolves the links of a path. `None` if it leads out of the root, or if the resolved path has a `..`.
    pub fn resolve(
        rt: &HostRuntime,
        root: &'a str,
        path: &str,
    ) -> io::Result<Option<InnerPath<'a>>> {
        let path = fs::canonicalize(rt, path)?;
        if is_within(root, &path) {
            Ok(Some(InnerPath { root, path }))
        } else {
            Ok(None)
        }
    }

    /// Returns the resolved path as text.
    pub fn as_str(&self) -> &str {
        self.path.as_str()
    }

    /// What the system says of it.
    pub fn metadata(&self, rt: &HostRuntime) -> io::Result<fs::Metadata> {
        fs::metadata(rt, self.path.as_str())
    }

    /// Opens the file or the folder that is there, to be read. `None` if what was opened isn't in the
    /// root, as if a link took the place of a folder after the path was resolved.
    pub fn open(&self, rt: &HostRuntime) -> io::Result<Option<fs::File>> {
        let file = fs::File::open(rt, self.path.as_str())?;
        let path = fs::read_link(rt, link_of(rt, &file)?.as_str())?;
        Ok(is_within(self.root, &path).then_some(file))
    }
}

// What the system resolves to an open file or folder, and tells its path by.
fn link_of(rt: &HostRuntime, file: &fs::File) -> io::Result<String> {
    Ok(format!(in rt.alloc(); "/proc/self/fd/{}", file.as_raw_fd())?)
}

/// What a folder that is open has, wherever its path leads by now. The paths of its entries lead to them
/// as long as it is open.
pub fn read_dir(rt: &HostRuntime, folder: &fs::File) -> io::Result<fs::ReadDir> {
    fs::read_dir(rt, link_of(rt, folder)?.as_str())
}
