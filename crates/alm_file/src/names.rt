//! What writes the names of a file to the disk.

use crate::disk_cache::has_no_sync;
use crate::file_fault::FileFault;
use std::fs::{self, File, Files};
use std::io::{self, ErrorKind};
use std::path::{Path, PathBuf};

/// How many symbolic links Linux follows in a path.
const MOST_LINKS: usize = 40;

/// Waits until a folder is on the disk. One that may not be read is passed over, unless it `has_file`, the file's own name.
fn sync_folder<R: Files<File = File>>(
    rt: &R,
    folder: &str,
    has_file: bool,
) -> Result<(), FileFault> {
    let opened = match File::open(rt, folder) {
        Err(error) if !has_file && error.kind() == ErrorKind::PermissionDenied => return Ok(()),
        opened => opened?,
    };
    sync_opened(&opened)
}

/// Waits until a folder that was opened is on the disk.
fn sync_opened(folder: &File) -> Result<(), FileFault> {
    match folder.sync_all() {
        Err(error) if has_no_sync(&error) => Ok(()),
        answer => answer.map_err(FileFault::Sync),
    }
}

/// Gives a file the name of another one in its folder, and waits until that is on the disk. A power failure leaves one of the two
/// files at that name. Only after a failed sync of the folder the file has the name already.
pub fn rename_within<R: Files<File = File>>(
    rt: &R,
    folder: &str,
    from: &str,
    to: &str,
) -> Result<(), FileFault> {
    let opened = File::open(rt, folder)?;
    rt.rename(from, to)?;
    sync_opened(&opened)
}

/// The path after a symbolic link was followed: what it leads to, and the names that stand after it.
fn follow<R: Files<File = File> + AllocGlobal>(
    rt: &R,
    link: &Path<'_>,
    folder: &Path<'_>,
    path: &Path<'_>,
) -> Result<PathBuf, FileFault> {
    let alloc = rt.alloc();
    let target = rt.read_link(alloc, link.as_str())?;
    let mut followed = folder
        .join(alloc, target.as_path())
        .map_err(io::Error::from)?;
    if let Ok(rest) = path.strip_prefix(link) {
        if !rest.as_str().is_empty() {
            followed.push(rest).map_err(io::Error::from)?;
        }
    }
    Ok(followed)
}

/// Waits until the folder of each name in a path is on the disk, up to the first that is a symbolic link. Returns the path
/// after that link was followed, if there is one.
fn sync_up_to_link<R: Files<File = File> + AllocGlobal>(
    rt: &R,
    path: &Path<'_>,
) -> Result<Option<PathBuf>, FileFault> {
    let alloc = rt.alloc();
    let last = path.components().count();
    let mut folder = PathBuf::new(alloc);
    for (before, name) in path.components().enumerate() {
        let mut named = folder
            .as_path()
            .to_path_buf(alloc)
            .map_err(io::Error::from)?;
        named.push(name.as_os_str()).map_err(io::Error::from)?;
        if before > 0 || !path.is_absolute() {
            let at = if before > 0 { folder.as_str() } else { "." };
            sync_folder(rt, at, before + 1 == last)?;
        }
        if fs::symlink_metadata(rt, named.as_str())?.is_symlink() {
            return follow(rt, &named.as_path(), &folder.as_path(), path).map(Some);
        }
        folder = named;
    }
    Ok(None)
}

/// Waits until a file is on the disk, with each name that its path goes through: a new or a changed name reaches the disk only with
/// its folder. A symbolic link is such a name, and so are those of the path that it leads to.
pub fn sync_with_names<R: Files<File = File> + AllocGlobal>(
    rt: &R,
    file: &File,
    path: &str,
) -> Result<(), FileFault> {
    file.sync_all().map_err(FileFault::Sync)?;
    let alloc = rt.alloc();
    let mut at = Path::new(path).to_path_buf(alloc).map_err(io::Error::from)?;
    for _ in 0..=MOST_LINKS {
        match sync_up_to_link(rt, &at.as_path())? {
            Some(followed) => at = followed,
            None => break,
        }
    }
    if at.as_path().is_absolute() {
        return Ok(());
    }
    let whole = rt.canonicalize(alloc, path)?;
    sync_up_to_link(rt, &whole.as_path())?;
    Ok(())
}
