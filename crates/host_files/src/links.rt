//! Links, which are followed also where they lead to a file that does not exist yet.
use std::alloc::Global;
use std::io::{self, ErrorKind};
use std::path::{Path, PathBuf};

// The system follows as many links one after the other.
const MOST_LINKS: u32 = 40;

/// Returns the path of the file that a path leads to, whether the file exists or not.
pub fn real_path(files: &HostRuntime, path: &str) -> io::Result<PathBuf<Global>> {
    let mut at = Path::new(path).to_path_buf(files.alloc())?;
    for _ in 0..MOST_LINKS {
        let Ok(target) = at.read_link(files) else {
            return Ok(at);
        };
        let next = match at.parent() {
            Some(folder) => folder.join(files.alloc(), target.as_path())?,
            None => target,
        };
        at = next;
    }
    Err(io::Error::from(ErrorKind::NotFound))
}
