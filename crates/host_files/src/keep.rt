//! The campaign file, as a disk.
ghost use Rattle.std.specs.Prelude.{[]};
ghost use Rattle.fs_outside.specs.Faults.{Rises};
ghost use Rattle.fs_outside.specs.Past.{Made};

use crate::campaign_file::CampaignFile;
use crate::progress::Progress;
use fs_outside::{Disk, Failed, rise};

/// A campaign file to be read, or to be appended to. The first call opens it. A missing file is empty.
#[derive(Drop)]
pub struct KeepFile<'a> {
    file: CampaignFile<'a>,
    // Receives the number of rows kept.
    progress: Option<&'a Progress<'a>>,
    faults: u64,
}

impl<'a> KeepFile<'a> {
    /// Returns the file at a path, to be read. Its writes and syncs fail.
    pub fn to_read(files: &'a HostRuntime, path: &'a str) -> KeepFile<'a> {
        KeepFile::of(CampaignFile::to_read(files, path))
    }

    /// Returns the file at a path, to be appended to; the image is at another path. The first call is a sync.
    pub fn to_append(files: &'a HostRuntime, path: &'a str, image: &'a str) -> KeepFile<'a> {
        KeepFile::of(CampaignFile::to_append(files, path, image))
    }

    fn of(file: CampaignFile<'a>) -> KeepFile<'a> {
        KeepFile {
            file,
            progress: None,
            faults: 0,
        }
    }

    /// Returns the file, with its rows counted by a progress line.
    pub fn watched_by(self, progress: &'a Progress<'a>) -> KeepFile<'a> {
        KeepFile {
            progress: Some(progress),
            ..self
        }
    }

    // Counts a system call that failed.
    fn fail(&mut self) -> Failed
        ensures risen { Rises self.old.faults self.new.faults }
    {
        self.faults = rise(self.faults);
        Failed
    }
}

impl Disk for KeepFile<'_> {
    ghost tells = { ⊥ };

    ghost past = { λ disk. Made [] };

    ghost given = { λ disk. 0 };

    ghost faults = { λ disk. disk.faults };

    ghost reads_image = { λ disk told. absurd told };

    fn len(&mut self) -> Result<u64, Failed> {
        match self.file.len() {
            Ok(len) => Ok(len),
            Err(_) => Err(self.fail()),
        }
    }

    fn read_at(&mut self, at: u64, buf: &mut [u8]) -> Result<usize, Failed> {
        match self.file.read_at(at, buf) {
            Ok(count) if count <= buf.len() => Ok(count),
            _ => Err(self.fail()),
        }
    }

    fn write_at(&mut self, at: u64, bytes: &[u8]) -> Result<(), Failed> {
        match self.file.write_at(at, bytes) {
            Ok(()) => Ok(()),
            Err(_) => Err(self.fail()),
        }
    }

    fn sync(&mut self) -> Result<(), Failed> {
        match self.file.sync() {
            Ok(()) => {
                if let Some(progress) = self.progress {
                    progress.tell_added(self.file.added());
                }
                Ok(())
            }
            Err(_) => Err(self.fail()),
        }
    }
}
