// A screen that writes each frame to a file of a folder.
ghost use Rattle.std.specs.Prelude.{◌≡◌, [], ◌∷◌, is_err, if◌then◌else◌, IfOk, OnOk, OnErr, None, string_bytes};
ghost use Rattle.std.specs.Io.KnownBytes.{Appends};
ghost use Rattle.ev_argb.specs.Grid.{IsWhole};
ghost use Rattle.ev_port.specs.Causes.{HasCause};
ghost use Rattle.ev_edge.specs.Folder.{frame_bytes, frame_path};
ghost use Rattle.ev_port.specs.Frame.{Frame, frame_of};
ghost use Rattle.ev_port.specs.Told.{GrowsBy, counted};

use crate::NoMemory;
use crate::frame_bytes::FrameBytes;
use ev_argb::Picture;
use ev_geom::Rect;
use ev_port::{Failed, Screen};
use std::alloc::Global;
use std::fs;
use std::io::Write;
use std::rt::Files;

/// The most bytes of a frame's path behind its folder: `/frame-`, 20 digits and `.evi`.
const NAME: usize = 31;

/// A screen that writes frame n to the file `frame-n.evi` of a folder, as an image of the format EVI1
/// (docs/FORMATS.md, "Images"). A file of that name is replaced. Each error of the system is a fault. It
/// takes all its room when it is made (docs/ARCHITECTURE.md, "The outside").
#[derive(Drop)]
pub struct FolderScreen<R: Files + Drop> {
    files: R,
    folder: String,
    path: String,
    frame: FrameBytes,
    faults: u64,
}

impl<R: Files + Drop> FolderScreen<R> {
    /// A screen over this folder, which has to be there when a frame is shown. `NoMemory`: there was no
    /// room for the bytes of the largest frame.
    pub fn new(files: R, alloc: Global, folder: String) -> Result<FolderScreen<R>, NoMemory>
        ensures folder { IfOk result (λ screen. string_bytes screen.folder ≡ string_bytes folder) }
        ensures no_faults { IfOk result (λ screen. screen.faults ≡ 0) }
    {
        let path = String::with_capacity(alloc, folder.len() + NAME)?;
        let frame = FrameBytes::new(alloc)?;
        Ok(FolderScreen {
            files,
            folder,
            path,
            frame,
            faults: 0,
        })
    }

    // Writes the bytes that were laid out last to the file of frame n.
    fn store(&mut self, n: u64) -> Result<(), Failed>
        ensures folder { self.new.folder ≡ self.old.folder }
        ensures frame { self.new.frame ≡ self.old.frame }
        ensures faults { self.new.faults ≡ self.old.faults }
    {
        spell_path(&mut self.path, &self.folder, n)?;
        let Ok(mut file) = fs::create(&self.files, self.path.as_str()) else {
            return Err(Failed);
        };
        put(&mut file, self.frame.as_slice())
    }
}

impl<R: Files + Drop> Screen for FolderScreen<R> {
    ghost shown = { λ _. None };

    ghost faults = { λ s. s.faults };

    fn present(&mut self, n: u64, _updates: &[Rect], picture: &Picture) -> Result<(), Failed>
        requires { IsWhole picture.now }
        ensures ok { OnOk result (GrowsBy None None (frame_of n _updates.now picture.now ∷ [])) }
        ensures err { OnErr result (GrowsBy {A = Frame} None None []) }
        ensures cause { HasCause self.old.faults self.new.faults result }
        ensures folder { self.new.folder ≡ self.old.folder }
        ensures laid { self.new.frame ≡ frame_bytes picture.now }
        ensures counted { self.new.faults ≡ (if is_err result then counted self.old.faults 1 else self.old.faults) }
    {
        self.frame.lay(picture);
        if self.store(n).is_err() {
            self.faults = self.faults.saturating_add(1);
            return Err(Failed);
        }
        Ok(())
    }

    fn faults(&self) -> u64 {
        self.faults
    }
}

// Makes this the path of the file of frame n.
fn spell_path(path: &mut String, folder: &str, n: u64) -> Result<(), Failed>
    ensures { OnOk result (string_bytes path.new ≡ frame_path folder.now n) }
{
    path.clear();
    if write!(path, "{folder}/frame-{n}.evi").is_err() {
        return Err(Failed);
    }
    Ok(())
}

// Writes all bytes.
fn put<W: Write>(writer: &mut W, bytes: &[u8]) -> Result<(), Failed>
    ensures { OnOk result (Appends (W.contents writer.old) (W.contents writer.new) bytes.now) }
{
    if writer.write_all(bytes).is_err() {
        return Err(Failed);
    }
    Ok(())
}
