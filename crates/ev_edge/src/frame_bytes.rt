// The bytes of a frame's file.
ghost use Rattle.std.specs.Prelude.{◌≡◌, ◌+◌, ◌*◌, ◌≤◌, ◌++◌, length, vec_len, vec_capacity};
ghost use Rattle.std.specs.List.{flat_map};
ghost use Rattle.ev_argb.specs.Grid.{IsWhole};
ghost use Rattle.ev_image.specs.Format.{channels};
ghost use Rattle.ev_edge.specs.Folder.{frame_bytes};
ghost use Rattle.ev_port.specs.Frame.{pixels_of};

use crate::NoMemory;
use ev_argb::{MAX_SIDE, Picture, Pixel};
use ev_image::channels;
use ev_port::append;
use std::alloc::Global;
use std::marker::Model;

// The longest row, in pixels.
const ROW: usize = MAX_SIDE as usize;

// How many bytes stand before the pixels.
const HEAD: usize = 12;

// The most bytes of a frame.
const MOST: usize = HEAD + 4 * ROW * ROW;

// Room for the bytes of the largest frame, and those of the frame that was laid out last.
#[derive(Drop)]
pub struct FrameBytes {
    bytes: Vec<u8>,
}

impl Model for FrameBytes {
    ghost use Rattle.std.specs.Prelude.{ℕ, List, ◌≤◌, vec_capacity};

    ghost Value = { List ℕ };

    ghost view = { λ f. f.bytes.items };

    ghost invariant = { λ f. 67108876 ≤ vec_capacity f.bytes };
}

impl FrameBytes {
    // No bytes yet, and all the room that is ever needed.
    pub fn new(alloc: Global) -> Result<FrameBytes, NoMemory> {
        Ok(FrameBytes {
            bytes: Vec::with_capacity(alloc, MOST)?,
        })
    }

    // Lays out the bytes of this picture.
    pub fn lay(&mut self, picture: &Picture)
        requires { IsWhole picture.now }
        ensures { self.new ≡ frame_bytes picture.now }
    {
        self.bytes.clear();
        append(&mut self.bytes, b"EVI1");
        append(&mut self.bytes, &picture.width().to_le_bytes());
        append(&mut self.bytes, &picture.height().to_le_bytes());
        append_rows(&mut self.bytes, picture);
    }

    // The bytes that were laid out last.
    pub fn as_slice(&self) -> &[u8]
        ensures { result.now ≡ self.now }
    {
        &self.bytes
    }
}

// Appends the bytes of a picture's pixels, row by row from the top, where there is room for them.
fn append_rows(bytes: &mut Vec<u8>, picture: &Picture)
    requires whole { IsWhole picture.now }
    requires room { vec_len bytes.old + 4 * (picture.now.w * picture.now.h) ≤ vec_capacity bytes.old }
    ensures items { bytes.new.items ≡ bytes.old.items ++ flat_map channels (pixels_of picture.now) }
    ensures capacity { vec_capacity bytes.old ≤ vec_capacity bytes.new }
{
    let mut row = [Pixel::CLEAR; ROW];
    let mut spelled = [0; 4 * ROW];
    let width = picture.width() as usize;
    for y in 0..picture.height() {
        picture.row(y, &mut row[..width]);
        spell(&row[..width], &mut spelled[..4 * width]);
        append(bytes, &spelled[..4 * width]);
    }
}

// Writes the bytes of the pixels, four for each.
fn spell(pixels: &[Pixel], into: &mut [u8])
    requires { length into.old ≡ 4 * length pixels.now }
    ensures { into.new ≡ flat_map channels pixels.now }
{
    for i in 0..pixels.len() {
        into[4 * i..4 * i + 4].copy_from_slice(&channels(pixels[i]));
    }
}
