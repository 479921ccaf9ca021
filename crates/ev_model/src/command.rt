// The lines of a script, as values.
use crate::{Kind, Name, Op};

/// A change of the scene (docs/SCRIPT.md, "Commands"). Numbers stand as they were written, in or
/// out of range. A text has at most 1,024 characters from 32 to 126.
#[derive(Drop)]
pub enum Edit<'a> {
    /// The canvas gets this size.
    Size {
        w: i64,
        h: i64,
    },
    /// A new object, on top of layer 0.
    Make {
        name: Name,
        kind: Kind,
    },
    /// The object goes, and all inside it.
    Delete {
        name: Name,
    },
    /// The object gets this place, and all inside it moves along.
    Move {
        name: Name,
        x: i64,
        y: i64,
    },
    /// The object alone gets this size.
    Resize {
        name: Name,
        w: i64,
        h: i64,
    },
    /// `show`, and `hide` with on false.
    Show {
        name: Name,
        on: bool,
    },
    /// The object gets this colour; what is above a is taken as a.
    Color {
        name: Name,
        r: i64,
        g: i64,
        b: i64,
        a: i64,
    },
    /// The object is blended or copied.
    SetOp {
        name: Name,
        op: Op,
    },
    /// The object goes to the top of this layer.
    Layer {
        name: Name,
        layer: i64,
    },
    /// `raise`, and `lower` with up false.
    Raise {
        name: Name,
        up: bool,
    },
    /// The object goes directly above the other one, or below it with above false.
    Place {
        name: Name,
        other: Name,
        above: bool,
    },
    /// The object is clipped by this one.
    Clip {
        name: Name,
        clipper: Name,
    },
    /// The object is clipped by none.
    Unclip {
        name: Name,
    },
    /// The object joins this smart object.
    Member {
        name: Name,
        smart: Name,
    },
    /// The object leaves its smart object.
    Free {
        name: Name,
    },
    /// The image object gets this file, and loses its pixels.
    File {
        name: Name,
        key: Name,
    },
    /// The text object gets the font of this file, and loses its font.
    Font {
        name: Name,
        key: Name,
    },
    /// The text object gets this text.
    Say {
        name: Name,
        text: &'a [u8],
    },
    /// The image repeats in this area.
    Fill {
        name: Name,
        x: i64,
        y: i64,
        w: i64,
        h: i64,
    },
    /// The image fills its object.
    Filled {
        name: Name,
    },
    /// The image keeps the size of these columns and rows.
    Border {
        name: Name,
        l: i64,
        r: i64,
        t: i64,
        b: i64,
    },
    /// The image shows what lies between its borders, or doesn't.
    Center {
        name: Name,
        on: bool,
    },
}

/// A line of a script that is a command (docs/SCRIPT.md, "Commands").
#[derive(Drop)]
pub enum Command<'a> {
    Edit(Edit<'a>),
    /// This rectangle of the canvas is to be drawn anew.
    Damage { x: i64, y: i64, w: i64, h: i64 },
    /// This rectangle of the canvas needn't be drawn.
    HideArea { x: i64, y: i64, w: i64, h: i64 },
    /// All of the canvas is to be drawn again.
    ClearAreas,
    /// Begins a load of the object's file.
    Preload(Name),
    /// A load of the object's file, from its beginning to its end.
    Load(Name),
    /// Cancels the object's load.
    Cancel(Name),
    /// Serves the earliest load.
    Serve,
    /// Starts a frame.
    Start,
    /// Draws up to k tiles.
    Step { k: i64 },
    /// Shows a frame that is ready, and collects what was loaded.
    Poll,
    /// Finishes the frame and all loads.
    Wait,
    /// A frame, from its start to its showing.
    Render,
    /// Prints the last picture.
    Dump,
    /// Prints the totals of the last picture.
    Sum,
    /// Prints counts.
    Stats,
}
