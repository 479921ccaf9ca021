// Changes of one object, and new objects.
ghost use Rattle.std.specs.Prelude.{◌≡◌, ◌&&◌, true, Some, None, IfSome, IfOk, unsigned_abs, if◌then◌else◌};
ghost use Rattle.ev_geom.specs.Area.{is_place, is_side};
ghost use Rattle.ev_model.specs.declared.content.Content.TheVariants as content;
ghost use Rattle.ev_model.specs.declared.content.Kind.TheVariants as kind;
ghost use Rattle.ev_scene.specs.Change.{apply, is_between, is_layer, is_channel, are_channels, color_of, fresh, content_of, IsFit, IsLook};
ghost use Rattle.ev_scene.specs.Edits.{is_target};

use crate::NoMemory;
use crate::image_change::{ImageChange, change_image};
use crate::text_change::{TextChange, change_text};
use ev_argb::Pixel;
use ev_geom::{Rect, is_place, is_side};
use ev_model::{Border, Content, Fill, ImagePart, Kind, Name, Object, Op, TextPart, Words};
use std::alloc::Global;

// A change of one object. Its numbers are in range.
#[derive(Drop)]
pub enum Change {
    Move { x: i64, y: i64 },
    Resize { w: i64, h: i64 },
    Show(bool),
    Color(Pixel),
    Op(Op),
    Image(ImageChange),
    Text(TextChange),
    Layer(i64),
    Clip(Option<u64>),
    Parent(Option<u64>),
}

// The objects that a change is for.
#[derive(Clone, Copy)]
pub enum Target {
    Any,
    Painted,
    Image,
    Text,
}

impl Target {
    // Whether an object is one of them.
    pub fn has(self, object: &Object) -> bool
        ensures { result ≡ is_target self object.now }
    {
        match self {
            Target::Any => true,
            Target::Painted => !object.is_smart(),
            Target::Image => matches!(object.content, Content::Image(_)),
            Target::Text => matches!(object.content, Content::Text(_)),
        }
    }
}

// Changes an object.
pub fn apply(change: Change, object: &mut Object)
    requires { IsFit change }
    ensures { object.new ≡ apply change object.old }
{
    match change {
        Change::Move { x, y } => object.rect = object.rect.placed(x, y),
        Change::Resize { w, h } => object.rect = object.rect.sized(w, h),
        Change::Show(on) => object.shown = on,
        Change::Color(color) => object.color = color,
        Change::Op(op) => object.op = op,
        Change::Image(change) => change_image(change, &mut object.content),
        Change::Text(change) => change_text(change, &mut object.content),
        Change::Layer(layer) => object.layer = layer as i32,
        Change::Clip(clipper) => object.clipper = clipper,
        Change::Parent(parent) => object.parent = parent,
    }
}

// A change of place, where both numbers are places.
pub fn move_to(x: i64, y: i64) -> Option<Change>
    ensures value { result ≡ (if is_place x && is_place y then Some (Change.Move x y) else None) }
    ensures fit { IfSome result IsLook }
{
    if is_place(x) && is_place(y) {
        Some(Change::Move { x, y })
    } else {
        None
    }
}

// A change of size, where both numbers are sides.
pub fn resize(w: i64, h: i64) -> Option<Change>
    ensures value { result ≡ (if is_side w && is_side h then Some (Change.Resize w h) else None) }
    ensures fit { IfSome result IsLook }
{
    if is_side(w) && is_side(h) {
        Some(Change::Resize { w, h })
    } else {
        None
    }
}

// A change of colour, where all four numbers are channels.
#[tactic(auto, unfolding(crate::specs::Change::are_channels))]
pub fn color(r: i64, g: i64, b: i64, a: i64) -> Option<Change>
    ensures value { result
        ≡ (if are_channels r g b a then Some (Change.Color (color_of r g b a)) else None) }
    ensures fit { IfSome result IsLook }
{
    if is_channel(r) && is_channel(g) && is_channel(b) && is_channel(a) {
        Some(Change::Color(color_of(r, g, b, a)))
    } else {
        None
    }
}

fn is_channel(n: i64) -> bool
    ensures { result ≡ is_channel n }
{
    is_between(0, 255, n)
}

#[tactic(auto, unfolding(crate::specs::Change::color_of))]
fn color_of(r: i64, g: i64, b: i64, a: i64) -> Pixel
    requires red { is_channel r ≡ true }
    requires green { is_channel g ≡ true }
    requires blue { is_channel b ≡ true }
    requires alpha { is_channel a ≡ true }
    ensures { result ≡ color_of r g b a }
{
    Pixel::new(channel(a), channel(r), channel(g), channel(b))
}

fn channel(n: i64) -> u8
    requires { is_channel n ≡ true }
    ensures { result ≡ unsigned_abs n }
{
    n as u8
}

// Whether a number is from low to high.
pub fn is_between(low: i64, high: i64, n: i64) -> bool
    ensures { result ≡ is_between low high n }
{
    low <= n && n <= high
}

// Whether a number is a layer.
pub fn is_layer(n: i64) -> bool
    ensures { result ≡ is_layer n }
{
    is_between(-32_768, 32_767, n)
}

// A new object. `NoMemory` stands for a text without room.
pub fn fresh(alloc: Global, id: u64, name: Name, kind: Kind) -> Result<Object, NoMemory>
    ensures { IfOk result (λ o. o ≡ fresh id name kind) }
{
    let content = content_of(alloc, kind)?;
    Ok(Object {
        id,
        name,
        rect: Rect::NOWHERE,
        shown: false,
        color: Pixel::new(255, 255, 255, 255),
        op: Op::Blend,
        layer: 0,
        clipper: None,
        parent: None,
        content,
    })
}

// The content of a new object.
fn content_of(alloc: Global, kind: Kind) -> Result<Content, NoMemory>
    ensures { IfOk result (λ content. content ≡ content_of kind) }
{
    match kind {
        Kind::Rect => Ok(Content::Rect),
        Kind::Smart => Ok(Content::Smart),
        Kind::Image => Ok(Content::Image(new_image())),
        Kind::Text => Ok(Content::Text(new_text(alloc)?)),
    }
}

// An image that fills its object, without a file.
fn new_image() -> ImagePart
    ensures { content.Image result ≡ content_of kind.Image }
{
    ImagePart {
        key: None,
        loaded: None,
        fill: Fill::Filled,
        border: Border {
            l: 0,
            r: 0,
            t: 0,
            b: 0,
        },
        center: true,
    }
}

// An empty text without a font.
fn new_text(alloc: Global) -> Result<TextPart, NoMemory>
    ensures { IfOk result (λ part. content.Text part ≡ content_of kind.Text) }
{
    let text = Words::new(alloc, b"")?;
    Ok(TextPart {
        key: None,
        loaded: None,
        text,
    })
}
