// Changes of what an image object shows, and how.
ghost use Rattle.std.specs.Prelude.{◌≡◌, ◌≤◌, ◌&&◌, true, pos, Some, None, IfSome, unsigned_abs, if◌then◌else◌};
ghost use Rattle.ev_geom.specs.Area.{is_place};
ghost use Rattle.ev_model.specs.Limits.{IsFill, IsBorder};
ghost use Rattle.ev_scene.specs.Change.{is_between, change_image_part, change_image, is_fill, fill_of, is_border, border_of, IsImageChange, IsLook};

use crate::change::{Change, is_between};
use ev_geom::is_place;
use ev_model::{Border, Content, Fill, ImagePart, LoadedImage, Name};

// A change of the image that an object shows, or of how that is done. Its numbers are in range.
#[derive(Drop)]
pub enum ImageChange {
    Fill(Fill),
    Border(Border),
    Center(bool),
    File(Name),
    Load(LoadedImage),
}

// Changes what a content shows, if it is that of an image object.
pub fn change_image(change: ImageChange, content: &mut Content)
    ensures { content.new ≡ change_image change content.old }
{
    match content {
        Content::Image(part) => change_image_part(change, part),
        _ => {}
    }
}

fn change_image_part(change: ImageChange, part: &mut ImagePart)
    ensures { part.new ≡ change_image_part change part.old }
{
    match change {
        ImageChange::Fill(fill) => part.fill = fill,
        ImageChange::Border(border) => part.border = border,
        ImageChange::Center(on) => part.center = on,
        ImageChange::File(key) => {
            part.key = Some(key);
            part.loaded = None;
        }
        ImageChange::Load(loaded) => part.loaded = Some(loaded),
    }
}

// A change of the area in which an image repeats, where its numbers are in range.
#[tactic(auto, unfolding(crate::specs::Change::is_fill))]
pub fn fill(x: i64, y: i64, w: i64, h: i64) -> Option<Change>
    ensures value { result
        ≡ (if is_fill x y w h then Some (Change.Image (ImageChange.Fill (fill_of x y w h)))
        else None) }
    ensures fit { IfSome result IsLook }
{
    if is_place(x) && is_place(y) && is_extent(w) && is_extent(h) {
        Some(Change::Image(ImageChange::Fill(fill_of(x, y, w, h))))
    } else {
        None
    }
}

fn is_extent(n: i64) -> bool
    ensures { result ≡ is_between (pos 1) (pos 1000000) n }
{
    is_between(1, 1_000_000, n)
}

fn fill_of(x: i64, y: i64, w: i64, h: i64) -> Fill
    requires left { is_place x ≡ true }
    requires top { is_place y ≡ true }
    requires width { is_between (pos 1) (pos 1000000) w ≡ true }
    requires height { is_between (pos 1) (pos 1000000) h ≡ true }
    ensures value { result ≡ fill_of x y w h }
    ensures fits { IsFill result }
{
    Fill::Area {
        x: x as i32,
        y: y as i32,
        w: w as u32,
        h: h as u32,
    }
}

// A change of the borders, where their numbers are in range.
#[tactic(auto, unfolding(crate::specs::Change::is_border))]
pub fn border(l: i64, r: i64, t: i64, b: i64) -> Option<Change>
    ensures value { result
        ≡ (if is_border l r t b then Some (Change.Image (ImageChange.Border (border_of l r t b)))
        else None) }
    ensures fit { IfSome result IsLook }
{
    if is_margin(l) && is_margin(r) && is_margin(t) && is_margin(b) {
        Some(Change::Image(ImageChange::Border(border_of(l, r, t, b))))
    } else {
        None
    }
}

fn is_margin(n: i64) -> bool
    ensures { result ≡ is_between (pos 0) (pos 4096) n }
{
    is_between(0, 4096, n)
}

fn border_of(l: i64, r: i64, t: i64, b: i64) -> Border
    requires left { is_between (pos 0) (pos 4096) l ≡ true }
    requires right { is_between (pos 0) (pos 4096) r ≡ true }
    requires top { is_between (pos 0) (pos 4096) t ≡ true }
    requires bottom { is_between (pos 0) (pos 4096) b ≡ true }
    ensures value { result ≡ border_of l r t b }
    ensures fits { IsBorder result }
{
    Border {
        l: margin(l),
        r: margin(r),
        t: margin(t),
        b: margin(b),
    }
}

fn margin(n: i64) -> u32
    requires { is_between (pos 0) (pos 4096) n ≡ true }
    ensures value { result ≡ unsigned_abs n }
    ensures fits { result ≤ 4096 }
{
    n as u32
}
