// Whether two records are equal.
ghost use Rattle.std.specs.Prelude.{◌≡◌};
ghost use Rattle.ev_model.specs.Look.{look_of};
ghost use Rattle.ev_damage.specs.Same.{same_area, same_colour, same_op, same_fill, same_border, same_image, same_text, same_content, same_look};

use ev_argb::Pixel;
use ev_geom::Rect;
use ev_model::{Border, Content, Fill, ImagePart, Op, Record, TextPart};

/// Whether two records show the same: the area, the rectangle, the operation, the colour and the
/// content (docs/CANVAS.md, Damage). Of which objects they are doesn't count.
pub fn same_look(one: &Record, other: &Record) -> bool
    ensures { result ≡ same_look (look_of one.now) (look_of other.now) }
{
    let a = one.object.get();
    let b = other.object.get();
    same_area(&one.area, &other.area)
        && same_area(&a.rect, &b.rect)
        && same_op(a.op, b.op)
        && same_colour(one.color, other.color)
        && same_content(&a.content, &b.content)
}

fn same_area(one: &Rect, other: &Rect) -> bool
    ensures { result ≡ same_area one.now other.now }
{
    one == other
}

fn same_colour(one: Pixel, other: Pixel) -> bool
    ensures { result ≡ same_colour one other }
{
    one == other
}

fn same_op(one: Op, other: Op) -> bool
    ensures { result ≡ same_op one other }
{
    matches!((one, other), (Op::Blend, Op::Blend) | (Op::Copy, Op::Copy))
}

fn same_content(one: &Content, other: &Content) -> bool
    ensures { result ≡ same_content one.now other.now }
{
    match (one, other) {
        (Content::Image(p), Content::Image(q)) => same_image(p, q),
        (Content::Text(p), Content::Text(q)) => same_text(p, q),
        (Content::Rect, Content::Rect) | (Content::Smart, Content::Smart) => true,
        _ => false,
    }
}

// Loaded pixels count by the number of their load, and the key does not count.
fn same_image(one: &ImagePart, other: &ImagePart) -> bool
    ensures { result ≡ same_image one.now other.now }
{
    let image = one.loaded.as_ref().map(|loaded| loaded.number());
    let other_image = other.loaded.as_ref().map(|loaded| loaded.number());
    image == other_image
        && same_fill(one.fill, other.fill)
        && same_border(one.border, other.border)
        && one.center == other.center
}

fn same_fill(one: Fill, other: Fill) -> bool
    ensures { result ≡ same_fill one other }
{
    one == other
}

fn same_border(one: Border, other: Border) -> bool
    ensures { result ≡ same_border one other }
{
    one == other
}

// A loaded font counts by the number of its load, and the key does not count.
fn same_text(one: &TextPart, other: &TextPart) -> bool
    ensures { result ≡ same_text one.now other.now }
{
    let font = one.loaded.as_ref().map(|loaded| loaded.number());
    let other_font = other.loaded.as_ref().map(|loaded| loaded.number());
    font == other_font && one.text.bytes() == other.text.bytes()
}
