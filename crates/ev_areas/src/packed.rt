// Areas that take a word each.
ghost use Rattle.std.specs.Prelude.{◌≡◌, ℕ, ◌≤◌, ◌<◌, true};
ghost use Rattle.ev_areas.specs.Edges.{has_pixel_at};
ghost use Rattle.ev_areas.specs.Packed.{packed, meets, IsPacked, HaveCommon};
ghost use Rattle.ev_areas.specs.declared.edges.Edges.{Edges as Edges_};

use crate::Edges;
use std::marker::Model;

// A word has a lane of 16 bits for each edge. The far edges are counted back from the greatest one
// that finds room, so that an area meets another one where each of its lanes is below a bound.
const MOST: u64 = 8191;

const LANE: u64 = 0x1_0000;

const HALF: u64 = 0x1_0000_0000;

// In each lane the greatest edge, and one less than the mark that is left where nothing is borrowed.
const BOUNDS: u64 = 0x9ffe_9ffe_9ffe_9ffe;

/// An area of a canvas in one word, or one without pixels. Clauses see its edges.
#[derive(Clone, Copy)]
pub struct PackedArea {
    word: u64,
}

impl Model for PackedArea {
    ghost use Rattle.ev_areas.specs.Packed.{IsWord, unpacked, word_of};
    ghost use Rattle.ev_areas.specs.declared.edges.Edges.{Edges};

    ghost Value = { Edges };

    ghost view = { λ a. unpacked a.word };

    ghost invariant = { λ a. IsWord a.word };

    ghost inverse = { λ e. record { word = word_of e } };
}

impl PackedArea {
    /// An area without pixels. It meets none.
    pub const NOWHERE: PackedArea = PackedArea {
        word: MOST + LANE * MOST + HALF * (MOST + LANE * MOST),
    };

    /// The area between edges. Where no pixel lies between them it is `NOWHERE`.
    pub fn of(edges: &Edges) -> PackedArea
        requires right { edges.now.right ≤ 8191 }
        requires bottom { edges.now.bottom ≤ 8191 }
        ensures { result ≡ packed edges.now }
    {
        if edges.left < edges.right && edges.top < edges.bottom {
            let near = u64::from(edges.left) + LANE * u64::from(edges.top);
            let far = MOST - u64::from(edges.right) + LANE * (MOST - u64::from(edges.bottom));
            PackedArea {
                word: near + HALF * far,
            }
        } else {
            PackedArea::NOWHERE
        }
    }

    /// Whether the areas have a pixel in common.
    #[inline(always)]
    pub fn meets(self, other: PackedArea) -> bool
        ensures { result ≡ meets self other }
    {
        // Each lane of the difference is 0x8000 or more where the area's is below the bound.
        let rest = BOUNDS - (other.word / HALF + other.word % HALF * HALF) - self.word;
        rest / 0x8000 % 2 == 1
            && rest / 0x8000_0000 % 2 == 1
            && rest / 0x8000_0000_0000 % 2 == 1
            && rest / 0x8000_0000_0000_0000 == 1
    }
}

/// A law: areas that have a pixel in common meet.
#[tactic(auto, using(crate::proofs::Packing::common_meet))]
pub fn common_pixels_meet()
    ensures { (a : Edges_) (b : Edges_) (x : ℕ) (y : ℕ) → has_pixel_at a x y ≡ true → has_pixel_at b x y ≡ true → meets a b ≡ true }
{}

/// A law: packed areas that meet have a pixel in common.
#[tactic(auto, using(crate::proofs::Packing::meet_common))]
pub fn what_meets_has_a_common_pixel()
    ensures { (a : Edges_) (b : Edges_) → IsPacked a → IsPacked b → meets a b ≡ true → HaveCommon a b }
{}
