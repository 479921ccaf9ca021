// What holds of each scene, whatever was edited.
ghost use Rattle.std.specs.Prelude.{◌≡◌, ℕ, [], get_or};
ghost use Rattle.std.specs.FinMap.{get};
ghost use Rattle.ev_stack.specs.LayerOrder.{IsOrder};
ghost use Rattle.ev_links.specs.Ties as ties;
ghost use Rattle.ev_scene.specs.Board.{board, stage_of};
ghost use Rattle.ev_scene.specs.Cast.{IsCast, board_of};
ghost use Rattle.ev_scene.specs.Sound.{IsSound};

use crate::SceneBox;
use crate::cast::Cast;

impl SceneBox {
    /// A law: the scene as it is painted is sound. Its ids differ, its objects stand in the order of
    /// painting, in which the layers of siblings never fall, their clippers and parents are among
    /// them, and each way up comes to an end (docs/CANVAS.md, "Objects"). It changes nothing, and
    /// goes through all groups, each of which tells that it is an order.
    pub fn laws(&self)
        ensures sound { IsSound (stage_of (board self.now)) }
    {
        self.cast.laws();
    }
}

impl Cast {
    fn laws(&self)
        requires { IsCast self.now }
        ensures { IsSound (stage_of (board_of self.now)) }
    {
        self.tell_ties();
        self.tell_orders();
    }

    // All ties are sound: they know it, and tell it here.
    pub fn tell_ties(&self)
        ensures { ties.IsSound (get self.now.links) }
    {
        let _ties = self.links.len();
    }

    // Those who stand together are an order, wherever that is.
    fn tell_orders(&self)
        requires { IsCast self.now }
        ensures { (at : ℕ) → IsOrder (get_or self.now.groups at []) }
    {
        self.tell_order(None);
        for id in 1..self.roll.next_id() {
            self.tell_order(Some(id));
        }
    }
}
