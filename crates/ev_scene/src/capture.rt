// Scenes as they are captured.
ghost use Rattle.std.specs.Prelude.{◌≡◌, ◌++◌, IfOk, OnOk, None, option_to_list};
ghost use Rattle.ev_model.specs.Stage.{stage, values};
ghost use Rattle.ev_stack.specs.LayerOrder.{IsOrder};
ghost use Rattle.ev_groups.specs.Groups.{group};
ghost use Rattle.ev_scene.specs.Ids.{of_id};
ghost use Rattle.ev_scene.specs.Board.{board, stage_of, values_of, ids_in};
ghost use Rattle.ev_scene.specs.Shot.{IsShot, AreOrders};
ghost use Rattle.ev_scene.specs.Cast.{IsCast, board_of};

use crate::cast::Cast;
use crate::{NoMemory, SceneBox};
use ev_model::{Objects, Record, Scene};
use ev_sights::records;
use std::marker::Model;

/// A scene as it stood at a capture, with its records. Later edits leave it alone (docs/CANVAS.md,
/// "Frames").
#[derive(Drop)]
pub struct Captured {
    scene: Scene,
    records: Vec<Record>,
}

impl Model for Captured {
    ghost use Rattle.ev_scene.specs.Shot.{Shot, IsShot};

    ghost Value = { Shot };

    ghost view = { λ c. record { scene = c.scene; records = c.records.items } };

    ghost invariant = { λ c. IsShot (record { scene = c.scene; records = c.records.items }) };
}

impl Captured {
    /// The scene: its objects in the order in which they are painted. Their ids differ.
    pub fn scene(&self) -> &Scene
        ensures value { result.now ≡ self.now.scene }
        ensures shot { IsShot self.now }
    {
        &self.scene
    }

    /// What is painted of the scene, object by object in their order. Their ids differ.
    pub fn records(&self) -> &[Record]
        ensures value { result.now ≡ self.now.records }
        ensures shot { IsShot self.now }
    {
        &self.records
    }
}

impl SceneBox {
    /// The scene as it stands, which shares the states of its objects and makes none.
    pub fn capture(&self) -> Result<Captured, NoMemory>
        ensures { IfOk result (λ c. stage c.scene ≡ stage_of (board self.now)) }
    {
        self.cast.capture()
    }

    /// Keeps the order of painting, which each capture needs, until the next edit that restacks, makes
    /// or deletes an object. Where there is no room for it, captures find it anew.
    pub fn list_order(&mut self)
        ensures { self.new ≡ self.old }
    {
        self.cast.list_order();
    }
}

impl Cast {
    // Keeps the order of painting until it changes.
    fn list_order(&mut self)
        ensures { self.new ≡ self.old }
    {
        self.groups.list_order(self.roll.len());
    }

    fn capture(&self) -> Result<Captured, NoMemory>
        requires { IsCast self.now }
        ensures { IfOk result (λ c. stage c.scene ≡ stage_of (board_of self.now)) }
    {
        let _ties = self.links.len();
        let objects = self.shares()?;
        let records = records(
            self.roll.alloc(),
            self.w,
            self.h,
            self.roll.slots(),
            &objects,
        )?;
        let scene = Scene {
            w: self.w,
            h: self.h,
            objects,
        };
        Ok(Captured { scene, records })
    }

    // Shares of the states of all objects, in the order in which they are painted.
    fn shares(&self) -> Result<Objects, NoMemory>
        requires { IsCast self.now }
        ensures objects { IfOk result
            (λ objects. values objects ≡ (stage_of (board_of self.now)).objects) }
        ensures orders { IfOk result
            (λ objects. AreOrders self.now.groups (ids_in (board_of self.now) None)) }
    {
        let alloc = self.roll.alloc();
        let mut ids = Vec::new(alloc);
        self.groups.collect(&mut ids, None, self.roll.len())?;
        let mut objects = Objects::new(alloc);
        self.tell_order(None);
        for id in &ids {
            self.tell_order(Some(*id));
            self.push_share(&mut objects, *id)?;
        }
        Ok(objects)
    }

    // Who stand together in an object are an order: their group knows it, and tells it here.
    pub fn tell_order(&self, parent: Option<u64>)
        ensures { IsOrder (group self.now.groups parent) }
    {
        let _members = self.groups.group(parent).len();
    }

    // Puts a share of the state of an id on top, if an object has that id.
    fn push_share(&self, objects: &mut Objects, id: u64) -> Result<(), NoMemory>
        ensures { OnOk result (values objects.new ≡ values objects.old
            ++ option_to_list (of_id (values_of self.now.roll.states) id)) }
    {
        if let Some(state) = self.roll.state(id) {
            objects.push(state.share()?)?;
        }
        Ok(())
    }
}
