// The order in which objects are painted.
ghost use Rattle.std.specs.Prelude.{◌≡◌, ◌++◌, OnOk, flat_map};
ghost use Rattle.ev_model.specs.Order.{in_order};
ghost use Rattle.ev_stack.specs.LayerOrder.{ids_above};
ghost use Rattle.ev_groups.specs.Groups.{group, siblings};

use crate::{Groups, NoMemory};

// The siblings in a parent from an object on, each with its members, so many levels of them.
#[derive(Clone, Copy)]
pub struct Frame {
    parent: Option<u64>,
    id: u64,
    levels: usize,
}

impl Groups {
    ghost use Rattle.ev_groups.specs.Walk.{visited, ahead};

    /// Adds the objects in a parent, or all of them, to a list, in the order in which they are painted:
    /// each sibling from the bottom to the top, followed by its members in their order (docs/CANVAS.md,
    /// Objects).
    /// Objects that stand deeper than so many levels are left out.
    ///
    /// NoMemory where there is no room: the list may have grown by a front of these objects then.
    pub fn collect(
        &self,
        ids: &mut Vec<u64>,
        root: Option<u64>,
        levels: usize,
    ) -> Result<(), NoMemory>
        ensures { OnOk result (ids.new.items ≡ ids.old.items ++ in_order levels (siblings self.now) root) }
    {
        if let Some(order) = self.kept_order(root, levels) {
            return ids.extend_from_slice(order);
        }
        self.walk(ids, root, levels)
    }

    // The same by a walk from sibling to sibling.
    pub(crate) fn walk(
        &self,
        ids: &mut Vec<u64>,
        root: Option<u64>,
        levels: usize,
    ) -> Result<(), NoMemory>
        ensures { OnOk result (ids.new.items ≡ ids.old.items ++ in_order levels (siblings self.now) root) }
    {
        let mut frames = Vec::new(self.alloc());
        self.enter(&mut frames, root, levels)?;
        while let Some(frame) = frames.pop() {
            ids.push(frame.id)?;
            self.advance(&mut frames, &frame)?;
            self.enter(&mut frames, Some(frame.id), frame.levels)?;
        }
        Ok(())
    }

    // Puts the objects in a parent before all else, so many levels of them.
    fn enter(
        &self,
        frames: &mut Vec<Frame>,
        parent: Option<u64>,
        levels: usize,
    ) -> Result<(), NoMemory>
        ensures { OnOk result (ahead self.now frames.new.items ≡ in_order levels (siblings self.now) parent ++ ahead self.now frames.old.items) }
    {
        if levels == 0 {
            return Ok(());
        }
        if let Some(id) = self.group(parent).bottom() {
            frames.push(Frame {
                parent,
                id,
                levels: levels - 1,
            })?;
        }
        Ok(())
    }

    // Puts what stands above a frame's object before all else.
    fn advance(&self, frames: &mut Vec<Frame>, frame: &Frame) -> Result<(), NoMemory>
        ensures { OnOk result (ahead self.now frames.new.items ≡ flat_map (visited frame.now.levels (siblings self.now)) (ids_above (group self.now frame.now.parent) frame.now.id) ++ ahead self.now frames.old.items) }
    {
        if let Some(id) = self.group(frame.parent).next_above(frame.id) {
            frames.push(Frame { id, ..*frame })?;
        }
        Ok(())
    }
}
