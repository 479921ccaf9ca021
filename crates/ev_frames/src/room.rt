// The memory of a frame, taken before its buffer is lent.
ghost use Rattle.std.specs.Prelude.{◌≡◌, IfOk};
ghost use Rattle.std.specs.Arc.{arc_value};

use crate::NoMemory;
use ev_cmds::Commands;
use ev_draw::{TileDone, TileJob};
use std::alloc::Global;
use std::sync::Arc;

/// The commands of a frame, a share of them for each of its jobs, and room for its jobs before and
/// after they are drawn.
#[derive(Drop)]
pub(crate) struct Room {
    pub(crate) commands: Arc<Commands, Global>,
    pub(crate) shares: Vec<Arc<Commands, Global>>,
    pub(crate) jobs: Vec<TileJob>,
    pub(crate) done: Vec<TileDone>,
}

impl Room {
    ghost use Rattle.ev_frames.specs.Rooms.{IsRoom};

    /// Room for a frame with these commands. NoMemory where there is none.
    pub(crate) fn new(alloc: Global, commands: Commands) -> Result<Room, NoMemory>
        ensures room { IfOk result IsRoom }
        ensures commands { IfOk result (λ room. arc_value room.commands ≡ commands) }
    {
        let tiles = commands.tiles();
        let commands = Arc::new(alloc, commands).map_err(|_| NoMemory)?;
        let mut shares = Vec::new(alloc);
        for _ in 0..tiles {
            shares.push(Arc::try_clone(&commands)?)?;
        }
        Ok(Room {
            commands,
            shares,
            jobs: Vec::with_capacity(alloc, tiles)?,
            done: Vec::with_capacity(alloc, tiles)?,
        })
    }
}
