//! How a desk is made.
ghost use Rattle.std.specs.Prelude.{◌≡◌, IfOk};
ghost use Rattle.ev_desk.specs.DeskSeen.{asker_view, loader_view, IsOf};
ghost use Rattle.ev_desk.specs.DeskSlots.{opening_view, loader_view as new_loader_view};
ghost use Rattle.ev_desk.specs.DeskMoves.{parted};

use crate::NoMemory;
use crate::askers::Asker;
use crate::errand::Errand;
use crate::loaders::Loader;
use crate::posts::{Board, PLACES, Post, WORDS};
use crate::view::Stage;
use atomic_table::Table;
use std::alloc::Global;
use std::sync::Arc;

// The asker's post, before there is a loader.
fn open<J: Errand<E>, E: Drop>(alloc: Global) -> Result<Post<J, E>, NoMemory>
    ensures { IfOk result (λ post. post.seat.me.0 ≡ opening_view) }
{
    let (table, seat) = Board::<J, E>::vacant(alloc, &[0; WORDS], PLACES, &())?;
    let table = Arc::new(alloc, table).map_err(|_| NoMemory)?;
    Ok(Post { table, seat })
}

/// Makes a desk of 64 places, all of which are free. NoMemory where there is none for the table or the list of stages
/// (docs/THREADS.md, The desk).
pub fn desk<J: Errand<E>, E: Drop>(alloc: Global) -> Result<(Asker<J, E>, Loader<J, E>), NoMemory>
    ensures asker { IfOk result (λ d. asker_view d.0 ≡ parted opening_view) }
    ensures loader { IfOk result (λ d. (loader_view d.1 ≡ new_loader_view) × IsOf d.0 d.1) }
{
    let mut stages = Vec::new(alloc);
    stages.resize(PLACES, Stage::Free)?;
    let mut post = open(alloc)?;
    let loader = post.part()?;
    Ok((
        Asker { post, stages },
        Loader {
            post: loader,
            bell: 0,
            start: 0,
        },
    ))
}
