//! How a ring is made.
ghost use Rattle.std.specs.Prelude.{◌≡◌, [], ◌∷◌, IfOk, vec_len, ℕ};
ghost use Rattle.std.specs.List.{All};
ghost use Rattle.ev_ring.specs.Seen.{owner_view, IsFresh, OpensWith};

use crate::NoMemory;
use crate::hands::Hand;
use crate::owners::Owner;
use crate::posts::{Board, Post, SLOTS, WORDS};
use crate::work::Work;
use atomic_table::Table;
use std::alloc::Global;
use std::sync::Arc;

// A ring with no hand.
fn open<J: Work>(alloc: Global, slots: usize) -> Result<Owner<J>, NoMemory>
    requires { slots ≡ 4096 }
    ensures { IfOk result (λ o. OpensWith 0 o) }
{
    let (table, seat) = Board::<J>::vacant(alloc, &[0; WORDS], slots, &())?;
    let table = Arc::new(alloc, table).map_err(|_| NoMemory)?;
    Ok(Owner {
        post: Post { table, seat },
        limit: 0,
        closed: false,
        done: 0,
    })
}

/// Makes a ring, with its owner and so many hands. It has 4,096 slots, and no ticket yet. NoMemory where there is none for
/// the table or the hands (docs/THREADS.md, The ring).
pub fn ring<J: Work>(alloc: Global, hands: u32) -> Result<(Owner<J>, Vec<Hand<J>>), NoMemory>
    ensures owner { IfOk result (λ r. OpensWith hands r.0) }
    ensures count { IfOk result (λ r. vec_len r.1 ≡ hands) }
    ensures fresh { IfOk result (λ r. All (IsFresh r.0) r.1.items) }
{
    let mut owner = open(alloc, SLOTS as usize)?;
    let mut list = Vec::new(alloc);
    for _ in 0..hands {
        list.reserve(1)?;
        list.push_reserved(owner.part()?);
    }
    Ok((owner, list))
}
