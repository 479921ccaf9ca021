// Edits of one object's ties, which keep the counts right and all ways finite.
ghost use Rattle.std.specs.Prelude.{◌≡◌, ◌≢◌, ◌==◌, if◌then◌else◌, ℕ, List, ◌∷◌, true, Some, None, is_some};
ghost use Rattle.std.specs.Option.{option_map};
ghost use Rattle.ev_model.specs.declared.content.Kind.TheVariants.{Rect, Smart};
ghost use Rattle.ev_links.specs.Ties.{next_at, clipper_at, parent_at, kind_at, released, has, IsWay, Has};
ghost use Rattle.ev_links.specs.Tables.{tie_in, clips_in, with_clipper, with_parent, ChangesTie, SameClips};
ghost use Rattle.ev_links.specs.KeptTable.{IsKept};

use crate::table::Table;

/// Takes the clipper from an object.
pub fn unbind(table: &mut Table, id: u64)
    requires { IsKept table.old }
    ensures kept { IsKept table.new }
    ensures ties { ChangesTie (with_clipper None) id table.old table.new }
{
    if let Some(clipper) = table.clipper(id) {
        let clips = table.clips(clipper);
        table.set_clips(clipper, clips - 1);
        table.set_clipper(id, None);
    }
}

// Gives a clipper to an object that has none.
fn bind(table: &mut Table, id: u64, clipper: u64)
    requires kept { IsKept table.old }
    requires free { clipper_at (tie_in table.old) id ≡ None }
    requires there { is_some (tie_in table.old id) ≡ true }
    requires kind { kind_at (tie_in table.old) clipper ≡ Some Rect }
    requires sibling { parent_at (tie_in table.old) clipper ≡ parent_at (tie_in table.old) id }
    requires away { (way : List ℕ) → IsWay (next_at (tie_in table.old)) clipper way → ¬ Has id (clipper ∷ way) }
    ensures kept { IsKept table.new }
    ensures ties { ChangesTie (with_clipper (Some clipper)) id table.old table.new }
{
    let clips = table.clips(clipper);
    // No object clips more than there are, so the count stays in range.
    prove!(clips <= table.len());
    table.set_clips(clipper, clips + 1);
    table.set_clipper(id, Some(clipper));
}

/// Gives another clipper to an object.
pub fn rebind(table: &mut Table, id: u64, clipper: u64)
    requires kept { IsKept table.old }
    requires there { is_some (tie_in table.old id) ≡ true }
    requires kind { kind_at (tie_in table.old) clipper ≡ Some Rect }
    requires sibling { parent_at (tie_in table.old) clipper ≡ parent_at (tie_in table.old) id }
    requires away { (way : List ℕ) → IsWay (next_at (tie_in table.old)) clipper way → ¬ Has id (clipper ∷ way) }
    ensures kept { IsKept table.new }
    ensures ties { ChangesTie (with_clipper (Some clipper)) id table.old table.new }
{
    unbind(table, id);
    bind(table, id, clipper);
}

/// Gives another parent, or none, to an object that neither clips nor is clipped.
pub fn shift(table: &mut Table, id: u64, parent: Option<u64>)
    requires kept { IsKept table.old }
    requires free { clipper_at (tie_in table.old) id ≡ None }
    requires there { is_some (tie_in table.old id) ≡ true }
    requires clips { clips_in table.old id ≡ Some 0 }
    requires fit { (to : ℕ) → parent ≡ Some to → (kind_at (tie_in table.old) to ≡ Some Smart) × ((way : List ℕ) → IsWay (next_at (tie_in table.old)) to way → ¬ Has id (to ∷ way)) }
    ensures kept { IsKept table.new }
    ensures ties { ChangesTie (with_parent parent) id table.old table.new }
{
    table.set_parent(id, parent);
}

// Takes an object as clipper from all that it clips. Other objects are looked at only where it clips one.
fn release(table: &mut Table, id: u64)
    requires kept { IsKept table.old }
    requires there { is_some (tie_in table.old id) ≡ true }
    ensures ties { (other : ℕ) → tie_in table.new other ≡ option_map (released id) (tie_in table.old other) }
    ensures clips { SameClips table.old table.new }
{
    if table.clips(id) > 0 {
        table.release(id);
    }
}

/// Removes an object without members, and releases what it clips.
pub fn discard(table: &mut Table, id: u64)
    requires kept { IsKept table.old }
    requires there { is_some (tie_in table.old id) ≡ true }
    requires members { (other : ℕ) → parent_at (tie_in table.old) other ≢ Some id }
    ensures kept { IsKept table.new }
    ensures ties { (other : ℕ) → tie_in table.new other ≡ (if other == id then None else option_map (released id) (tie_in table.old other)) }
{
    unbind(table, id);
    release(table, id);
    table.remove(id);
}

/// Removes objects, with whom all go that stand in one of them or are clipped by one. No others are
/// looked at but what clips these.
pub fn discard_all(table: &mut Table, ids: &[u64])
    requires kept { IsKept table.old }
    requires members { (q p : ℕ) → parent_at (tie_in table.old) q ≡ Some p → has ids.now p ≡ true → has ids.now q ≡ true }
    requires clipped { (q c : ℕ) → clipper_at (tie_in table.old) q ≡ Some c → has ids.now c ≡ true → has ids.now q ≡ true }
    ensures kept { IsKept table.new }
    ensures ties { (q : ℕ) → tie_in table.new q ≡ (if has ids.now q then None else tie_in table.old q) }
{
    unbind_all(table, ids);
    remove_all(table, ids);
}

// Takes the clippers from some objects.
fn unbind_all(table: &mut Table, ids: &[u64])
    requires { IsKept table.old }
    ensures kept { IsKept table.new }
    ensures ties { (q : ℕ) → tie_in table.new q ≡ (if has ids.now q then option_map (with_clipper None) (tie_in table.old q) else tie_in table.old q) }
{
    'ids: for id in ids {
        unbind(table, *id);
    }
}

// Removes the nodes of some objects.
fn remove_all(table: &mut Table, ids: &[u64])
    ensures ties { (q : ℕ) → tie_in table.new q ≡ (if has ids.now q then None else tie_in table.old q) }
    ensures clips { (q : ℕ) → clips_in table.new q ≡ (if has ids.now q then None else clips_in table.old q) }
{
    'ids: for id in ids {
        table.remove(*id);
    }
}
