// The objects whose records may differ.
ghost use Rattle.std.specs.Prelude.{◌≡◌};
ghost use Rattle.ev_damage.specs.Marked.{is_marked, may_differ};

/// The objects whose records may differ: any, or those of these ids.
#[derive(Clone, Copy)]
pub(crate) struct Marks<'a> {
    pub(crate) any: bool,
    pub(crate) ids: &'a [u64],
}

/// Whether the record of this object may differ.
pub(crate) fn may_differ(marks: Marks<'_>, id: u64) -> bool
    ensures { result ≡ may_differ marks.entry.any marks.entry.ids.now id }
{
    marks.any || has_id(marks.ids, id)
}

fn has_id(ids: &[u64], id: u64) -> bool
    ensures { result ≡ is_marked ids.now id }
{
    ids.iter().any(|one| *one == id)
}
