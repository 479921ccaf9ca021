// Why a call is refused.
ghost use Rattle.std.specs.Prelude.{◌≡◌};
ghost use Rattle.ev_links.specs.LinkCalls.{is_rect, is_smart, first_clip_fault, first_join_fault, first_leave_fault};

use ev_model::Kind;

/// Why a call was refused: the first of these that holds (docs/SCRIPT.md, "Commands"). Want of memory
/// is none of them: `add` takes all that an object's ties need, and no other call takes any.
#[derive(Clone, Copy, Debug, PartialEq, Eq)]
pub enum LinkErr {
    /// No object has one of the ids.
    Unknown,
    /// An object can neither clip nor join itself.
    Itself,
    /// Only a rectangle clips, and only a smart object has members.
    Kind,
    /// The two objects have different parents.
    Sibling,
    /// The object is on its clipper's way up, or the smart object stands inside it.
    Cycle,
    /// The object clips another, or has a clipper.
    Clipping,
}

/// Why one object can't clip another: the first fault that holds.
pub fn first_clip_fault(
    are_known: bool,
    is_itself: bool,
    is_rect: bool,
    are_siblings: bool,
    is_cycle: bool,
) -> Option<LinkErr>
    ensures { result ≡ first_clip_fault are_known is_itself is_rect are_siblings is_cycle }
{
    if !are_known {
        Some(LinkErr::Unknown)
    } else if is_itself {
        Some(LinkErr::Itself)
    } else if !is_rect {
        Some(LinkErr::Kind)
    } else if !are_siblings {
        Some(LinkErr::Sibling)
    } else if is_cycle {
        Some(LinkErr::Cycle)
    } else {
        None
    }
}

/// Why an object can't join a smart object: the first fault that holds.
pub fn first_join_fault(
    are_known: bool,
    is_itself: bool,
    is_smart: bool,
    is_cycle: bool,
    is_clipping: bool,
) -> Option<LinkErr>
    ensures { result ≡ first_join_fault are_known is_itself is_smart is_cycle is_clipping }
{
    if !are_known {
        Some(LinkErr::Unknown)
    } else if is_itself {
        Some(LinkErr::Itself)
    } else if !is_smart {
        Some(LinkErr::Kind)
    } else if is_cycle {
        Some(LinkErr::Cycle)
    } else if is_clipping {
        Some(LinkErr::Clipping)
    } else {
        None
    }
}

/// Why an object can't leave its parent: the first fault that holds.
pub fn first_leave_fault(is_known: bool, is_clipping: bool) -> Option<LinkErr>
    ensures { result ≡ first_leave_fault is_known is_clipping }
{
    if !is_known {
        Some(LinkErr::Unknown)
    } else if is_clipping {
        Some(LinkErr::Clipping)
    } else {
        None
    }
}

/// Whether an object of this kind may clip.
pub fn is_rect(kind: Option<Kind>) -> bool
    ensures { result ≡ is_rect kind }
{
    matches!(kind, Some(Kind::Rect))
}

/// Whether an object of this kind may have members.
pub fn is_smart(kind: Option<Kind>) -> bool
    ensures { result ≡ is_smart kind }
{
    matches!(kind, Some(Kind::Smart))
}
