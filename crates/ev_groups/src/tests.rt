ghost use Rattle.std.specs.Prelude.{◌≡◌, [], ◌∷◌, length, OnOk};

use super::Groups;
use std::alloc::Global;
use std::test::Fail;

// Adds object 1 in layer 0 and object 2 in this one.
fn add_two(groups: &mut Groups, layer: i32) -> Result<(), Fail>
    requires { groups.old ≡ [] ∷ [] }
    ensures { OnOk result (length groups.new ≡ 3) }
{
    groups.add(0)?;
    groups.add(layer)?;
    Ok(())
}

// Adds object 1 to the members of 2, at the top of layer 0, where it isn't there yet.
fn add_member(groups: &mut Groups) -> Result<(), Fail>
    requires { length groups.old ≡ 3 }
    ensures { OnOk result (length groups.new ≡ 3) }
{
    let members = groups.group_mut(Some(2))?;
    if members.layer_of(1).is_none() {
        members.push_top(1, 0)?;
    }
    Ok(())
}

// Takes object 1 out of those that stand in no object, and tells whether it stood there.
fn take_out(groups: &mut Groups) -> Result<bool, Fail>
    requires { length groups.old ≡ 3 }
{
    Ok(groups.group_mut(None)?.remove(1).is_ok())
}

// Whether these are the objects in a parent, in this order, so many levels of them.
fn has_order(
    groups: &Groups,
    alloc: Global,
    root: Option<u64>,
    levels: usize,
    wanted: &[u64],
) -> Result<bool, Fail> {
    let mut ids = Vec::new(alloc);
    groups.collect(&mut ids, root, levels)?;
    Ok(ids.as_slice() == wanted)
}

// The orders of object 2 with its member 1.
fn has_orders_of_member(groups: &Groups, alloc: Global) -> Result<bool, Fail> {
    for (root, levels, wanted) in [
        (None, 1, [2].as_slice()),
        (None, 2, [2, 1].as_slice()),
        (Some(2), 9, [1].as_slice()),
        (Some(3), 9, [].as_slice()),
    ] {
        if !has_order(groups, alloc, root, levels, wanted)? {
            return Ok(false);
        }
    }
    Ok(true)
}

// The orders of two objects, of which neither stands in the other.
fn has_orders_of_two(groups: &Groups, alloc: Global) -> Result<bool, Fail> {
    Ok(
        has_order(groups, alloc, None, 2, &[1, 2])?
            && has_order(groups, alloc, None, 0, &[])?
            && has_order(groups, alloc, Some(2), 2, &[])?,
    )
}

#[test]
fn one_stands_in_two(rt: HostRuntime) -> Result<(), Fail> {
    let mut groups = Groups::new(rt.alloc());
    add_two(&mut groups, -1)?;
    assert!(rt; has_order(&groups, rt.alloc(), None, 1, &[2, 1])?);
    add_member(&mut groups)?;
    assert!(rt; take_out(&mut groups)?);
    assert_eq!(rt; groups.group(Some(2)).layer_of(1), Some(0));
    assert!(rt; has_orders_of_member(&groups, rt.alloc())?);
    groups.clear(2);
    assert!(rt; has_order(&groups, rt.alloc(), None, 9, &[2])?);
    Ok(())
}

#[test]
fn listed_order_follows_changes(rt: HostRuntime) -> Result<(), Fail> {
    let mut groups = Groups::new(rt.alloc());
    add_two(&mut groups, 0)?;
    groups.list_order(2);
    assert!(rt; has_orders_of_two(&groups, rt.alloc())?);
    add_member(&mut groups)?;
    assert!(rt; take_out(&mut groups)?);
    assert!(rt; has_order(&groups, rt.alloc(), None, 2, &[2, 1])?);
    groups.list_order(2);
    groups.clear(2);
    assert!(rt; has_order(&groups, rt.alloc(), None, 2, &[2])?);
    Ok(())
}
