use crate::{NoMemory, Tracked};
use ev_state::{Shared, Tally};
use std::alloc::Global;
use std::test::Fail;

fn state(alloc: Global, value: u16) -> Result<Shared<u16>, NoMemory> {
    Shared::make(alloc, value, &mut Tally::new())
}

fn push(alloc: Global, states: &mut Tracked<u16>, value: u16) -> Result<(), NoMemory> {
    states.reserve()?;
    states.push(state(alloc, value)?);
    Ok(())
}

// What stood in the first place from here on that may have changed, and what stands in it.
fn changed(states: &Tracked<u16>, from: usize) -> Option<(Option<u16>, Option<u16>)> {
    let place = states.next_changed(from)?;
    let was = match states.was(place) {
        Some(state) => Some(*state.get()),
        None => None,
    };
    let Some(id) = states.id_in(place) else {
        return Some((was, None));
    };
    match states.get(id) {
        Some(state) => Some((was, Some(*state.get()))),
        None => Some((was, None)),
    }
}

#[test]
fn changes_are_told_until_they_are_settled(rt: HostRuntime) -> Result<(), Fail> {
    let alloc = rt.alloc();
    let mut states = Tracked::new(alloc);
    for value in 0..200u16 {
        push(alloc, &mut states, value)?;
    }
    assert_eq!(rt; changed(&states, 0), Some((None, Some(0))));
    states.settle()?;
    assert_eq!(rt; changed(&states, 0), None);
    if let Some(one) = states.get_mut(150) {
        *one = state(alloc, 7)?;
    }
    assert_eq!(rt; changed(&states, 0), Some((Some(149), Some(7))));
    assert_eq!(rt; changed(&states, 150), None);
    let _ = states.take(150);
    assert_eq!(rt; changed(&states, 0), Some((Some(149), None)));
    push(alloc, &mut states, 9)?;
    assert_eq!(rt; changed(&states, 0), Some((Some(149), Some(9))));
    states.settle()?;
    assert_eq!(rt; changed(&states, 0), None);
    Ok(())
}
