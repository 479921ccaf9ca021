use crate::Slots;
use std::test::Fail;

#[test]
fn places_are_used_again(rt: HostRuntime) -> Result<(), Fail> {
    let mut slots = Slots::new(rt.alloc());
    slots.give();
    slots.reserve()?;
    slots.push(7u16);
    for n in 0..1000u16 {
        slots.reserve()?;
        slots.push(n);
        let _ = slots.take(slots.given());
    }
    assert_eq!(rt; slots.given(), 1002);
    assert_eq!(rt; slots.get(1), None);
    assert_eq!(rt; slots.get(2), Some(&7));
    assert_eq!(rt; slots.get(1002), None);
    assert_eq!(rt; slots.len(), 1);
    assert!(rt; slots.places() <= 8);
    Ok(())
}

#[test]
fn ids_sit_in_places(rt: HostRuntime) -> Result<(), Fail> {
    let mut slots = Slots::new(rt.alloc());
    for n in 1..4u16 {
        slots.reserve()?;
        slots.push(n);
    }
    let place = slots.place(2).unwrap_or(100);
    assert_eq!(rt; slots.id_in(place), Some(2));
    let _ = slots.take(2);
    assert_eq!(rt; slots.place(2), None);
    assert_eq!(rt; slots.id_in(place), None);
    slots.reserve()?;
    slots.push(9);
    assert_eq!(rt; slots.place(4), Some(place));
    assert_eq!(rt; slots.id_in(place), Some(4));
    Ok(())
}
