// Where ids most likely lead.
use std::alloc::Global;

// The place that was last given to an id with the same last bits. It saves most look-ups of the map,
// which alone knows where an id leads. The number of places is 0 or a power of 2.
#[derive(Drop)]
pub struct Near {
    places: Vec<usize>,
}

impl Near {
    pub fn new(alloc: Global) -> Near {
        Near {
            places: Vec::new(alloc),
        }
    }

    pub fn len(&self) -> usize {
        self.places.len()
    }

    // Where the thing of an id may stand.
    pub fn place(&self, id: u64) -> usize {
        match self.places.get(self.index(id)) {
            Some(place) => *place,
            None => 0,
        }
    }

    // Notes where the thing of an id stands.
    pub fn note(&mut self, id: u64, place: usize) {
        let index = self.index(id);
        if let Some(slot) = self.places.get_mut(index) {
            *slot = place;
        }
    }

    // Takes twice the room. Where there is none, all stays as it is.
    pub fn grow(&mut self) {
        let more = self.places.len().saturating_mul(2).max(8);
        let _ = self.places.resize(more, 0);
    }

    fn index(&self, id: u64) -> usize {
        id as usize & self.places.len().wrapping_sub(1)
    }
}
