use std::cell::Cell;

/// A value that counts its drop.
pub struct Counted<'a> {
    drops: &'a Cell<u64>,
}

impl<'a> Counted<'a> {
    pub fn new(drops: &'a Cell<u64>) -> Counted<'a> {
        Counted { drops }
    }
}

impl<'a> Drop for Counted<'a> {
    fn drop(self) {
        let Counted { drops } = self;
        drops.set(drops.get().wrapping_add(1));
    }
}
