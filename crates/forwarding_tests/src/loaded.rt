use forwarding::Dice;
use std::cell::Cell;

/// Dice that give this ID, and then each time one that is so much higher.
#[derive(Drop)]
pub(crate) struct Loaded {
    pub(crate) next: Cell<u16>,
    pub(crate) step: u16,
}

impl Dice for Loaded {
    fn draw(&self) -> u16 {
        let id = self.next.get();
        self.next.set(id.wrapping_add(self.step));
        id
    }
}
