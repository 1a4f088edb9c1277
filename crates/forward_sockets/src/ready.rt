//! Sockets that may have something.
ghost use Rattle.std.specs.Prelude.{◌≤◌};

/// The numbers of sockets that were told to have something, and weren't found empty since. They have their turns in order.
#[derive(Drop)]
pub(crate) struct Ready {
    turns: [u8; 256],
    first: u8,
    count: usize,
    has: [bool; 256],
    ghost fits: { count ≤ 256 },
}

impl Ready {
    pub(crate) fn none() -> Ready {
        Ready {
            turns: [0; 256],
            first: 0,
            count: 0,
            has: [false; 256],
        }
    }

    pub(crate) fn is_empty(&self) -> bool {
        self.count == 0
    }

    /// The socket's turn comes after all others', if it hasn't one.
    pub(crate) fn add(&mut self, socket: u8) {
        let number = usize::from(socket);
        if self.has[number] || self.count == 256 {
            return;
        }
        let end = (usize::from(self.first) + self.count) % 256;
        self.turns[end] = socket;
        self.has[number] = true;
        self.count += 1;
    }

    /// The socket whose turn it is. It has none from then on.
    pub(crate) fn take(&mut self) -> Option<u8> {
        if self.count == 0 {
            return None;
        }
        let socket = self.turns[usize::from(self.first)];
        self.first = self.first.wrapping_add(1);
        self.count -= 1;
        self.has[usize::from(socket)] = false;
        Some(socket)
    }
}
