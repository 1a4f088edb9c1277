use forward_sockets::RandomIds;
use forwarding::Dice;
use std::io;
use std::random::RandomSource;

/// IDs of random octets.
#[derive(Drop)]
pub struct SystemIds<M> {
    ids: RandomIds<M>,
}

impl<M: RandomSource> SystemIds<M> {
    pub fn over(machine: M) -> SystemIds<M> {
        SystemIds {
            ids: RandomIds::over(machine),
        }
    }

    /// Whether the machine gives random octets now.
    pub fn check(&self) -> io::Result<()> {
        self.ids.check()
    }
}

impl<M: RandomSource + Drop> Dice for SystemIds<M> {
    fn draw(&self) -> u16 {
        self.ids.draw()
    }
}
