/// Where the IDs of questions come from. That they are random (RFC 5452, section 9.2) no clause says, as none says what a clock
/// tells.
pub trait Dice {
    fn draw(&self) -> u16;
}
