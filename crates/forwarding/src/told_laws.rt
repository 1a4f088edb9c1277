//! What extended errors in replies mean.
ghost use Rattle.forwarding.specs.ExtendedError.{ErrorsArePassedOn, MarkIsAnOption};

/// The mark is the one option of the OPT record that ends the reply.
pub fn a_mark_is_an_option()
    ensures { MarkIsAnOption }
{}

/// Of an upstream's options those that are extended errors are the data of the relay's OPT record, as far as there is room.
pub fn errors_are_passed_on()
    ensures { ErrorsArePassedOn }
{}
