ghost use Rattle.replay_meaning.specs.Frame.{IsInput, input_spelling};
ghost use Rattle.replay_meaning.specs.OutFrame.{IsOutput, output_spelling};
ghost use Rattle.replay_meaning.specs.Spelling.{HasOneSpelling};
ghost use Rattle.replay_meaning.specs.Laws.{HasOneOutput, HasOneReplay, RepliesAreSound};

/// A list of frames, of the input or of the output, has one spelling, and no frame's spelling is a strict prefix of
/// another's.
pub fn one_spelling()
    ensures inputs { HasOneSpelling IsInput input_spelling }
    ensures outputs { HasOneSpelling IsOutput output_spelling }
{}

/// For one worker an input has one output.
pub fn one_output()
    ensures frames { HasOneOutput }
    ensures octets { HasOneReplay }
{}

/// Where queries are answered by what is proved of them, each reply of an output that fits is sound.
pub fn replies_are_sound()
    ensures { RepliesAreSound }
{}
