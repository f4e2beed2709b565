ghost use Rattle.live_text.specs.AskingExamples.{AskingExamples};
ghost use Rattle.live_text.specs.Examples.{Examples};
ghost use Rattle.live_text.specs.Sound.{LinesStaySound};

/// The lines that count are within the limits of a trace with signals.
pub fn lines_stay_sound()
    ensures { LinesStaySound }
{}

/// Examples of the definitions.
pub fn worked_examples()
    ensures { Examples }
{}

/// Examples of lines that ask.
pub fn questions_asked()
    ensures { AskingExamples }
{}
