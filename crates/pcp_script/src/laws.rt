//! What holds of the lines of a script. A proof that needs a law calls its function.
ghost use Rattle.pcp_script.specs.Laws.{OneLine};

/// A text stands for one line at most, by the external addresses of a configuration.
pub fn texts_stand_for_one_line()
    ensures { OneLine }
{}
