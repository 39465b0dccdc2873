//! What holds of the words.
ghost use Rattle.client_words.specs.OlderWords.{OlderWordsStay};

/// The words of an older command, without the options that may stand among them, ask for that command and
/// for nothing more, whatever `clap` makes of them: so [`ask_of`](crate::ask_of) refuses none of them.
pub fn older_words_stay()
    ensures { OlderWordsStay }
{}
