//! What holds of the words.
ghost use Rattle.relay_words.specs.OlderWords.{OlderCascadeStays, OlderProxyStays};

/// The words of an older command, without the options that may stand among them, say that command and
/// nothing more: so [`proxy_ask_of`](crate::proxy_ask_of) and [`cascade_ask_of`](crate::cascade_ask_of) refuse
/// none of them.
pub fn older_words_stay()
    ensures proxy { OlderProxyStays }
    ensures cascade { OlderCascadeStays }
{}
