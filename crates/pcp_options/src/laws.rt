//! What holds of every text that is written. A proof that needs a law calls its function.
ghost use Rattle.pcp_options.specs.Laws.{AsksAreWellFormed, FoundAreOptions, ItemsAreRead, OptionsAreFound};
ghost use Rattle.pcp_options.specs.ReadingLaws.{SuccessesAreRead, WrittenSuccessesAreRead};
ghost use Rattle.pcp_options.specs.RequestLaws.{RequestsAreAsked};
ghost use Rattle.pcp_options.specs.Responses.{RepliesAreResponses, SuccessesAreResponses};

/// A success that is written, of at most [`MESSAGE_OCTETS`](pcp_codec::MESSAGE_OCTETS), is one of the
/// grammar of messages, with the same opcode, lifetime, epoch, body and options.
pub fn successes_are_responses()
    ensures { SuccessesAreResponses }
{}

/// The reply to a request that is asked is a response of the grammar of messages, with the fields of the
/// request and of the answer.
pub fn replies_are_responses()
    ensures { RepliesAreResponses }
{}

/// The options that stand in octets are those that the grammar of options spells, in both directions;
/// and items that are written are read again.
pub fn options_are_of_the_grammar()
    ensures found { OptionsAreFound }
    ensures spelled { FoundAreOptions }
    ensures again { ItemsAreRead }
{}

/// What the verdict lets through is well formed.
pub fn asks_are_well_formed()
    ensures { AsksAreWellFormed }
{}

/// The request that is written for an ask is asked: its verdict is that ask, with the options that were
/// written, where the ask is well formed, is for the client or for another host for which it may ask, and a
/// subscriber row has that host.
pub fn requests_are_asked()
    ensures { RequestsAreAsked }
{}

/// A success of the grammar of messages for TCP or UDP, whose options have the lengths of their codes and
/// stand once where they must, is read as the response with its fields; so is one that is written.
pub fn successes_are_read()
    ensures spelled { SuccessesAreRead }
    ensures written { WrittenSuccessesAreRead }
{}
