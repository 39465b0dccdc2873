//! The laws.
ghost use Rattle.option_laws.specs.Asked.{AsksAreOfRequests};
ghost use Rattle.option_laws.specs.Fitting.{RequestsFit, ResponsesFit, ResponsesAreMapped};
ghost use Rattle.option_laws.specs.Grants.{MapGrantsAreRead, PeerGrantsAreRead};
ghost use Rattle.option_laws.specs.Octets.{OctetsAreAsked, OctetsAreRead, RefusalsAreOctets, RequestsAreOctets, SuccessesAreOctets};
ghost use Rattle.option_laws.specs.Refusals.{RefusalsAreErrors};

/// What is read of octets fits its types: numbers, addresses and nonces of a response, and of a
/// request that is asked, with their options. A response is for TCP or UDP, and a success has each
/// option that may stand once at most so.
pub fn what_is_read_fits()
    ensures responses { ResponsesFit }
    ensures requests { RequestsFit }
    ensures mapped { ResponsesAreMapped }
{}

/// The code of a refusal is never that of a success.
pub fn refusals_are_errors()
    ensures { RefusalsAreErrors }
{}

/// Requests, successes and refusals are written in octets where their nonces, protocols, addresses and
/// prefixes are of octets; and these are so in what is read of octets, of a response and of a
/// request that is asked.
pub fn messages_are_octets()
    ensures requests { RequestsAreOctets }
    ensures successes { SuccessesAreOctets }
    ensures refusals { RefusalsAreOctets }
    ensures read { OctetsAreRead }
    ensures asked { OctetsAreAsked }
{}

/// A request that is asked asks for the endpoint and by the nonce of its data, for TCP or UDP; each
/// option that may stand once stands once at most.
pub fn asks_are_of_requests()
    ensures { AsksAreOfRequests }
{}

/// The reply that grants a lease is read with the lifetime, the address and the external port that
/// were granted, and with the other data and the THIRD_PARTY of the request.
pub fn grants_are_read()
    ensures maps { MapGrantsAreRead }
    ensures peers { PeerGrantsAreRead }
{}
