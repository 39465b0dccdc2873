//! Codes, sizes and places of options (RFC 6887, sections 7.3 and 13; PORT_SET: RFC 7753, section 4.1).

/// The code of THIRD_PARTY.
pub const THIRD_PARTY_CODE: u8 = 1;

/// The code of PREFER_FAILURE.
pub const PREFER_FAILURE_CODE: u8 = 2;

/// The code of FILTER.
pub const FILTER_CODE: u8 = 3;

/// The code of PORT_SET.
pub const PORT_SET_CODE: u8 = 130;

/// From this code on a server passes over the options that it doesn't know.
pub const FIRST_OPTIONAL_CODE: u8 = 128;

/// How many octets stand before an option's data: its code, a reserved one, and the length of the data.
pub const OPTION_HEAD_OCTETS: usize = 4;

/// How many octets of data THIRD_PARTY has: an address.
pub const THIRD_PARTY_OCTETS: usize = 16;

/// How many octets of data PREFER_FAILURE has.
pub const PREFER_FAILURE_OCTETS: usize = 0;

/// How many octets of data FILTER has.
pub const FILTER_OCTETS: usize = 20;

/// Where the prefix length stands in the data of FILTER, behind a reserved octet.
pub const FILTER_PREFIX_PLACE: usize = 1;

/// Where the remote port stands in the data of FILTER.
pub const FILTER_PORT_PLACE: usize = 2;

/// Where the remote address stands in the data of FILTER.
pub const FILTER_REMOTE_PLACE: usize = 4;

/// How many leading bits of an address a FILTER names at most.
pub const LONGEST_PREFIX: u8 = 128;

/// How many octets of data PORT_SET has.
pub const PORT_SET_OCTETS: usize = 5;

/// Where the number of ports stands in the data of PORT_SET.
pub const SET_SIZE_PLACE: usize = 0;

/// Where the first internal port stands in the data of PORT_SET.
pub const SET_FIRST_PLACE: usize = 2;

/// Where the parity bit stands in the data of PORT_SET: the last bit of this octet.
pub const SET_PARITY_PLACE: usize = 4;
