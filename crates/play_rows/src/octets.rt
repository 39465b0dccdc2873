//! Journals of one external address, as hexadecimal digits.

/// A start at 1000 of 192.0.2.1, and a lease from 1010 to 4610 with a protocol that no lease has.
pub(crate) const DAMAGED: &str = "015043504a020000000000000000\
            01000000090100000000000003e801\
            00000019\
            0900000000000003e800000000000000000000ffffc000020101\
            0000003d\
            0200000000000003f2\
            00000000000000000000ffff0a000005\
            12138800010400\
            000102030405060708090a0b\
            00000000000003f2000000000000120200\
            00";

/// A start at 1000 and such a lease in the first format, 95 octets.
pub(crate) const FIRST_FORMAT: &str = "015043504a010000000000000000\
            01000000090100000000000003e801\
            0000003d\
            0200000000000003f2\
            00000000000000000000ffff0a000005\
            11138800010400\
            000102030405060708090a0b\
            00000000000003f2000000000000120200\
            00";
