//! What holds of an opened house. A proof that needs a law calls its function.
ghost use Rattle.lease_house.specs.OpeningLaws.{OpenedHousesBegin, PairsAreHandedBack};

use lease_disk::LeaseDisk;

/// An opened house is a house of the states that its journals were found with, or that were made, at
/// which a history may begin. Nothing is in doubt in it.
pub fn opened_houses_begin<D: LeaseDisk>()
    ensures { OpenedHousesBegin D D.tells D.seen D.moment D.left_since D.may_leave D.faults }
{}

/// Where a house wasn't opened each pair stands where it stood, and those past the external addresses
/// are as they were.
pub fn pairs_are_handed_back<D: LeaseDisk>()
    ensures { PairsAreHandedBack D D.tells D.seen D.moment D.left_since D.may_leave D.faults }
{}
