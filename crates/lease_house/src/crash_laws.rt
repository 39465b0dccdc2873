//! What the next opening finds of what a crash has left. A proof that needs a law calls its function.
ghost use Rattle.lease_house.specs.CrashLaws.{CrashesAreFound, OthersBeginAnew};

use lease_disk::LeaseDisk;
use lease_journal::one_journal;

/// What two sides stand for is what a book opens with: the state in one of the houses of which a
/// crash may leave images, and then perhaps a Renumber. Where they are blank or damaged a book begins
/// anew.
pub fn crashes_are_found<D: LeaseDisk>()
    ensures found { CrashesAreFound D D.tells D.seen D.moment D.left_since D.may_leave D.faults }
    ensures anew { OthersBeginAnew D D.tells D.seen D.moment D.left_since D.may_leave D.faults }
{
    one_journal();
}
