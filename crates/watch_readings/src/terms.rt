//! The terms on which journals are read.
ghost use Rattle.lease_store.specs.LeaseTerms.{AreTerms};

use lease_store::Terms;
use pcp_base::{Address, External, LONGEST_LIFETIME, MOST_QUOTA};

/// Terms on which any journal may be read: they decide on what is granted, and nothing is.
pub(crate) fn widest_terms() -> Terms
    ensures { AreTerms result }
{
    Terms {
        external: External {
            address: Address([0; 16]),
            low: 1,
            high: 65_535,
        },
        quota: MOST_QUOTA,
        lifetime_min: 1,
        lifetime_max: LONGEST_LIFETIME,
    }
}
