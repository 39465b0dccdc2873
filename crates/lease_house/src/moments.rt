//! Moments of several external addresses.
ghost use Rattle.std.specs.Prelude.{◌≡◌, ◌<◌, max, map, length};
ghost use Rattle.lease_histories.specs.HouseHistories.{greatest};

use lease_disk::LeaseDisk;
use pcp_base::Moment;
use shard_book::Book;

/// The greater of two moments.
pub(crate) fn later(m: Moment, other: Moment) -> Moment
    ensures { result ≡ max m other }
{
    if m.get() < other.get() { other } else { m }
}

/// The greatest base of these books, of which there is one at least.
pub fn greatest_base<D: LeaseDisk + Drop>(books: &[Book<D>]) -> Moment
    requires { 0 < length books.now }
    ensures { result ≡ greatest (map (λ b. b.state.base) books.now) }
{
    let mut base = books[0].base();
    for book in books {
        base = later(base, book.base());
    }
    base
}
