//! The doors of a server, and whom it reaches by them.
ghost use Rattle.std.specs.Prelude.{◌≡◌, ◌<◌, length, slice_get, Some};
ghost use Rattle.pcp_base.specs.Configs.{IsConfig};
ghost use Rattle.pcp_announce.specs.Doors.{door_number, doors, doors_anywhere, group_of, is_loopback, is_own_host, is_v4, reaches};

use pcp_base::{Address, Config, Orders, Prefix};

/// 224.0.0.1 (RFC 6887, section 14.1).
pub const ALL_HOSTS_V4: Address = Address([0, 0, 0, 0, 0, 0, 0, 0, 0, 0, 0xff, 0xff, 224, 0, 0, 1]);

/// ff02::1 (RFC 6887, section 14.1).
pub const ALL_HOSTS_V6: Address = Address([0xff, 2, 0, 0, 0, 0, 0, 0, 0, 0, 0, 0, 0, 0, 0, 1]);

/// The number of the door at 127.0.0.1, where orders come from there.
pub const ORDER_DOOR: u8 = 255;

/// What an IPv4 address begins with (RFC 6887, section 5).
const V4_FRONT: [u8; 12] = [0, 0, 0, 0, 0, 0, 0, 0, 0, 0, 0xff, 0xff];

/// A socket at which datagrams come, and by which the replies to them leave.
#[derive(Clone, Copy)]
pub struct Door {
    pub number: u8,
    /// Where it listens: all-zero where at all addresses of the host of this family.
    pub address: Address,
}

/// All hosts of a link that a door reaches.
#[derive(Clone, Copy)]
pub struct Group {
    /// The number of the door.
    pub door: u8,
    /// The address of the group.
    pub hosts: Address,
}

/// How many doors the server has, at most 16.
pub fn door_count(config: &Config) -> usize
    ensures { result ≡ length (doors config.now) }
{
    let listen = config.listen.items();
    if listen.is_empty() {
        return 2;
    }
    listen.len()
}

/// The door at this place of the server's, from 0.
pub fn door_at(config: &Config, place: usize) -> Door
    requires config { IsConfig config.now }
    requires place { place < length (doors config.now) }
    ensures { slice_get (doors config.now) place ≡ Some result }
{
    let listen = config.listen.items();
    if listen.is_empty() {
        return door_anywhere(place);
    }
    let address = listen[place].address;
    Door {
        number: door_number(config.orders, place as u8, &address),
        address,
    }
}

/// The door at this place where nothing is said of doors: that of IPv4, and behind it that of IPv6.
fn door_anywhere(place: usize) -> Door
    requires { place < 2 }
    ensures { slice_get doors_anywhere place ≡ Some result }
{
    if place == 0 {
        return Door {
            number: 0,
            address: Address::v4(0, 0, 0, 0),
        };
    }
    Door {
        number: 1,
        address: Address([0; 16]),
    }
}

/// The number of the door at this place of `listen`.
fn door_number(orders: Orders, place: u8, address: &Address) -> u8
    ensures { result ≡ door_number orders place address.now }
{
    match orders {
        Orders::Both if is_own_host(address) => ORDER_DOOR,
        _ => place,
    }
}

/// The hosts to which the door announces; none where it stands on the loopback.
pub fn group_of(door: &Door) -> Option<Group>
    ensures { result ≡ group_of door.now }
{
    if is_loopback(&door.address) {
        return None;
    }
    let hosts = if is_v4(&door.address) {
        ALL_HOSTS_V4
    } else {
        ALL_HOSTS_V6
    };
    Some(Group {
        door: door.number,
        hosts,
    })
}

/// Whether a host of this address is reached by the door: both are of one family.
pub fn reaches(door: &Door, address: &Address) -> bool
    ensures { result ≡ reaches door.now address.now }
{
    is_v4(&door.address) == is_v4(address)
}

/// Whether it is the address of an IPv4 host.
fn is_v4(address: &Address) -> bool
    ensures { result ≡ is_v4 address.now }
{
    address.0.starts_with(&V4_FRONT)
}

/// Whether it is 127.0.0.1.
fn is_own_host(address: &Address) -> bool
    ensures { result ≡ is_own_host address.now }
{
    *address == Address::v4(127, 0, 0, 1)
}

/// Whether it is an address of the loopback.
fn is_loopback(address: &Address) -> bool
    ensures { result ≡ is_loopback address.now }
{
    let of_v4 = Prefix {
        bits: 104,
        address: Address::v4(127, 0, 0, 0),
    };
    let of_v6 = Prefix {
        bits: 128,
        address: Address([0, 0, 0, 0, 0, 0, 0, 0, 0, 0, 0, 0, 0, 0, 0, 1]),
    };
    of_v4.holds(address) || of_v6.holds(address)
}
