//! The router that the system's table of routes tells.
use pcp_base::Address;
use program_links::default_router;
use std::test::Fail;

const HEAD: &str =
    "Iface\tDestination\tGateway \tFlags\tRefCnt\tUse\tMetric\tMask\t\tMTU\tWindow\tIRTT\n";

// Rows of the table, and the last octet of the router 192.0.2.N that they tell; 0 where they tell none.
static TABLES: [(&str, u8); 9] = [
    ("", 0),
    (
        "eth0\t000200C0\t00000000\t0001\t0\t0\t0\t00FFFFFF\t0\t0\t0\n",
        0,
    ),
    (
        "eth0\t00000000\t010200C0\t0003\t0\t0\t0\t00000000\t0\t0\t0\n",
        1,
    ),
    // a link alone, one that is down, and a network that isn't all
    (
        "ppp0\t00000000\t00000000\t0001\t0\t0\t0\t00000000\t0\t0\t0\n",
        0,
    ),
    (
        "eth0\t00000000\t010200C0\t0002\t0\t0\t0\t00000000\t0\t0\t0\n",
        0,
    ),
    (
        "tun0\t00000000\t010200C0\t0003\t0\t0\t0\t00000080\t0\t0\t0\n",
        0,
    ),
    // the lesser metric, and the former of equal ones
    (
        "eth0\t00000000\t010200C0\t0003\t0\t0\t100\t00000000\t0\t0\t0\nlan0\t00000000\t020200C0\t0003\t0\t0\t99\t00000000\t0\t0\t0\n",
        2,
    ),
    (
        "eth0\t00000000\t010200C0\t0003\t0\t0\t5\t00000000\t0\t0\t0\nlan0\t00000000\t020200C0\t0003\t0\t0\t5\t00000000\t0\t0\t0\n",
        1,
    ),
    // what isn't a row is passed over
    (
        "eth0\t00000000\t0102\neth0\t00000000\t030200C0\t0003\t0\t0\tx\t00000000\nlan0\t00000000\t040200C0\t0003\t0\t0\t7\t00000000\n",
        4,
    ),
];

#[test]
fn routers(rt: HostRuntime) -> Result<(), Fail> {
    let alloc = rt.alloc();
    for (rows, last) in &TABLES {
        let text = format!(in alloc; "{HEAD}{rows}")?;
        let want = match last {
            0 => None,
            last => Some(Address::v4(192, 0, 2, *last)),
        };
        assert!(rt; default_router(alloc, text.as_str())? == want, "{rows}");
    }
    Ok(())
}
