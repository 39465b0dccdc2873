//! That the definitions mean these filters and these peers.
use super::*;

const HOST: Filter = Filter {
    prefix: 128,
    port: 0,
    remote: Address([0, 0, 0, 0, 0, 0, 0, 0, 0, 0, 255, 255, 198, 51, 100, 7]),
};

const NET: Filter = Filter {
    prefix: 120,
    port: 53,
    remote: Address([0, 0, 0, 0, 0, 0, 0, 0, 0, 0, 255, 255, 203, 0, 113, 0]),
};

const NONE: Filter = Filter {
    prefix: 0,
    port: 7,
    remote: Address([0; 16]),
};

// The filter of one host with this port.
fn at(port: u16) -> Filter {
    Filter { port, ..HOST }
}

fn list_of(filters: &[Filter]) -> Filters {
    let mut list = Filters::none();
    for filter in filters {
        let _has_room = list.push(*filter);
    }
    list
}

fn folded(old: &[Filter], new: &[Filter]) -> Result<Filters, Excess> {
    fold_filters(&list_of(old), new)
}

#[test]
fn folds(rt: HostRuntime) {
    let nine = [
        at(1),
        at(2),
        at(3),
        at(4),
        at(5),
        at(6),
        at(7),
        at(8),
        at(9),
    ];
    assert!(rt; folded(&[HOST], &[NONE, NET]) == Ok(list_of(&[NET])));
    assert!(rt; folded(&[HOST], &[NET, HOST, NET]) == Ok(list_of(&[HOST, NET])));
    assert!(rt; folded(&nine[..8], &[at(3)]) == Ok(list_of(&nine[..8])));
    assert!(rt; folded(&nine[..8], &[at(3), at(9), at(9)]) == Err(Excess(9)));
    assert!(rt; folded(&[HOST, NET], &nine) == Err(Excess(11)));
    assert!(rt; folded(&nine[..8], &[at(9), NONE, HOST]) == Ok(list_of(&[HOST])));
}

#[test]
fn peers(rt: HostRuntime) {
    let host = Address::v4(198, 51, 100, 7);
    let near = Address::v4(203, 0, 113, 9);
    assert!(rt; allows(&Filters::none(), &host, 9));
    assert!(rt; allows(&list_of(&[NET, HOST]), &host, 9));
    assert!(rt; allows(&list_of(&[NET]), &near, 53));
    assert!(rt; !allows(&list_of(&[NET]), &near, 54));
    assert!(rt; !allows(&list_of(&[NET]), &host, 53));
}
