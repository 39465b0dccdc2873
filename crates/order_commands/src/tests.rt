//! Tests: words that are orders, words that aren't, and the lines of orders.
use crate::{OrderPlan, line_of, order_of};
use pcp_base::{Address, Memory};
use std::alloc::Global;
use std::test::Fail;

// Words with a space between each two, and the line that says them; none where they are no order.
static WORDS: [(&str, Option<&str>); 18] = [
    ("stop j", Some("stop\n")),
    ("status j", Some("status\n")),
    ("lose j 192.0.2.1", Some("lose 192.0.2.1\n")),
    ("lose j ::ffff:192.0.2.1", Some("lose 192.0.2.1\n")),
    (
        "lose j 2001:db8::1",
        Some("lose 20010db8000000000000000000000001\n"),
    ),
    (
        "lose j 20010DB8000000000000000000000001",
        Some("lose 20010db8000000000000000000000001\n"),
    ),
    ("stop", None),
    ("stop ", None),
    ("stop j k", None),
    ("status", None),
    ("status ", None),
    ("status j k", None),
    ("lose j", None),
    ("lose  192.0.2.1", None),
    ("lose j 192.0.2.256", None),
    ("lose j 192.0.2.1 k", None),
    ("Stop j", None),
    ("serve c j 5351 5400", None),
];

#[test]
fn words_are_orders(rt: HostRuntime) -> Result<(), Fail> {
    for (text, line) in &WORDS {
        let words = words_of(rt.alloc(), text)?;
        let found = order_of(&words);
        assert!(rt; found.is_some() == line.is_some(), "{text}");
        assert!(rt; says(rt.alloc(), found, *line)?, "{text}");
    }
    Ok(())
}

// Whether an order is said by this line.
fn says(alloc: Global, found: Option<OrderPlan>, line: Option<&str>) -> Result<bool, Memory> {
    let (Some(plan), Some(line)) = (found, line) else {
        return Ok(true);
    };
    Ok(line_of(alloc, plan)?.as_slice() == line.as_bytes())
}

#[test]
fn orders_are_told_apart(rt: HostRuntime) -> Result<(), Fail> {
    let stop = order_of(&words_of(rt.alloc(), "stop j")?);
    assert!(rt; stop == Some(OrderPlan::Stop));
    let status = order_of(&words_of(rt.alloc(), "status j")?);
    assert!(rt; status == Some(OrderPlan::Status));
    let lose = order_of(&words_of(rt.alloc(), "lose j 192.0.2.1")?);
    assert!(rt; lose == Some(OrderPlan::Lose(Address::v4(192, 0, 2, 1))));
    Ok(())
}

// The words of a text.
fn words_of(alloc: Global, text: &str) -> Result<Vec<String>, Memory> {
    let mut words = Vec::new(alloc);
    for word in text.split(' ') {
        words.push(String::from_str(alloc, word)?)?;
    }
    Ok(words)
}
