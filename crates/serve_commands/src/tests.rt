//! Tests: words that are a `serve`, and words that aren't.
use crate::{ServePlan, serve_of};
use pcp_base::Memory;
use std::alloc::Global;
use std::test::Fail;

// Words with a space between each two, and the two ports where they are a `serve`.
static WORDS: [(&str, Option<(u16, u16)>); 14] = [
    ("serve c j 5351 5400", Some((5351, 5400))),
    ("serve c j 1 1", Some((1, 1))),
    ("serve c j 65535 65520", Some((65535, 65520))),
    ("serve c j 0 5400", None),
    ("serve c j 5351 0", None),
    ("serve c j 65536 5400", None),
    ("serve c j 5351 65521", None),
    ("serve c j 05351 5400", None),
    ("serve c j 5351 +5400", None),
    ("serve c j 5351", None),
    ("serve c j 5351 5400 6", None),
    ("serve  j 5351 5400", None),
    ("serve c  5351 5400", None),
    ("Serve c j 5351 5400", None),
];

#[test]
fn words_are_a_serve(rt: HostRuntime) -> Result<(), Fail> {
    for (text, ports) in &WORDS {
        let words = words_of(rt.alloc(), text)?;
        let plan = ports.map(|(port, lane_port)| ServePlan { port, lane_port });
        assert!(rt; serve_of(&words) == plan, "{text}");
    }
    Ok(())
}

// The words of a text.
fn words_of(alloc: Global, text: &str) -> Result<Vec<String>, Memory> {
    let mut words = Vec::new(alloc);
    for word in text.split(' ') {
        words.push(String::from_str(alloc, word)?)?;
    }
    Ok(words)
}
