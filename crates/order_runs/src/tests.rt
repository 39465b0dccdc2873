//! Tests: orders over a link in memory, how they end and what they print.
use crate::{MemoryOrders, OrderFault, run_order};
use pcp_base::{Memory, Octets};
use pcp_io::MemorySink;
use std::alloc::Global;
use std::test::Fail;
use tool_commands::ToolStatus;

// Words with a space between each two; what is answered; the status; what was asked; what is printed.
type Row = (
    &'static str,
    Result<&'static str, OrderFault>,
    ToolStatus,
    &'static str,
    &'static str,
);

static ROWS: [Row; 19] = [
    ("stop j", Ok(""), ToolStatus::Done, "stop\n", ""),
    (
        "stop j",
        Ok("refused\n"),
        ToolStatus::OrderRefused,
        "stop\n",
        "",
    ),
    ("stop j", Ok("done\n"), ToolStatus::LinkFault, "stop\n", ""),
    (
        "stop j",
        Err(OrderFault::Silent),
        ToolStatus::Silence,
        "stop\n",
        "",
    ),
    (
        "stop j",
        Err(OrderFault::Broken),
        ToolStatus::LinkFault,
        "stop\n",
        "",
    ),
    (
        "stop j",
        Err(OrderFault::Memory),
        ToolStatus::Memory,
        "stop\n",
        "",
    ),
    (
        "lose j 192.0.2.1",
        Ok("done\n"),
        ToolStatus::Done,
        "lose 192.0.2.1\n",
        "",
    ),
    (
        "lose j 192.0.2.1",
        Ok("refused\n"),
        ToolStatus::OrderRefused,
        "lose 192.0.2.1\n",
        "",
    ),
    (
        "lose j 192.0.2.1",
        Ok(""),
        ToolStatus::LinkFault,
        "lose 192.0.2.1\n",
        "",
    ),
    (
        "lose j 192.0.2.1",
        Ok("done"),
        ToolStatus::LinkFault,
        "lose 192.0.2.1\n",
        "",
    ),
    (
        "lose j 192.0.2.1",
        Err(OrderFault::Silent),
        ToolStatus::Silence,
        "lose 192.0.2.1\n",
        "",
    ),
    ("status j", Ok("{}\n"), ToolStatus::Done, "status\n", "{}\n"),
    (
        "status j",
        Ok("refused\n"),
        ToolStatus::OrderRefused,
        "status\n",
        "",
    ),
    ("status j", Ok(""), ToolStatus::LinkFault, "status\n", ""),
    (
        "status j",
        Ok("{\"moment\":1}\n"),
        ToolStatus::WriteFault,
        "status\n",
        "",
    ),
    (
        "status j",
        Err(OrderFault::Broken),
        ToolStatus::LinkFault,
        "status\n",
        "",
    ),
    ("lose j", Ok("done\n"), ToolStatus::WordsRefused, "", ""),
    ("stop ", Ok(""), ToolStatus::WordsRefused, "", ""),
    (
        "serve c j 5351 5400",
        Ok(""),
        ToolStatus::WordsRefused,
        "",
        "",
    ),
];

// How many octets are printed at most.
const ROOM: u64 = 8;

#[test]
fn orders_end_so(rt: HostRuntime) -> Result<(), Fail> {
    for row in &ROWS {
        let Ok(went) = goes(rt.alloc(), row) else {
            return Err("no memory".into());
        };
        assert!(rt; went, "{} {}", row.0, row.4);
    }
    Ok(())
}

// Whether a row goes as it says.
fn goes(alloc: Global, row: &Row) -> Result<bool, Memory> {
    let (text, answer, status, line, printed) = row;
    let mut link = answering(alloc, answer)?;
    let mut out = MemorySink::new(alloc, ROOM)?;
    let ended = run_order(alloc, &words_of(alloc, text)?, &mut link, &mut out);
    Ok(ended == *status && was_asked(&link, line, *text) && out.held() == printed.as_bytes())
}

// A link that answers so.
fn answering(alloc: Global, answer: &Result<&str, OrderFault>) -> Result<MemoryOrders, Memory> {
    let mut answers = Vec::new(alloc);
    match answer {
        Ok(text) => answers.push(Ok(Octets::of(text.as_bytes().to_vec(alloc)?)))?,
        Err(why) => answers.push(Err(*why))?,
    }
    Ok(MemoryOrders::new(alloc, answers))
}

// Whether it was asked this line, and nothing where that is empty. For a stop alone it waits.
fn was_asked(link: &MemoryOrders, line: &str, text: &str) -> bool {
    match link.asked() {
        [] => line.is_empty(),
        [ask] => {
            ask.line.items() == line.as_bytes() && ask.without_limit == text.starts_with("stop")
        }
        _ => false,
    }
}

#[test]
fn nothing_left_is_silence(rt: HostRuntime) -> Result<(), Fail> {
    let mut link = MemoryOrders::new(rt.alloc(), Vec::new(rt.alloc()));
    let mut out = MemorySink::new(rt.alloc(), ROOM)?;
    let words = words_of(rt.alloc(), "status j")?;
    assert!(rt; run_order(rt.alloc(), &words, &mut link, &mut out) == ToolStatus::Silence);
    Ok(())
}

// The words of a text.
fn words_of(alloc: Global, text: &str) -> Result<Vec<String>, Memory> {
    let mut words = Vec::new(alloc);
    for word in text.split(' ') {
        words.push(String::from_str(alloc, word)?)?;
    }
    Ok(words)
}
