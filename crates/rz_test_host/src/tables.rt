//! All tables, and the test that makes their calls.

use crate::steps::show_call;
use crate::text::{Text, expanded};
use crate::{replaced, streams};
use rz_core::NoMemory;
use rz_folder::RealFolder;

/// All tables. A line is a call, and after ` => ` what it gives.
fn tables() -> [&'static str; 9] {
    [
        replaced::HOST,
        replaced::NOWHERE,
        replaced::NEW,
        replaced::OLD,
        replaced::READS,
        replaced::LEFT,
        replaced::MODES,
        replaced::PLACES,
        streams::STREAMS,
    ]
}

/// Makes the calls of a table in turn, and adds those that come out otherwise, each with what came.
fn add_wrong(rt: HostRuntime, table: &str, wrong: &mut String) -> Result<(), NoMemory> {
    let mut host = RealFolder::new(rt);
    for line in table.lines() {
        let (call, wanted) = line.split_once(" => ").unwrap_or((line, "no call"));
        if line.is_empty() {
            continue;
        }
        let text = expanded(rt.alloc(), call)?;
        let mut came = Text::new(rt.alloc());
        show_call(rt, &mut host, &text, &mut came);
        if came.as_slice() != wanted.as_bytes() {
            wrong.push_str(line)?;
            wrong.push_str(" BUT ")?;
            for byte in came.as_slice() {
                wrong.push(char::from(*byte))?;
            }
            wrong.push('\n')?;
        }
    }
    Ok(())
}

/// All calls that come out otherwise.
fn all_wrong(rt: HostRuntime) -> Result<String, NoMemory> {
    let mut wrong = String::new(rt.alloc());
    for table in &tables() {
        add_wrong(rt, table, &mut wrong)?;
    }
    Ok(wrong)
}

#[test]
fn all_calls_give_what_their_tables_say(rt: HostRuntime) {
    let wrong = all_wrong(rt).expect(&rt, "memory");
    assert_eq!(rt; wrong.as_str(), "");
}
