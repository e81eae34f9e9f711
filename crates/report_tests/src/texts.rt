//! Texts of traces: worked histories and their texts, and what happens where memory runs out.

use rv32_image::{NoMemory, Version};
use spec_history::{Entry, What};
use std::alloc::{AllocError, Global};
use std::fmt::Display;
use std::test::Fail;
use trace_text::{TraceFault, TraceFaultKind, image_part, print_trace, read_trace};

/// An image above a trace; its own reader is not asked here.
const IMAGE: &str = "size 256\n# an image\n";

/// An entry of each kind.
#[rattlefmt::skip]
const ENTRIES: [Entry; 10] = [
    Entry { by: 0, what: What::Start(0) },
    Entry { by: 7, what: What::Start(4_294_967_295) },
    Entry { by: 0, what: What::Load { addr: 64, width: 4, value: 255 } },
    Entry { by: 1, what: What::Store { addr: 0xDEAD_BEEF, width: 1, value: 0xFFFF_FFFF } },
    Entry { by: 0, what: What::Hurt(10) },
    Entry { by: 0, what: What::Cancel(1) },
    Entry { by: 1, what: What::Restart },
    Entry { by: 0, what: What::Publish },
    Entry { by: 0, what: What::Commit },
    Entry { by: 4_294_967_295, what: What::Fault { cause: 8, pc: 12 } },
];

const TEXT: &str =
    "trace 8\n0 start 0\n7 start 4294967295\n0 load 00000040 4 000000ff\n1 store deadbeef 1 ffffffff\n0 hurt 10\n0 cancel 1\n1 restart\n0 publish\n0 commit\n4294967295 fault 8 0000000c\n";

#[test]
fn prints_a_history(rt: HostRuntime) -> Result<(), Fail> {
    let text = print_trace(rt.alloc(), 8, &ENTRIES)?;
    assert!(rt; text.as_slice() == TEXT.as_bytes());
    let none = print_trace(rt.alloc(), 16, &[])?;
    assert!(rt; none.as_slice() == b"trace 16\n".as_slice());
    Ok(())
}

#[test]
fn reads_a_history(rt: HostRuntime) -> Result<(), Fail> {
    let mut text = Vec::from_slice(rt.alloc(), IMAGE.as_bytes())?;
    text.extend_from_slice(TEXT.as_bytes())?;
    assert!(rt; image_part(text.as_slice()) == IMAGE.as_bytes());
    let (cores, entries) = read_trace(rt.alloc(), text.as_slice(), Version::One)?;
    assert!(rt; cores == 8 && entries.as_slice() == ENTRIES.as_slice());
    Ok(())
}

/// Either call answers as with ample memory, or tells want of memory.
#[test]
fn tells_want_of_memory(rt: HostRuntime) {
    match print_trace(rt.alloc(), 8, &ENTRIES) {
        Ok(text) => assert!(rt; text.as_slice() == TEXT.as_bytes()),
        Err(NoMemory) => {}
    }
    match read_trace(rt.alloc(), TEXT.as_bytes(), Version::Two) {
        Ok((_, entries)) => assert!(rt; entries.as_slice() == ENTRIES.as_slice()),
        Err(fault) => {
            let wanted = TraceFault {
                line: 0,
                kind: TraceFaultKind::NoMemory,
            };
            assert!(rt; fault == wanted && fault.name() == "NoMemory");
        }
    }
}

/// Whether an error prints this text.
fn prints(alloc: Global, error: impl Display + Drop, text: &str) -> Result<bool, AllocError> {
    Ok(format!(in alloc; "{error}")?.as_str() == text)
}

const KINDS: [(TraceFaultKind, &str); 5] = [
    (TraceFaultKind::Head, "Head"),
    (TraceFaultKind::Line, "Line"),
    (TraceFaultKind::TooLong, "TooLong"),
    (TraceFaultKind::Read, "Read"),
    (TraceFaultKind::NoMemory, "NoMemory"),
];

/// A fault prints its line before the name of its kind.
#[test]
fn faults_print_their_names(rt: HostRuntime) -> Result<(), Fail> {
    for (kind, name) in KINDS {
        let fault = TraceFault { line: 7, kind };
        let text = format!(in rt.alloc(); "7 {name}")?;
        assert!(rt; kind.name() == name && prints(rt.alloc(), kind, name)?);
        assert!(rt; fault.name() == name && prints(rt.alloc(), fault, text.as_str())?);
    }
    Ok(())
}
