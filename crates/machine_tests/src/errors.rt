//! The names of errors, and what they print.

use rv32_decode::Refused;
use rv32_image::{ImageFault, ImageFaultKind, InputFault, NoMemory};
use std::alloc::{AllocError, Global};
use std::fmt::Display;
use std::test::Fail;

/// Whether an error prints this text.
fn prints(alloc: Global, error: impl Display + Drop, text: &str) -> Result<bool, AllocError> {
    Ok(format!(in alloc; "{error}")?.as_str() == text)
}

#[test]
fn reasons_print_their_names(rt: HostRuntime) -> Result<(), Fail> {
    for (reason, name) in [(Refused::Illegal, "Illegal"), (Refused::System, "System")] {
        assert!(rt; reason.name() == name && prints(rt.alloc(), reason, name)?);
    }
    Ok(())
}

#[test]
fn faults_of_an_input_print_their_names(rt: HostRuntime) -> Result<(), Fail> {
    for (fault, name) in [
        (InputFault::TooLong, "TooLong"),
        (InputFault::Read, "Read"),
        (InputFault::NoMemory, "NoMemory"),
    ] {
        assert!(rt; fault.name() == name && prints(rt.alloc(), fault, name)?);
    }
    assert!(rt; NoMemory.name() == "NoMemory" && prints(rt.alloc(), NoMemory, "NoMemory")?);
    Ok(())
}

const KINDS: [(ImageFaultKind, &str); 8] = [
    (ImageFaultKind::Line, "Line"),
    (ImageFaultKind::MissingOrRepeated, "MissingOrRepeated"),
    (ImageFaultKind::Range, "Range"),
    (ImageFaultKind::Place, "Place"),
    (ImageFaultKind::Hex, "Hex"),
    (ImageFaultKind::TooLong, "TooLong"),
    (ImageFaultKind::Read, "Read"),
    (ImageFaultKind::NoMemory, "NoMemory"),
];

/// A fault prints its line before the name of its kind.
#[test]
fn faults_of_an_image_print_their_names(rt: HostRuntime) -> Result<(), Fail> {
    for (kind, name) in KINDS {
        let fault = ImageFault { line: 7, kind };
        let text = format!(in rt.alloc(); "7 {name}")?;
        assert!(rt; kind.name() == name && prints(rt.alloc(), kind, name)?);
        assert!(rt; fault.name() == name && prints(rt.alloc(), fault, text.as_str())?);
    }
    Ok(())
}
