//! The text of a script, and the pace.

use run_scripts::{Pace, TextFault, read_text};
use script_io::MemorySource;
use std::alloc::Global;
use std::process::Abort;
use std::test::Fail;

// The pull that fails, and whether the text is read whole.
fn compare_text(
    rt: &impl Abort,
    alloc: Global,
    failing: &[u64],
    expected: Result<(), TextFault>,
) -> Result<(), Fail> {
    let numbers = Vec::from_slice(alloc, failing)?;
    let mut source = MemorySource::new(b"halt\n".to_vec(alloc)?, numbers);
    match read_text(alloc, &mut source) {
        Ok(text) => assert!(rt; expected == Ok(()) && text.as_slice() == b"halt\n".as_slice()),
        Err(fault) => assert!(rt; expected == Err(fault)),
    }
    Ok(())
}

#[test]
fn texts_and_paces(rt: HostRuntime) -> Result<(), Fail> {
    let alloc = rt.alloc();
    compare_text(&rt, alloc, &[], Ok(()))?;
    compare_text(&rt, alloc, &[0], Err(TextFault::Failed))?;
    compare_text(&rt, alloc, &[1], Err(TextFault::Failed))?;
    compare_text(&rt, alloc, &[2], Ok(()))?;
    let most = 16;
    let pace = Pace::new(move |_, left| if left < most { 1 } else { most });
    assert!(rt; pace.ask(7, 15) == 1 && pace.ask(7, 16) == 16);
    Ok(())
}
