//! Words that aren't those of a replay.

use autopush_main::autopush_replay;
use push_outside::{SureSink, SureSource};
use std::test::Fail;

#[test]
fn other_words(rt: HostRuntime) -> Result<(), Fail> {
    let alloc = rt.alloc();
    for line in [
        "",
        "replay x",
        "Replay",
        "gen 7 10",
        "serve 1 1 9001 9101",
        "--help",
    ] {
        let mut words = Vec::new(alloc);
        for word in line.split_whitespace() {
            words.push(String::from_str(alloc, word)?)?;
        }
        let mut input = SureSource::new(Vec::from_slice(alloc, b"report\n")?);
        let mut output = SureSink::new(alloc);
        assert_eq!(rt; autopush_replay(alloc, &words, &mut input, &mut output), 2);
        assert_eq!(rt; output.bytes().len(), 0);
        assert_eq!(rt; input.left(), b"report\n".as_slice());
    }
    Ok(())
}
