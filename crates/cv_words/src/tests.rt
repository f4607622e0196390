//! Words that `clap` reads.
use super::*;
use std::test::Fail;

#[test]
fn a_word_is_the_project(rt: HostRuntime) -> Result<(), Fail> {
    let words = ["p.json"];
    let project = check_words(rt.alloc(), words.as_slice())?;
    assert_eq!(rt; project, "p.json");
    Ok(())
}

#[test]
fn three_words_are_what_is_painted(rt: HostRuntime) -> Result<(), Fail> {
    let words = ["p.json", "0", "./-x"];
    let read = paint_words(rt.alloc(), words.as_slice())?;
    assert_eq!(rt; read.project, "p.json");
    assert_eq!(rt; read.canvas, "0");
    assert_eq!(rt; read.out, "./-x");
    Ok(())
}

#[test]
fn an_option_and_two_words_are_a_session(rt: HostRuntime) -> Result<(), Fail> {
    let words = ["--workers", "0", "p.json", "s.txt"];
    let read = session_words(rt.alloc(), words.as_slice())?;
    assert_eq!(rt; read.workers, "0");
    assert_eq!(rt; read.project, "p.json");
    assert_eq!(rt; read.script, "s.txt");
    Ok(())
}
