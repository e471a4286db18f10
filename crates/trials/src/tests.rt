use crate::running::{PIECE, run};
use crate::texts::expanded;
use sig_io::Page;
use std::alloc::Global;
use std::test::Fail;

const SCRIPT: &str =
    r#"{"version":1,"sources":[{"name":"a","vector":[5,1]}],"writers":[{"name":"w","edits":[{"on":"a","push":7}]}],"views":[{"name":"f","vector":{"filter":{"ge":3},"of":{"vector":"a"}}}]}"#;

const REPORT: &str =
    "source a vector [5, 1]\n1 w push 7 -> ok\n2 w leave -> ok\nfinal [5, 1, 7]\nview f vector\nat 2: replace [5, 7]\nat 2: ended\nfinal [5, 7]\n";

#[test]
fn only_the_one_word_play_is_accepted(rt: HostRuntime) -> Result<(), Fail> {
    let cases: [&[&str]; 5] = [&[], &["run"], &["play", "play"], &["Play"], &[""]];
    for words in cases {
        let mut page = Page::new(rt.alloc(), 1000, 1000, Vec::new(rt.alloc()))?;
        let status = run(&rt, rt.alloc(), words, SCRIPT.as_bytes(), 0, &mut page)?;
        assert_eq!(rt; status, 1, "at {words:?}");
        assert!(rt; page.as_slice().is_empty(), "at {words:?}");
    }
    Ok(())
}

#[test]
fn bytes_that_are_no_document_are_refused(rt: HostRuntime) -> Result<(), Fail> {
    let script = SCRIPT.as_bytes();
    // Each prefix of a script, and bytes that are no text.
    for length in 0..=script.len() {
        let input = if length < script.len() {
            &script[..length]
        } else {
            b"\"\xff\"".as_slice()
        };
        let mut page = Page::new(rt.alloc(), 1000, 1000, Vec::new(rt.alloc()))?;
        assert_eq!(rt;
            run(&rt, rt.alloc(), &["play"], input, 0, &mut page)?,
            4,
            "at {length}"
        );
        assert_eq!(rt; page.as_slice(), b"script 1\n".as_slice(), "at {length}");
    }
    Ok(())
}

#[test]
fn a_read_that_fails_leaves_nothing_written(rt: HostRuntime) -> Result<(), Fail> {
    // One read for each piece, and one that finds the end.
    for failing in 1..=(SCRIPT.len() / PIECE) as u64 + 2 {
        let mut page = Page::new(rt.alloc(), 1000, 1000, Vec::new(rt.alloc()))?;
        let status = run(
            &rt,
            rt.alloc(),
            &["play"],
            SCRIPT.as_bytes(),
            failing,
            &mut page,
        )?;
        assert_eq!(rt; status, 2, "at {failing}");
        assert!(rt; page.as_slice().is_empty(), "at {failing}");
    }
    Ok(())
}

#[test]
fn a_write_that_fails_leaves_a_prefix(rt: HostRuntime) -> Result<(), Fail> {
    for (index, _) in REPORT.as_bytes().chunks(10).enumerate() {
        let failing = vec![in rt.alloc(); index as u64 + 1]?;
        let mut page = Page::new(rt.alloc(), 1000, 10, failing)?;
        let status = run(&rt, rt.alloc(), &["play"], SCRIPT.as_bytes(), 0, &mut page)?;
        assert_eq!(rt; status, 3, "at {index}");
        assert_eq!(rt; page.as_slice().len(), 10 * index, "at {index}");
        assert!(rt;
            REPORT.as_bytes().starts_with(page.as_slice()),
            "at {index}"
        );
    }
    Ok(())
}

#[test]
fn an_input_past_the_limit_is_too_large(rt: HostRuntime) -> Result<(), Fail> {
    for (length, status) in [(16_777_216, 4), (16_777_217, 6)] {
        let input = vec![in rt.alloc(); b'['; length]?;
        let mut page = Page::new(rt.alloc(), 1000, 1000, Vec::new(rt.alloc()))?;
        let ended = run(&rt, rt.alloc(), &["play"], input.as_slice(), 0, &mut page)?;
        assert_eq!(rt; ended, status, "at {length}");
    }
    Ok(())
}

/// Whether a text is written in full for another.
fn is_expanded(alloc: Global, text: &str, whole: &str) -> Result<bool, Fail> {
    Ok(expanded(alloc, text)?.as_str() == whole)
}

#[test]
fn an_item_that_comes_often_is_written_once(rt: HostRuntime) -> Result<(), Fail> {
    assert!(rt; is_expanded(rt.alloc(), "[0@3 , %@]", "[0, 1, 2, 3]")?);
    assert!(rt; is_expanded(rt.alloc(), "@2 a@ b @0 c@", "aa b ")?);
    Ok(())
}
