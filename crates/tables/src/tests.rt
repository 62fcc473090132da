// What words stand for.
use crate::{fault_words, hex_bytes, push_word, word_bytes};
use fault::{Cause, Fault};

#[test]
fn digits_are_bytes(rt: HostRuntime) -> anyhow::Result<()> {
    let bytes = hex_bytes(rt.alloc(), " 02 ff  7A ")?;
    assert_eq!(rt; bytes.as_slice(), [2, 255, 122].as_slice());
    assert!(rt; hex_bytes(rt.alloc(), "100").is_err());
    Ok(())
}

#[test]
fn words_are_repeated(rt: HostRuntime) -> anyhow::Result<()> {
    for (word, want) in [
        ("ab", "ab"),
        ("3*ab", "ababab"),
        ("0*ab", ""),
        ("", ""),
        ("18446744073709551615*", ""),
    ] {
        let bytes = word_bytes(rt.alloc(), word)?;
        assert_eq!(rt; bytes.as_slice(), want.as_bytes(), "{word}");
    }
    assert!(rt; word_bytes(rt.alloc(), "x*ab").is_err());
    // No more room is asked for than the bytes need.
    assert_eq!(rt; word_bytes(rt.alloc(), "70*ab")?.capacity(), 140);
    Ok(())
}

#[test]
fn words_follow_one_another(rt: HostRuntime) -> anyhow::Result<()> {
    let mut bytes = Vec::new(rt.alloc());
    for word in ["2*ab", "c", "18446744073709551615*"] {
        push_word(&mut bytes, word)?;
    }
    assert_eq!(rt; bytes.as_slice(), b"ababc".as_slice());
    Ok(())
}

#[test]
fn refusals_have_words(rt: HostRuntime) -> anyhow::Result<()> {
    let words = fault_words(rt.alloc(), Fault::new(Cause::DeadSymbol, 7))?;
    assert_eq!(rt; words.as_str(), "5 7");
    Ok(())
}
